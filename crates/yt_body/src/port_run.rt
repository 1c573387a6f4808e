//! The run of a port's handler.
ghost use Rattle.std.specs.Prelude.{◌≡◌, ◌+◌, ◌<◌, ◌^◌, length};
ghost use Rattle.yt_code.specs.Ready.{begun, IsReady, idle};
ghost use Rattle.yt_body.specs.Steps.{with_message};

use yt_code::{Code, Machine};

/// How far a port has come with its message.
#[derive(Clone, Copy, Debug, PartialEq, Eq)]
pub enum PortStage {
    /// No message is in handling.
    Idle,
    /// A message has come, and its job has not begun.
    Placed,
    /// The message's job has begun and not ended.
    Begun,
}

/// The run of a port's handler.
#[derive(Drop)]
pub struct PortRun {
    /// How far it has come.
    pub(crate) stage: PortStage,
    /// The number of the message that came last, from 1; 0 where none came.
    pub(crate) number: u32,
    /// The tick at which it came.
    pub(crate) arrival: u64,
    /// The machine of its job.
    pub(crate) machine: Machine,
}

impl PortRun {
    /// A run to which no message came.
    pub(crate) fn new() -> Self
        ensures { result ≡ record { stage = PortStage.Idle; number = 0; arrival = 0; machine = idle } }
    {
        PortRun {
            stage: PortStage::Idle,
            number: 0,
            arrival: 0,
            machine: Machine::new(),
        }
    }

    /// The port's next message has come at a tick.
    pub(crate) fn place(&mut self, now: u64)
        requires { self.old.number + 1 < 2 ^ 32 }
        ensures { self.new ≡ with_message now self.old }
    {
        self.stage = PortStage::Placed;
        self.number += 1;
        self.arrival = now;
    }

    /// The job of the message begins. The caller shows that the message has as many numbers as the code has parameters.
    pub(crate) fn begin(&mut self, code: &Code, message: &[i64])
        requires { length message.now ≡ code.now.params }
        ensures begun { self.new ≡ record self.old { stage = PortStage.Begun; machine = begun code.now message.now } }
        ensures ready { IsReady code.now self.new.machine }
    {
        self.machine.begin(code, message);
        self.stage = PortStage::Begun;
    }
}
