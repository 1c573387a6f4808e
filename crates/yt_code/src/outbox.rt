//! What takes the messages that a machine sends.

ghost use Rattle.std.specs.Prelude.{ℕ, ℤ, List};
ghost use Rattle.yt_code.specs.Outbox.{AddsSend};

/// Takes messages. It says three things: what was sent on each out so far, in order (`sent`); which sends it takes
/// (`takes`); and what a send leaves of it (`leaves`).
pub trait Outbox {
    ghost sent: { Self → ℕ → List (List ℤ) };

    ghost takes: { Self → ℕ → List ℤ → Type 0 };

    ghost leaves: { Self → ℕ → List ℤ → Self → Type 0 };

    /// Takes one message on the out of this number, from 1. The caller shows that the outbox takes it.
    fn send(&mut self, out: u32, values: &[i64])
        requires { takes self.old out values.now }
        ensures added { AddsSend (sent self.old) (sent self.new) out values.now }
        ensures left { leaves self.old out values.now self.new };
}
