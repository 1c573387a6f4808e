//! One task.
ghost use Rattle.std.specs.Prelude.{◌≡◌, ◌+◌, ◌<◌, ◌≤◌, ◌^◌};
ghost use Rattle.yt_set.specs.Tasks.{jobs_due, within};

/// A sporadic task, whose jobs come at any time, but not too soon after one another.
#[derive(Clone, Copy, Debug, PartialEq, Eq)]
pub struct Task {
    /// The most ticks that a job takes.
    pub cost: u64,
    /// The fewest ticks between the arrivals of two jobs.
    pub period: u64,
    /// The number, from 1, of the resource that a job keeps from its first tick to its last; 0 where it keeps none.
    pub resource: u32,
}

impl Task {
    /// How many ticks after its arrival a job is due: at the end of its period.
    pub fn within(self) -> u64
        ensures { result ≡ within self }
    {
        self.period
    }

    /// The deadline of a job that arrives at a tick.
    pub fn deadline(self, arrival: u64) -> u64
        requires { arrival + within self < 2 ^ 64 }
        ensures { result ≡ arrival + within self }
    {
        arrival + self.within()
    }

    /// How many jobs can arrive and be due within so many ticks.
    pub fn jobs_due(self, ticks: u64) -> u64
        requires positive { 1 ≤ self.period }
        requires short { ticks + self.period < 2 ^ 64 }
        ensures { result ≡ jobs_due self ticks }
    {
        (ticks + self.period - self.within()) / self.period
    }
}
