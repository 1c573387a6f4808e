//! What is wrong with a job's line.
ghost use Rattle.std.specs.Prelude.{◌≡◌};
ghost use Rattle.yt_log.specs.PlanFaults.{in_line};

use crate::read::PlanFault;

/// What is wrong with a job's line. Of several faults the first in this order counts.
#[derive(Clone, Copy, Debug, PartialEq, Eq, Drop)]
pub(crate) enum ItemFault {
    /// The line has another number of fields than three, or an arrival or a cost that isn't digits.
    Form,
    /// No task has this name.
    Unknown,
    /// The cost isn't from 1 to the task's cost.
    Cost,
    /// The job arrives after tick 4,000,000.
    Late,
    /// The job arrives before the one of the line before.
    Order,
    /// The job arrives within a period of the task's last one. The number is the least tick at which it may.
    Soon(u64),
    /// There are 20,000 jobs before this one.
    Many,
}

impl ItemFault {
    /// The fault in the line of a number.
    pub(crate) fn in_line(self, line: u32) -> PlanFault
        ensures { result ≡ in_line line self }
    {
        match self {
            ItemFault::Form => PlanFault::Form(line),
            ItemFault::Unknown => PlanFault::Unknown(line),
            ItemFault::Cost => PlanFault::Cost(line),
            ItemFault::Late => PlanFault::Late(line),
            ItemFault::Order => PlanFault::Order(line),
            ItemFault::Soon(least) => PlanFault::Soon { line, least },
            ItemFault::Many => PlanFault::Many(line),
        }
    }
}
