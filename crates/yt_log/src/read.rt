//! Reads the text of a plan.
ghost use Rattle.std.specs.Prelude.{◌≡◌, ◌<◌, ◌^◌, length, Ok, IfOk, IfErr};
ghost use Rattle.yt_log.specs.Plan.{IsLegalPlan};
ghost use Rattle.yt_log.specs.PlanText.{plan_of};
ghost use Rattle.yt_log.specs.PlanFaults.{IsFaultOf};
ghost use Rattle.yt_log.specs.Inside.PlanReading.{fault_of};
ghost use Rattle.yt_log.specs.declared.read.PlanFault.TheVariants.{Memory};

use crate::item_fault::ItemFault;
use crate::plan::Plan;
use crate::reader::Reader;
use crate::task_names::TaskNames;
use std::alloc::{AllocError, Global};
use yt_base::{FileError, read_lines};
use yt_set::NamedSet;

/// Why a text is no plan of a set: the first line at fault, by its number from 1, and its first fault in this order.
#[derive(Clone, Copy, Debug, PartialEq, Eq, Drop)]
pub enum PlanFault {
    /// The line has another number of fields than three, or an arrival or a cost that isn't digits.
    Form(u32),
    /// No task has this name.
    Unknown(u32),
    /// The cost isn't from 1 to the task's cost.
    Cost(u32),
    /// The job arrives after tick 4,000,000.
    Late(u32),
    /// The job arrives before the job of the line before.
    Order(u32),
    /// The job arrives within a period of the task's last one. `least` is the least tick at which it may.
    Soon { line: u32, least: u64 },
    /// There are 20,000 jobs before this one.
    Many(u32),
    /// Memory ran out.
    Memory,
}

impl From<AllocError> for PlanFault {
    ghost from_gives = { λ _ e. e ≡ Memory };

    fn from(_error: AllocError) -> Self {
        PlanFault::Memory
    }
}

impl From<FileError<ItemFault>> for PlanFault {
    ghost from_gives = { λ error fault. fault ≡ fault_of error };

    fn from(error: FileError<ItemFault>) -> Self {
        match error {
            FileError::Line(line, fault) => fault.in_line(line),
            FileError::Memory => PlanFault::Memory,
        }
    }
}

/// The plan that a text says, line by line `ARRIVAL TASK COST`, or its first line at fault and that line's first fault. The plan is
/// legal for the set.
///
/// Lines without fields are skipped but counted, as are those whose first field begins with `#`. The jobs of a task are numbered
/// from 1 in the order of their lines. The caller shows that the text is shorter than 2^32 bytes. Takes time linear in the text.
pub fn read_plan(alloc: Global, set: &NamedSet, text: &[u8]) -> Result<Plan, PlanFault>
    requires { length text.now < 2 ^ 32 }
    ensures ok { IfOk result (λ plan. plan_of set.now text.now ≡ Ok plan) }
    ensures legal { IfOk result (λ plan. IsLegalPlan set.now.tasks plan) }
    ensures err { IfErr result (λ fault. IsFaultOf set.now text.now fault) }
{
    let reader = read_lines(Reader::new(alloc, TaskNames::new(alloc, set)?), text)?;
    Ok(reader.finish())
}
