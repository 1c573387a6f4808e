//! Laws of the definitions.

ghost use Rattle.yt_schedule_laws.specs.Begun.{BegunDeadlinesFall};
ghost use Rattle.yt_schedule_laws.specs.InTime.{LogsEnd, MessagesComeInTime, RunsEnd};
ghost use Rattle.yt_schedule_laws.specs.LogSegments.{SegmentsTellTheLog};
ghost use Rattle.yt_schedule_laws.specs.Replacing.{NoneIsReplaced};

/// The segments of a log are the one list of segments in order that tells its ticks, of which no two that meet are of one job.
pub fn segments_tell_the_log()
    ensures { SegmentsTellTheLog }
{}

/// Of the begun, unfinished jobs of a log of the rule the current deadlines fall strictly in order of beginning.
pub fn begun_deadlines_fall()
    ensures { BegunDeadlinesFall }
{}

/// Where a lawful log of a legal plan keeps its deadlines, each job is done when the next one of its task arrives.
pub fn none_is_replaced()
    ensures { NoneIsReplaced }
{}

/// In serial handling a port's messages come by the last tick of a trace and the port's start, and output lines by that tick and the
/// longest reach; so the plan is a legal one whose jobs arrive in time.
pub fn messages_come_in_time()
    ensures { MessagesComeInTime }
{}

/// A lawful log of a legal plan that keeps its deadlines goes to no job from the last deadline on that a plan may have.
pub fn logs_end()
    ensures { LogsEnd }
{}

/// The log of each promised run ends by the last deadline that a plan may have.
pub fn runs_end()
    ensures { RunsEnd }
{}
