//! What is due to the replay of the text of a set.
ghost use Rattle.std.specs.Prelude.{◌≡◌, ◌<◌, ◌^◌, IfOk, length};
ghost use Rattle.yt_answer.specs.Due.{IsDue};
ghost use Rattle.yt_set.specs.Tasks.{IsTaskSet};
ghost use Rattle.yt_witness.specs.Witnesses.{IsPatternOf};
ghost use Rattle.yt_cmd_replay.specs.Causes.{IsPatternText, IsReplayText, IsReplayedText, pattern_verdict, replay_verdict, replayed_verdict};
ghost use Rattle.yt_cmd_replay.specs.Texts.{long_line};

use std::alloc::{AllocError, Global};
use yt_answer::{Answer, Verdict};
use yt_base::Text;
use yt_fits::fits;
use yt_fitting::{Kind, SetReading, accepted_answer, read_named_set, unfit_answer};
use yt_playing::played_answer;
use yt_set::NamedSet;
use yt_witness::{Pattern, PatternFault, plan_of, witness};

/// What is due to the replay of the text of a set, which the caller shows to be shorter than 2^32 bytes. `Err` comes where memory ran
/// out.
pub fn replay_answer(alloc: Global, text: &[u8]) -> Result<Answer, AllocError>
    requires { length text.now < 2 ^ 32 }
    ensures { IfOk result (λ a. IsDue (replay_verdict {set = text.now}) (IsReplayText {set = text.now}) a.verdict a.text) }
{
    match read_named_set(alloc, text)? {
        SetReading::Set(named) => replay_set(alloc, &named),
        SetReading::Refused(answer) => Ok(answer),
    }
}

/// What is due to the replay of a set. `Err` comes where memory ran out.
fn replay_set(alloc: Global, named: &NamedSet) -> Result<Answer, AllocError>
    requires { IsTaskSet named.now.tasks }
    ensures { IfOk result (λ a. IsDue (replayed_verdict {set = named.now}) IsReplayedText a.verdict a.text) }
{
    let set = named.set();
    match fits(set) {
        Ok(sum) => accepted_answer(alloc, set, sum),
        Err(why) => match witness(set, &why) {
            Some(pattern) => replay_pattern(alloc, named, &pattern),
            None => unfit_answer(alloc, Kind::Set, named.labels(), set, &why),
        },
    }
}

/// What is due to the replay of a set that doesn't fit, by the pattern that shows it. `Err` comes where memory ran out.
fn replay_pattern(alloc: Global, named: &NamedSet, pattern: &Pattern) -> Result<Answer, AllocError>
    requires set { IsTaskSet named.now.tasks }
    requires pattern { IsPatternOf named.now.tasks pattern.now }
    ensures { IfOk result (λ a. IsDue (pattern_verdict {set = named.now} {pattern = pattern.now}) IsPatternText a.verdict a.text) }
{
    match plan_of(alloc, named.set(), pattern) {
        Ok(plan) => played_answer(alloc, named, &plan),
        Err(PatternFault::Long { upto, jobs }) => Ok(Answer {
            verdict: Verdict::Long,
            text: long_line(alloc, upto, jobs)?,
        }),
        Err(PatternFault::Memory) => Err(AllocError),
    }
}

/// The line of a pattern that is too long to be played, by the tick of its horizon and the number of its jobs. `Err` comes where memory
/// ran out.
fn long_line(alloc: Global, upto: u128, jobs: u128) -> Result<Text, AllocError>
    ensures { IfOk result (λ line. line ≡ long_line upto jobs) }
{
    let mut line = Text::new(alloc);
    line.put(b"long replay")?;
    line.put_wide_field(upto)?;
    line.put_wide_field(jobs)?;
    line.put(b"\n")?;
    Ok(line)
}
