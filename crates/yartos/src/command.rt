//! What is due to a command and to the files that it names.
ghost use Rattle.std.specs.Prelude.{◌≡◌, ◌⊎◌, ◌≤◌, IfErr, IfOk, IsErrOf};
ghost use Rattle.yt_io.specs.Faults.{Rose};
ghost use Rattle.yartos.specs.Answer.{IsDueTo};
ghost use Rattle.yartos.specs.Reads.{CannotRead};
ghost use Rattle.yartos.specs.Words.{files_of, judges};
ghost use Rattle.yartos.specs.Inside.Found.{command_found};
ghost use Rattle.yartos.specs.Inside.LongFiles.{IfLong, IsFirstLong};

use crate::files::{Unanswered, read_one, read_two};
use crate::words::Command;
use std::alloc::Global;
use yt_answer::Answer;
use yt_cmd_check::{check_answer, tasks_answer};
use yt_cmd_form::form_answer;
use yt_cmd_play::play_answer;
use yt_cmd_replay::replay_answer;
use yt_cmd_run::{run_answer, stop_answer};
use yt_cmd_set::set_answer;
use yt_io::Shelf;

/// What is due to a command and to the files that it names.
pub(crate) fn answer_command<S: Shelf>(
    alloc: Global,
    command: Command<'_>,
    shelf: &mut S,
) -> Result<Answer, Unanswered>
    ensures count { S.faults shelf.old ≤ S.faults shelf.new }
    ensures same { S.held shelf.new ≡ S.held shelf.old }
    ensures due { IfOk result (λ a. IsDueTo (S.held shelf.old) (judges (command_found command.entry)) a.verdict a.text) }
    ensures not_read { IsErrOf result Unanswered.NotRead → CannotRead (S.held shelf.old) (files_of (command_found command.entry)) ⊎ Rose (S.faults shelf.old) (S.faults shelf.new) }
    ensures long { IfErr result (λ e. IfLong e (IsFirstLong (S.held shelf.old) (files_of (command_found command.entry)))) }
{
    match command {
        Command::Form { graph } => {
            let graph = read_one(alloc, graph, shelf)?;
            Ok(form_answer(alloc, &graph)?)
        }
        Command::Tasks { graph } => {
            let graph = read_one(alloc, graph, shelf)?;
            Ok(tasks_answer(alloc, &graph)?)
        }
        Command::Check { graph } => {
            let graph = read_one(alloc, graph, shelf)?;
            Ok(check_answer(alloc, &graph)?)
        }
        Command::Run { graph, trace } => {
            let (graph, trace) = read_two(alloc, graph, trace, shelf)?;
            Ok(run_answer(alloc, &graph, &trace)?)
        }
        Command::Stop { graph, trace, tick } => {
            let (graph, trace) = read_two(alloc, graph, trace, shelf)?;
            Ok(stop_answer(alloc, &graph, &trace, tick)?)
        }
        Command::Set { set } => {
            let set = read_one(alloc, set, shelf)?;
            Ok(set_answer(alloc, &set)?)
        }
        Command::Replay { set } => {
            let set = read_one(alloc, set, shelf)?;
            Ok(replay_answer(alloc, &set)?)
        }
        Command::Play { set, plan } => {
            let (set, plan) = read_two(alloc, set, plan, shelf)?;
            Ok(play_answer(alloc, &set, &plan)?)
        }
    }
}
