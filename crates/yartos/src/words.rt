//! The forms of the words.
ghost use Rattle.std.specs.Prelude.{◌≡◌, [], ◌∷◌};
ghost use Rattle.yartos.specs.Words.{count_of, demos, names_file, request_of, texts};
ghost use Rattle.yartos.specs.Inside.Found.{request_found};

use yt_base::{Decimal, digits};

/// The most digits that a count has.
const MOST_DIGITS: usize = 8;

/// A command that judges files, with their names.
#[derive(Clone, Copy)]
pub(crate) enum Command<'a> {
    /// The canonical text of a graph.
    Form {
        graph: &'a str,
    },
    /// The tasks of a graph.
    Tasks {
        graph: &'a str,
    },
    /// Whether a graph fits.
    Check {
        graph: &'a str,
    },
    /// The run of a graph on a trace.
    Run {
        graph: &'a str,
        trace: &'a str,
    },
    /// The variables of a graph at a tick of its run on a trace.
    Stop {
        graph: &'a str,
        trace: &'a str,
        tick: u32,
    },
    /// Whether a set of tasks fits.
    Set {
        set: &'a str,
    },
    /// The play of the arrivals that show that a set of tasks doesn't fit.
    Replay {
        set: &'a str,
    },
    /// The play of a plan for a set of tasks.
    Play {
        set: &'a str,
        plan: &'a str,
    },
}

/// What words ask for.
#[derive(Clone, Copy)]
pub(crate) enum Request<'a> {
    /// Nothing: they are no listed form.
    Misuse,
    /// To show the example of a number from 1 to 16, which isn't built yet.
    Demo { number: u32 },
    /// A command that judges files.
    Judges(Command<'a>),
}

/// What the words ask for. Takes no memory.
pub(crate) fn request_of(words: &[String]) -> Request<'_>
    ensures { request_found result ≡ request_of (texts words.now) }
{
    match words {
        [command, word] => request_of_one(command.as_str(), word.as_str()),
        [command, first, second] => {
            request_of_two(command.as_str(), first.as_str(), second.as_str())
        }
        [command, first, second, third] => request_of_three(
            command.as_str(),
            first.as_str(),
            second.as_str(),
            third.as_str(),
        ),
        _ => Request::Misuse,
    }
}

/// What a command asks for with one word.
fn request_of_one<'a>(command: &str, word: &'a str) -> Request<'a>
    ensures { request_found result ≡ request_of (command.now ∷ word.now ∷ []) }
{
    let is_file = is_file(word);
    if command == "form" && is_file {
        Request::Judges(Command::Form { graph: word })
    } else if command == "tasks" && is_file {
        Request::Judges(Command::Tasks { graph: word })
    } else if command == "check" && is_file {
        Request::Judges(Command::Check { graph: word })
    } else if command == "set" && is_file {
        Request::Judges(Command::Set { set: word })
    } else if command == "replay" && is_file {
        Request::Judges(Command::Replay { set: word })
    } else if command == "demo" {
        demo_of(count(word))
    } else {
        Request::Misuse
    }
}

/// The demo of a count from 1 to 16.
fn demo_of<'a>(count: Option<u32>) -> Request<'a>
    ensures { request_found result ≡ demos count }
{
    match count {
        Some(number @ 1..=16) => Request::Demo { number },
        _ => Request::Misuse,
    }
}

/// What a command asks for with two words.
fn request_of_two<'a>(command: &str, first: &'a str, second: &'a str) -> Request<'a>
    ensures { request_found result ≡ request_of (command.now ∷ first.now ∷ second.now ∷ []) }
{
    let are_files = is_file(first) && is_file(second);
    if command == "run" && are_files {
        Request::Judges(Command::Run {
            graph: first,
            trace: second,
        })
    } else if command == "play" && are_files {
        Request::Judges(Command::Play {
            set: first,
            plan: second,
        })
    } else {
        Request::Misuse
    }
}

/// What a command asks for with three words.
fn request_of_three<'a>(command: &str, first: &'a str, second: &'a str, third: &str) -> Request<'a>
    ensures { request_found result ≡ request_of (command.now ∷ first.now ∷ second.now ∷ third.now ∷ []) }
{
    let are_files = is_file(first) && is_file(second);
    match count(third) {
        Some(tick) if command == "stop" && are_files => Request::Judges(Command::Stop {
            graph: first,
            trace: second,
            tick,
        }),
        _ => Request::Misuse,
    }
}

/// Whether a word stands for a file: it doesn't begin with a minus.
fn is_file(word: &str) -> bool
    ensures { result ≡ names_file word.now }
{
    !word.as_bytes().starts_with(b"-")
}

/// What a word counts: one to eight decimal digits. `None` comes exactly where the word is something else.
fn count(word: &str) -> Option<u32>
    ensures { result ≡ count_of word.now }
{
    if word.len() > MOST_DIGITS {
        return None;
    }
    match digits(word.as_bytes()) {
        Decimal::Value(n) => u32::try_from(n).ok(),
        _ => None,
    }
}
