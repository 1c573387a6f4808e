//! Laws of the definitions.

ghost use Rattle.yt_serial.specs.Bounds.{MessagesAreBounded};
ghost use Rattle.yt_serial.specs.RunRules.{RunRulesAreExact};
ghost use Rattle.yt_serial.specs.Laws.{LogPlansAreLegal, MessagesAreApart, PlansAreLegal, VariablesStay};

/// Along each order on which it is defined, serial handling makes a legal plan for the graph's tasks.
pub fn plans_are_legal()
    ensures { PlansAreLegal }
{}

/// The plan of each log is legal for the graph's tasks.
pub fn log_plans_are_legal()
    ensures { LogPlansAreLegal }
{}

/// In serial handling the messages at each port are at least its period apart.
pub fn messages_are_apart()
    ensures { MessagesAreApart }
{}

/// Each port handles, and each output shows, no more messages than its chain of sources and the trace allow.
pub fn messages_are_bounded()
    ensures { MessagesAreBounded }
{}

/// After the end of a log the variables stay as its last tick left them.
pub fn variables_stay()
    ensures { VariablesStay }
{}

/// Where the rule's logs keep the deadlines of the graph's tasks, a log and lines keep every promise of a run exactly where they meet the
/// rules of a run, which are judged by handling its messages one at a time; and at most one log, with its lines, keeps every promise.
pub fn run_rules_are_exact()
    ensures { RunRulesAreExact }
{}
