//! Laws of what is due.

ghost use Rattle.yartos.specs.Laws.{OneStatusIsDue, SomeStatusIsDue};

/// Where a shelf tells what it holds, one status is due to words and files, and no other.
pub fn one_status_is_due()
    ensures { OneStatusIsDue }
{}

/// Where a shelf tells what it holds, and each file that words name and that is reached can be read, it can't be that no status is due.
pub fn some_status_is_due()
    ensures { SomeStatusIsDue }
{}
