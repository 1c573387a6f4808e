//! Laws of the definitions.

ghost use Rattle.yt_rate_laws.specs.Deciding.{RateFaultIsFirst};

/// The fault of a graph's rates that decides is the first cause of the nearest port that has one, by the distance from the input and then
/// by number; and none decides exactly where all ports are within their rates.
pub fn rate_fault_is_first()
    ensures { RateFaultIsFirst }
{}
