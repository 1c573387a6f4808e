//! Laws of the definitions.
ghost use Rattle.yt_rates.specs.Laws.{RatesAlongAnOut, RatesOfAnInput};

/// A port that an input feeds has the input's period, the start 0 and the distance 0.
pub fn rates_of_an_input()
    ensures { RatesOfAnInput }
{}

/// A port that an out feeds has the out's gap for its period, the out's reach for its start, and stands one port farther from
/// the input than the out's port.
pub fn rates_along_an_out()
    ensures { RatesAlongAnOut }
{}
