//! Laws of the definitions.

ghost use Rattle.yt_body.specs.Wiring.{WiresAreSound};

/// The wires of a well-formed graph whose rates and costs are within their limits are sound: no out has two, and no target two sources.
pub fn wires_are_sound()
    ensures { WiresAreSound }
{}
