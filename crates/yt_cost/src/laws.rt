//! Laws of compiled code.

ghost use Rattle.yt_cost.specs.CodeAlone.{CompiledMeansPort};
ghost use Rattle.yt_cost.specs.CodeFit.{CompiledIsValid};
ghost use Rattle.yt_cost.specs.CodeVars.{CompiledUsesOwnVars, StepsKeepToVars};

/// The code of a handler is valid, so a machine is never stuck in it.
pub fn compiled_code_is_valid()
    ensures { CompiledIsValid }
{}

/// The code of a handler that is executed alone does what the handler means.
pub fn compiled_code_means_its_port()
    ensures { CompiledMeansPort }
{}

/// The code of a port uses variables of the port's process alone, and none where the port is under no resource.
pub fn compiled_code_uses_own_variables()
    ensures { CompiledUsesOwnVars }
{}

/// A tick of code hangs on the variables that the code uses, and changes no other.
pub fn steps_keep_to_variables()
    ensures { StepsKeepToVars }
{}
