//! Valid code.

ghost use Rattle.std.specs.Prelude.{◌≡◌, ◌+◌, ◌<◌, ◌^◌, length, slice_get, Some};
ghost use Rattle.yt_code.specs.Valid.{IsValidCode};

use crate::instr::{Instr, Instrs};
use std::marker::Model;

/// The code of a handler: valid instructions, and how many parameters, locals and variables they are for.
#[derive(Drop)]
pub struct Code {
    instrs: Instrs,
    params: u32,
    locals: u32,
    vars: u32,
}

impl Model for Code {
    ghost use Rattle.yt_code.specs.Valid.{Program, IsValidCode};

    ghost Value = { Program };

    ghost view = { λ c. record {
      instrs = c.instrs;
      params = c.params;
      locals = c.locals;
      vars = c.vars;
    } };

    ghost invariant = { λ c. IsValidCode (record {
      instrs = c.instrs;
      params = c.params;
      locals = c.locals;
      vars = c.vars;
    }) };
}

impl Code {
    /// Code of these instructions, for messages of `params` numbers, with `locals` locals (parameters among them) and
    /// `vars` variables. The caller shows that the instructions are valid.
    pub fn new(instrs: Instrs, params: u32, locals: u32, vars: u32) -> Self
        requires valid { IsValidCode (record { instrs = instrs; params = params; locals = locals; vars = vars }) }
        ensures { result ≡ record { instrs = instrs; params = params; locals = locals; vars = vars } }
    {
        Code {
            instrs,
            params,
            locals,
            vars,
        }
    }

    /// The instructions, by place from 0.
    pub fn instrs(&self) -> &[Instr]
        ensures value { result.now ≡ self.now.instrs }
        ensures valid { IsValidCode self.now }
    {
        self.instrs.as_slice()
    }

    /// The instruction at this place, from 0. The caller shows that there is one.
    pub fn at(&self, place: usize) -> &Instr
        requires { place < length self.now.instrs }
        ensures value { slice_get self.now.instrs place ≡ Some result.now }
        ensures next { place + 1 < 2 ^ 64 }
    {
        &self.instrs.as_slice()[place]
    }

    /// How many numbers a message has.
    pub fn params(&self) -> u32
        ensures { result ≡ self.now.params }
    {
        self.params
    }

    /// How many locals there are, parameters among them.
    pub fn locals(&self) -> u32
        ensures value { result ≡ self.now.locals }
        ensures valid { IsValidCode self.now }
    {
        self.locals
    }

    /// How many variables there are.
    pub fn vars(&self) -> u32
        ensures { result ≡ self.now.vars }
    {
        self.vars
    }
}
