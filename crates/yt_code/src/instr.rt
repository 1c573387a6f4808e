//! Instructions.

use yt_graph::Op2;
use yt_list::Items;

/// One instruction. It takes a tick, but a call takes the ticks that it names. Jumps go to places, counted from 0.
#[derive(Debug, Drop, PartialEq, Eq)]
pub enum Instr {
    /// Puts a number on the stack.
    Push(i64),
    /// Puts the value of the local at this place, from 0, on the stack.
    Local(u32),
    /// Puts the value of the variable at this place, from 0, on the stack.
    Var(u32),
    /// Takes the top and stores it in the local at this place, from 0.
    SetLocal(u32),
    /// Takes the top and stores it in the variable at this place, from 0.
    SetVar(u32),
    /// Gives the top the other sign, which wraps.
    Neg,
    /// Makes the top 1 where it is 0, else 0.
    Not,
    /// Takes two numbers, the right side first, and puts the operator's value.
    Two(Op2),
    /// Takes an operator's arguments and puts its value, in the last of its ticks: the operator's number, from 1, how
    /// many numbers it takes, its ticks, and its code. Valid code has no call yet.
    Call {
        op: u32,
        args: u32,
        ticks: u32,
        code: u32,
    },
    /// Takes `width` numbers and sends them on the out of this number, from 1, in the order in which they were put.
    Send {
        out: u32,
        width: u32,
    },
    /// Takes the top, and goes to this place where it is 0.
    JumpZero(u32),
    /// Goes to this place.
    Jump(u32),
    /// Takes the top as a loop's count, of which at most `max` turns are made: sets a counter, or goes to `to` where
    /// there are no turns.
    Loop {
        max: u32,
        to: u32,
    },
    /// Ends a turn: the counter falls by one, and the machine goes back to this place where turns are left.
    Again(u32),
    /// Ends the handler.
    End,
}

/// Instructions, by place from 0.
pub type Instrs = Items<Instr>;
