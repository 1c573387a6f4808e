//! The machine that steps through code.

ghost use Rattle.std.specs.Prelude.{◌≡◌, ◌+◌, ◌-◌, ◌<◌, ◌≤◌, ◌^◌, [], ◌∷◌, length, drop, pos, slice_index_or, slice_set};
ghost use Rattle.yt_graph.specs.Meaning.{neg_value, not_value};
ghost use Rattle.yt_code.specs.Step.{instruction_step, effect, at_place, topmost, sends_of, IsTick};
ghost use Rattle.yt_code.specs.Ready.{idle, begun, IsReady, OnGoing};
ghost use Rattle.yt_code.specs.Outbox.{AddsSend, AddsSends, LeavesAll, TakesAll};
ghost use Rattle.yt_code.specs.Inside.Needs.{Finds, HasTurn, IsQuiet};

use crate::code::Code;
use crate::instr::Instr;
use crate::limits::{MOST_OPEN_LOOPS, STACK_ROOM};
use crate::outbox::Outbox;
use crate::pile::Pile;
use crate::stepped::Stepped;
use arrayvec::ArrayVec;
use std::marker::Model;
use yt_graph::{MOST_LOCALS, Op2, applied, inverted, negated, turns_made};

/// A machine that steps through the code of a handler. A contract sees its state between two ticks.
#[derive(Drop)]
pub struct Machine {
    place: usize,
    spent: u32,
    stack: Pile<STACK_ROOM>,
    loops: Pile<MOST_OPEN_LOOPS>,
    locals: ArrayVec<i64, MOST_LOCALS>,
}

impl Model for Machine {
    ghost use Rattle.yt_code.specs.Step.{State};

    ghost Value = { State };

    ghost view = { λ m. record {
      place = m.place;
      spent = m.spent;
      stack = m.stack;
      loops = m.loops;
      locals = m.locals.items;
    } };
}

impl Machine {
    /// A machine that is idle.
    pub fn new() -> Self
        ensures { result ≡ idle }
    {
        Machine {
            place: 0,
            spent: 0,
            stack: Pile::new(),
            loops: Pile::new(),
            locals: ArrayVec::new(),
        }
    }

    /// Makes the machine stand at the code's first instruction with a message, whatever it did before. The caller shows
    /// that the message has as many numbers as the code has parameters.
    pub fn begin(&mut self, code: &Code, msg: &[i64])
        requires params { length msg.now ≡ code.now.params }
        ensures state { self.new ≡ begun code.now msg.now }
        ensures ready { IsReady code.now self.new }
    {
        let locals = code.locals() as usize;
        self.place = 0;
        self.spent = 0;
        self.stack.clear();
        self.loops.clear();
        self.locals.clear();
        let _ = self.locals.try_extend_from_slice(msg);
        for _ in msg.len()..locals {
            self.locals.push(0);
        }
    }

    /// Makes one tick, in constant time and with no memory. The caller shows that the machine was begun with this code
    /// and has not ended, that there are as many variables as the code asks for, and that the outbox takes what is sent
    /// in the tick.
    pub fn step<B: Outbox>(&mut self, code: &Code, vars: &mut [i64], out: &mut B) -> Stepped
        requires ready { IsReady code.now self.old }
        requires vars { length vars.old ≡ code.now.vars }
        requires takes { TakesAll B.takes B.leaves (sends_of (instruction_step code.now.instrs self.old vars.old)) out.old }
        ensures tick { IsTick (instruction_step code.now.instrs self.old vars.old) self.new vars.new result }
        ensures added { AddsSends (B.sent out.old) (B.sent out.new) (sends_of (instruction_step code.now.instrs self.old vars.old)) }
        ensures left { LeavesAll B.leaves (sends_of (instruction_step code.now.instrs self.old vars.old)) out.old out.new }
        ensures ready { OnGoing result (IsReady code.now self.new) }
    {
        let instr = code.at(self.place);
        self.act(instr, vars, out)
    }

    fn push(&mut self, x: i64)
        requires room { length self.old.stack < STACK_ROOM }
        requires next { self.old.place + 1 < 2 ^ 64 }
        ensures { self.new ≡ at_place (self.old.place + 1) (x ∷ self.old.stack) self.old.loops self.old.locals }
    {
        self.stack.push(x);
        self.place += 1;
        self.spent = 0;
    }

    fn pop(&mut self) -> i64
        requires found { 0 < length self.old.stack }
        requires next { self.old.place + 1 < 2 ^ 64 }
        ensures place { self.new.place ≡ self.old.place + 1 }
        ensures spent { self.new.spent ≡ 0 }
        ensures stack { self.old.stack ≡ result ∷ self.new.stack }
        ensures room { length self.new.stack < STACK_ROOM }
        ensures loops { self.new.loops ≡ self.old.loops }
        ensures locals { self.new.locals ≡ self.old.locals }
    {
        self.place += 1;
        self.spent = 0;
        self.stack.pop()
    }

    fn jump(&mut self, to: u32)
        ensures { self.new ≡ at_place to self.old.stack self.old.loops self.old.locals }
    {
        self.place = to as usize;
        self.spent = 0;
    }

    fn local(&self, i: u32) -> i64
        requires { i < length self.now.locals }
        ensures { result ≡ slice_index_or self.now.locals i (pos 0) }
    {
        self.locals[i as usize]
    }

    fn set_local(&mut self, i: u32, x: i64)
        requires found { i < length self.old.locals }
        requires fresh { self.old.spent ≡ 0 }
        ensures { self.new ≡ at_place self.old.place self.old.stack self.old.loops (slice_set self.old.locals i x) }
    {
        self.locals[i as usize] = x;
    }

    // One tick of an instruction.
    fn act<B: Outbox>(&mut self, instr: &Instr, vars: &mut [i64], out: &mut B) -> Stepped
        requires finds { Finds instr.now self.old (length vars.old) }
        requires next { self.old.place + 1 < 2 ^ 64 }
        requires takes { TakesAll B.takes B.leaves (sends_of (effect instr.now self.old vars.old)) out.old }
        ensures tick { IsTick (effect instr.now self.old vars.old) self.new vars.new result }
        ensures added { AddsSends (B.sent out.old) (B.sent out.new) (sends_of (effect instr.now self.old vars.old)) }
        ensures left { LeavesAll B.leaves (sends_of (effect instr.now self.old vars.old)) out.old out.new }
    {
        match instr {
            Instr::Push(n) => self.push(*n),
            Instr::Local(i) => {
                let x = self.local(*i);
                self.push(x);
            }
            Instr::Var(i) => self.push(vars[*i as usize]),
            Instr::SetLocal(i) => {
                let x = self.pop();
                self.set_local(*i, x);
            }
            Instr::SetVar(i) => vars[*i as usize] = self.pop(),
            Instr::Neg => {
                let x = self.pop();
                self.stack.push(negated(x));
            }
            Instr::Not => {
                let x = self.pop();
                self.stack.push(inverted(x));
            }
            Instr::Two(op) => self.two(*op),
            Instr::Call { .. } => unreachable!(),
            Instr::Send { out: o, width } => self.send(*o, *width, out),
            Instr::JumpZero(to) => {
                if self.pop() == 0 {
                    self.jump(*to);
                }
            }
            Instr::Jump(to) => self.jump(*to),
            Instr::Loop { max, to } => self.enter(*max, *to),
            Instr::Again(to) => self.turn(*to),
            Instr::End => return Stepped::Ended,
        }
        Stepped::Going
    }

    fn two(&mut self, op: Op2)
        requires found { 1 < length self.old.stack }
        requires next { self.old.place + 1 < 2 ^ 64 }
        ensures { IsQuiet (effect (Instr.Two op) self.old []) self.new }
    {
        let y = self.stack.pop();
        let x = self.pop();
        self.stack.push(applied(op, x, y));
    }

    fn send<B: Outbox>(&mut self, o: u32, width: u32, out: &mut B)
        requires found { width ≤ length self.old.stack }
        requires next { self.old.place + 1 < 2 ^ 64 }
        requires takes { B.takes out.old o (topmost width self.old.stack) }
        ensures mach { self.new ≡ at_place (self.old.place + 1) (drop width self.old.stack) self.old.loops self.old.locals }
        ensures added { AddsSend (B.sent out.old) (B.sent out.new) o (topmost width self.old.stack) }
        ensures left { B.leaves out.old o (topmost width self.old.stack) out.new }
    {
        out.send(o, self.stack.top(width as usize));
        self.stack.cut(width as usize);
        self.place += 1;
        self.spent = 0;
    }

    fn enter(&mut self, max: u32, to: u32)
        requires found { 0 < length self.old.stack }
        requires room { length self.old.loops < MOST_OPEN_LOOPS }
        requires next { self.old.place + 1 < 2 ^ 64 }
        ensures { IsQuiet (effect (Instr.Loop max to) self.old []) self.new }
    {
        let count = self.pop();
        let n = turns_made(count, max);
        if n == 0 {
            self.jump(to);
        } else {
            self.loops.push(i64::from(n));
        }
    }

    fn turn(&mut self, to: u32)
        requires found { HasTurn self.old.loops }
        requires next { self.old.place + 1 < 2 ^ 64 }
        ensures { IsQuiet (effect (Instr.Again to) self.old []) self.new }
    {
        let n = self.loops.pop();
        if n > 1 {
            self.loops.push(n - 1);
            self.jump(to);
        } else {
            self.place += 1;
            self.spent = 0;
        }
    }
}
