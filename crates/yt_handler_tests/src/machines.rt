//! Machines that are stepped to their end, and what they send.

ghost use Rattle.std.specs.Prelude.{◌≡◌, ◌==◌, [], ◌∷◌, map, option_map, option_to_list, length, if◌then◌else◌};
ghost use Rattle.yt_code.specs.Ready.{IsReady};

use arrayvec::ArrayVec;
use std::process::Abort;
use yt_code::{Code, Machine, Outbox, Stepped};

/// Keeps messages of two numbers on the out 1, messages of one number on the out 2 and one message of eight numbers on the
/// out 3, and stops the test at any other.
#[derive(Drop)]
pub(crate) struct Sent<'a, R: Abort> {
    rt: &'a R,
    pub(crate) pairs: ArrayVec<(i64, i64), 8>,
    pub(crate) ones: ArrayVec<i64, 8>,
    pub(crate) eight: Option<ArrayVec<i64, 8>>,
}

impl<'a, R: Abort> Outbox for Sent<'a, R> {
    ghost sent = { λ b o. if o == 1 then map (λ p. p.0 ∷ p.1 ∷ []) b.pairs.items else if o == 2 then map (λ x. x ∷ []) b.ones.items else if o == 3 then option_to_list (option_map (λ v. v.items) b.eight) else [] };

    ghost takes = { λ _ _ _. Unit {0} };

    ghost leaves = { λ _ _ _ _. Unit {0} };

    fn send(&mut self, out: u32, values: &[i64]) {
        match values {
            [a, b] => {
                assert!(self.rt; out == 1 && !self.pairs.is_full());
                self.pairs.push((*a, *b));
            }
            [only] => {
                assert!(self.rt; out == 2 && !self.ones.is_full());
                self.ones.push(*only);
            }
            _ => {
                assert!(self.rt; out == 3 && self.eight.is_none());
                self.eight = Some(self.kept(values));
            }
        }
    }
}

impl<'a, R: Abort> Sent<'a, R> {
    /// Nothing was sent.
    pub(crate) fn new(rt: &'a R) -> Self {
        Sent {
            rt,
            pairs: ArrayVec::new(),
            ones: ArrayVec::new(),
            eight: None,
        }
    }

    // Eight numbers.
    fn kept(&self, values: &[i64]) -> ArrayVec<i64, 8>
        ensures { result.items ≡ values.now }
    {
        assert!(self.rt; values.len() == 8);
        let mut all = ArrayVec::new();
        for value in values {
            all.push(*value);
        }
        all
    }
}

/// Steps to the end, and counts the ticks: 0 where they are too many.
pub(crate) fn run<R: Abort>(
    machine: &mut Machine,
    code: &Code,
    vars: &mut [i64],
    out: &mut Sent<'_, R>,
) -> usize
    requires ready { IsReady code.now machine.old }
    requires vars { length vars.old ≡ code.now.vars }
{
    for n in 1..1000 {
        match machine.step(code, vars, out) {
            Stepped::Going => {}
            Stepped::Ended => return n,
        }
    }
    0
}
