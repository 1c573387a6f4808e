//! The fault that decides of those that were found so far.
ghost use Rattle.std.specs.Prelude.{◌≡◌, ◌<◌, [], ◌∷◌, None};
ghost use Rattle.yt_name_faults.specs.First.{limit_rank, fault_rank, fault_place, is_before, is_same_place, decides, least_with, fault_if};

use crate::fault::{LimitKind, NameFault};
use std::marker::Model;
use yt_graph::Place;

/// The fault that decides of those that were found so far, if there was one.
#[derive(Clone, Copy)]
pub(crate) struct Least {
    fault: Option<NameFault>,
}

impl Model for Least {
    ghost use Rattle.std.specs.Prelude.{Option};
    ghost use Rattle.yt_name_faults.specs.declared.fault.NameFault.{NameFault};

    ghost Value = { Option NameFault };

    ghost view = { λ l. l.fault };

    ghost inverse = { λ o. record { fault = o } };
}

impl Least {
    /// No fault yet.
    pub(crate) fn new() -> Self
        ensures { result ≡ None }
    {
        Least { fault: None }
    }

    /// The fault that decides, if there was one.
    pub(crate) fn fault(&self) -> Option<NameFault>
        ensures { result ≡ self.now }
    {
        self.fault
    }

    /// One more fault was found.
    #[tactic(auto, unfolding(crate::specs::First::lesser, crate::specs::First::least_with))]
    pub(crate) fn note(&mut self, fault: NameFault)
        ensures { self.new ≡ least_with (fault ∷ []) self.old }
    {
        match self.fault {
            None => self.fault = Some(fault),
            Some(other) => {
                if decides(fault, other) {
                    self.fault = Some(fault);
                }
            }
        }
    }

    /// A fault was found where there was cause.
    #[tactic(auto, unfolding(crate::specs::First::least_with))]
    pub(crate) fn note_if(&mut self, cause: bool, fault: NameFault)
        ensures { self.new ≡ least_with (fault_if cause fault) self.old }
    {
        if cause {
            self.note(fault);
        }
    }
}

/// Whether the first of both decides.
#[tactic(auto, unfolding(crate::specs::First::decides))]
fn decides(f: NameFault, g: NameFault) -> bool
    ensures { result ≡ decides f g }
{
    is_before(place_of(f), place_of(g))
        || (is_same_place(place_of(f), place_of(g)) && rank_of(f) < rank_of(g))
}

/// Whether a place stands before another.
fn is_before(p: Place, q: Place) -> bool
    ensures { result ≡ is_before p q }
{
    p.line < q.line || (p.line == q.line && p.col < q.col)
}

fn is_same_place(p: Place, q: Place) -> bool
    ensures { result ≡ is_same_place p q }
{
    p.line == q.line && p.col == q.col
}

/// Where a fault is; want of memory is nowhere.
fn place_of(fault: NameFault) -> Place
    ensures { result ≡ fault_place fault }
{
    match fault {
        NameFault::Unknown(place) => place,
        NameFault::Kind(place) => place,
        NameFault::Twice(place) => place,
        NameFault::Width(place) => place,
        NameFault::Limit(place, _) => place,
        NameFault::Cycle(place) => place,
        NameFault::Memory => Place { line: 0, col: 0 },
    }
}

/// Which kind of fault comes first at one place.
fn rank_of(fault: NameFault) -> u32
    ensures { result ≡ fault_rank fault }
{
    match fault {
        NameFault::Unknown(_) => 0,
        NameFault::Kind(_) => 100,
        NameFault::Twice(_) => 200,
        NameFault::Width(_) => 300,
        NameFault::Limit(_, kind) => 400 + limit_rank(kind),
        NameFault::Cycle(_) => 500,
        NameFault::Memory => 600,
    }
}

/// Which limit comes first at one place.
fn limit_rank(kind: LimitKind) -> u32
    ensures rank { result ≡ limit_rank kind }
    ensures small { result < 100 }
{
    match kind {
        LimitKind::Inputs => 0,
        LimitKind::Outputs => 1,
        LimitKind::Resources => 2,
        LimitKind::Processes => 3,
        LimitKind::Ports => 4,
        LimitKind::Variables => 5,
        LimitKind::Outs => 6,
        LimitKind::Locals => 7,
        LimitKind::Width => 8,
        LimitKind::Period => 9,
        LimitKind::Every => 10,
        LimitKind::Turns => 11,
    }
}
