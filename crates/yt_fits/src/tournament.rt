//! Numbers of which the least is at hand.
ghost use Rattle.std.specs.Prelude.{◌≡◌, ℕ, ◌*◌, ◌+◌, ◌<◌, ◌≤◌};
ghost use Rattle.yt_fits.specs.Inside.Tournaments.{IsEntrant, IsLesser, IsPlayed, entrant_at, never, number_at};

use yt_set::MOST_TASKS;

/// How many nodes there are: one for each place, as many less one above them, and one that isn't used.
const NODES: usize = 2 * MOST_TASKS;

/// A number, and the place from 0 where it stands.
#[derive(Clone, Copy)]
pub(crate) struct Entrant {
    pub number: u64,
    pub place: usize,
}

/// A number at each of 64 places, of which the least is known: two places meet at a node above them, which has the lesser of
/// both, as do two nodes, up to one that has the least of all.
///
/// The node above all has the number 1, those below node n have the numbers 2n and 2n + 1, and the places come last.
#[derive(Drop)]
pub(crate) struct Tournament {
    nodes: [Entrant; NODES],
}

impl Tournament {
    /// The greatest number at each place.
    pub(crate) fn new() -> Self
        ensures played { IsPlayed result.nodes }
        ensures numbers { (place : ℕ) → place < 64 → number_at result.nodes place ≡ never }
    {
        let unknown = Entrant {
            number: u64::MAX,
            place: 0,
        };
        let mut all = Tournament {
            nodes: [unknown; NODES],
        };
        let mut node = NODES;
        while node > 1 {
            node -= 1;
            all.nodes[node] = all.first_entrant(node);
        }
        all
    }

    /// Who stands at a node at first, where those below it have been told.
    fn first_entrant(&self, node: usize) -> Entrant
        requires { node < 128 }
        ensures entrant { IsEntrant self.now.nodes node result }
        ensures number { 64 ≤ node → result.number ≡ never }
    {
        if node < MOST_TASKS {
            self.lesser_below(node)
        } else {
            Entrant {
                number: u64::MAX,
                place: node - MOST_TASKS,
            }
        }
    }

    /// The least number, and a place where it stands.
    pub(crate) fn least(&self) -> Entrant
        requires { IsPlayed self.now.nodes }
        ensures within { result.place < 64 }
        ensures there { number_at self.now.nodes result.place ≡ result.number }
        ensures least { (place : ℕ) → place < 64 → result.number ≤ number_at self.now.nodes place }
    {
        self.nodes[1]
    }

    /// Puts a number at a place, in place of what stood there.
    pub(crate) fn put(&mut self, place: usize, number: u64)
        requires played { IsPlayed self.old.nodes }
        requires within { place < 64 }
        ensures played { IsPlayed self.new.nodes }
        ensures here { number_at self.new.nodes place ≡ number }
        ensures others { (other : ℕ) → other < 64 → (other ≡ place → ⊥) → number_at self.new.nodes other ≡ number_at self.old.nodes other }
    {
        let mut node = MOST_TASKS + place;
        self.nodes[node] = Entrant { number, place };
        while node > 1 {
            node /= 2;
            self.nodes[node] = self.lesser_below(node);
        }
    }

    /// The lesser of the two below a node.
    fn lesser_below(&self, node: usize) -> Entrant
        requires { node < 64 }
        ensures { IsLesser result (entrant_at self.now.nodes (2 * node)) (entrant_at self.now.nodes (2 * node + 1)) }
    {
        let left = self.nodes[2 * node];
        let right = self.nodes[2 * node + 1];
        if right.number < left.number {
            right
        } else {
            left
        }
    }
}
