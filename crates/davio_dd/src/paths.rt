//! What the paths from a place give: its terms, and its least point.
ghost use Rattle.std.specs.Prelude.{◌≡◌, ◌+◌, ◌++◌, ◌<◌, length, map, IfOk, OnOk, MatchOption};
ghost use Rattle.ae_base.specs.Mask.{either};
ghost use Rattle.ae_base.specs.Terms.{in_order};
ghost use Rattle.fn_store.specs.Davio as davio;
ghost use Rattle.davio_dd.specs.Diagram.{IsPlace, place_terms};
ghost use Rattle.davio_dd.specs.Scratch.{all_zero, path_point};

use crate::diagram::Davio;
use ae_base::{Mask, Memory, Point, Polarity, Term};

impl Davio {
    /// What is left of the room for some terms beside those of a place; `None` where there are more. It takes no memory.
    pub(crate) fn room_beside(&self, a: usize, room: u64) -> Option<u64>
        requires { IsPlace self.now.nodes.keys a }
        ensures { MatchOption result (room < length (place_terms self.now.nodes.keys a)) (λ left. left + length (place_terms self.now.nodes.keys a) ≡ room) }
    {
        match self.get(a) {
            Some(node) => {
                let left = self.room_beside(node.low, room)?;
                self.room_beside(node.high, left)
            }
            None if a == 0 => Some(room),
            None => room.checked_sub(1),
        }
    }

    /// The terms of a place in term order.
    pub(crate) fn terms(&self, a: usize) -> Result<Vec<Term>, Memory>
        requires { IsPlace self.now.nodes.keys a }
        ensures { IfOk result (λ ts. ts.items ≡ in_order (place_terms self.now.nodes.keys a)) }
    {
        let mut terms = Vec::new(self.alloc);
        self.push_terms(a, Mask::empty(), &mut terms)?;
        terms.sort_unstable();
        Ok(terms)
    }

    /// Puts the terms of a place, each with the inputs of the path that led there, behind others.
    fn push_terms(&self, a: usize, path: Term, terms: &mut Vec<Term>) -> Result<(), Memory>
        requires { IsPlace self.now.nodes.keys a }
        ensures { OnOk result (terms.new.items ≡ terms.old.items ++ map (λ t. either path t) (place_terms self.now.nodes.keys a)) }
    {
        match self.get(a) {
            Some(node) => {
                self.push_terms(node.low, path, terms)?;
                self.push_terms(node.high, path.with(node.input), terms)
            }
            None if a == 0 => Ok(()),
            None => {
                terms.push(path)?;
                Ok(())
            }
        }
    }

    /// The point along one path. It takes no memory.
    pub(crate) fn path(&self, a: usize) -> Point
        requires { IsPlace self.now.nodes.keys a }
        ensures { result ≡ path_point self.now.polarity self.now.nodes.keys a }
    {
        match self.get(a) {
            Some(node) => {
                if node.low == 0 {
                    let rest = self.path(node.high);
                    at_one(self.polarity, node.input, rest)
                } else {
                    self.path(node.low)
                }
            }
            None => at_zero(self.polarity),
        }
    }
}

/// The point at which every literal is 0.
#[tactic(auto, unfolding(crate::specs::Scratch::all_zero))]
fn at_zero(polarity: Polarity) -> Point
    ensures { result ≡ all_zero polarity }
{
    let all = Mask::first(polarity.n);
    all.xor(all.both(polarity.plain))
}

/// The point with the literal of an input at 1.
fn at_one(polarity: Polarity, input: u32, point: Point) -> Point
    requires { input < polarity.n }
    ensures { result ≡ davio.high polarity input point }
{
    if polarity.plain.has(input) {
        point.with(input)
    } else {
        point.without(input)
    }
}
