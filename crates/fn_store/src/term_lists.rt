//! The plain store: for each function its list of terms.
ghost use Rattle.std.specs.Prelude.{◌≡◌, ◌↔◌, ◌<◌, Bool, true, [], length, slice_index_or, IfOk, OnErr};
ghost use Rattle.ae_base.specs.Mask.{Set};
ghost use Rattle.ae_base.specs.Terms.{value};
ghost use Rattle.fn_store.specs.Davio.{IsExpansion};
ghost use Rattle.fn_store.specs.Functions.{IsLive, Shows, Keeps};
ghost use Rattle.fn_store.specs.Lists.{functions_of};

use crate::combine::{product, single, sum, unit};
use crate::point::least_point;
use crate::store::{FnRef, FnStore, TermsErr};
use ae_base::{Memory, Point, Polarity, Seq, Term};
use std::alloc::Global;
use std::marker::Model;

/// The store that keeps the list of terms of each function. A reference is the place of its list.
#[derive(Drop)]
pub struct TermLists {
    alloc: Global,
    polarity: Polarity,
    zero: FnRef,
    one: FnRef,
    lists: Seq<Seq<Term>>,
}

impl Model for TermLists {
    ghost use Rattle.fn_store.specs.Lists.{Lists, IsLists};

    ghost Value = { Lists };

    ghost view = { λ s. record { polarity = s.polarity; zero = s.zero; one = s.one; lists = s.lists } };

    ghost invariant = { λ s. IsLists (record { polarity = s.polarity; zero = s.zero; one = s.one; lists = s.lists }) };
}

impl TermLists {
    /// The store of the two constant functions, at this polarity. Where memory runs out, `Memory`.
    pub fn new(alloc: Global, polarity: Polarity) -> Result<TermLists, Memory>
        ensures { IfOk result (λ s. (functions_of s).polarity ≡ polarity) }
    {
        let one = unit(alloc)?;
        let mut lists = Seq::new(alloc);
        lists.push(Seq::new(alloc))?;
        lists.push(Seq::from_vec(one))?;
        Ok(TermLists {
            alloc,
            polarity,
            zero: FnRef { at: 0 },
            one: FnRef { at: 1 },
            lists,
        })
    }

    /// The terms of a function, which are the expansion of their value.
    fn terms(&self, a: FnRef) -> &[Term]
        requires { IsLive (functions_of self.now) a }
        ensures terms { result.now ≡ slice_index_or self.now.lists a.at [] }
        ensures is { IsExpansion self.now.polarity (value self.now.polarity result.now) result.now }
    {
        self.lists.at(a.at as usize).as_slice()
    }

    /// Keeps a list of terms as a function. After `Memory` the store is as before.
    fn add(&mut self, terms: Vec<Term>) -> Result<FnRef, Memory>
        requires { IsExpansion self.old.polarity (value self.old.polarity terms.items) terms.items }
        ensures shows { IfOk result (λ r. (f : Set → Bool) → IsExpansion self.old.polarity f terms.items → Shows (functions_of self.new) r f) }
        ensures live { IfOk result (IsLive (functions_of self.new)) }
        ensures keeps { Keeps (functions_of self.old) (functions_of self.new) }
    {
        let at = self.lists.len() as u64;
        self.lists.push(Seq::from_vec(terms))?;
        Ok(FnRef { at })
    }
}

impl FnStore for TermLists {
    ghost functions = { functions_of };

    fn polarity(&self) -> Polarity {
        self.polarity
    }

    fn zero(&self) -> FnRef {
        self.zero
    }

    fn one(&self) -> FnRef {
        self.one
    }

    fn literal(&mut self, j: u32) -> Result<FnRef, Memory> {
        let terms = single(self.alloc, j)?;
        self.add(terms)
    }

    fn xor(&mut self, a: FnRef, b: FnRef) -> Result<FnRef, Memory> {
        let terms = sum(self.alloc, self.terms(a), self.terms(b))?;
        self.add(terms)
    }

    fn and(&mut self, a: FnRef, b: FnRef) -> Result<FnRef, Memory> {
        let terms = product(self.alloc, self.terms(a), self.terms(b))?;
        self.add(terms)
    }

    fn not(&mut self, a: FnRef) -> Result<FnRef, Memory> {
        let terms = sum(self.alloc, self.terms(self.one()), self.terms(a))?;
        self.add(terms)
    }

    fn same(&self, a: FnRef, b: FnRef) -> bool {
        self.terms(a) == self.terms(b)
    }

    fn terms_upto(&self, a: FnRef, k: u64) -> Result<Vec<Term>, TermsErr> {
        let terms = self.terms(a);
        if terms.len() as u64 > k {
            return Err(TermsErr::More);
        }
        let copy = Vec::from_slice(self.alloc, terms)?;
        Ok(copy)
    }

    fn point(&self, a: FnRef) -> Option<Point> {
        least_point(self.polarity, self.terms(a))
    }
}
