//! The diagram: its nodes, and the results that it remembers.
ghost use Rattle.std.specs.Prelude.{◌≡◌, ◌≢◌, ◌<◌, ◌≤◌, ◌&&◌, Some, slice_get, IfOk, IfSome, MatchOption};
ghost use Rattle.indexmap.specs.IndexMap.{get};
ghost use Rattle.ae_base.specs.Mask.{Set, differ};
ghost use Rattle.ae_base.specs.Terms.{literal};
ghost use Rattle.ae_base.specs.declared.limits.TheConstants.{WIDTH};
ghost use Rattle.davio_dd.specs.Diagram.{IsDiagram, IsPlace, IsAnswer, AllRight, functions_of, place_value, product, top};
ghost use Rattle.davio_dd.specs.Scratch.{Grows, IsAdded, IsNode, IsPart, IsSplit};

use crate::node::{Node, Question};
use ae_base::{Memory, Polarity};
use indexmap::{IndexMap, IndexSet};
use std::alloc::Global;

/// The store of functions as places of one diagram. The place 0 is the constant 0, the place 1 is the constant 1, and the node k has
/// the place k + 2. A reference is a place, and equal functions are one place.
#[derive(Drop)]
pub struct Davio {
    pub(crate) alloc: Global,
    pub(crate) polarity: Polarity,
    nodes: IndexSet<Node>,
    sums: IndexMap<Question, usize>,
    products: IndexMap<Question, usize>,
    ghost narrow: { polarity.n ≤ WIDTH },
    ghost is_diagram: { IsDiagram polarity.n nodes.keys },
    ghost sums_right: { AllRight differ polarity nodes.keys (get ⟦<Question as PartialEq>⟧.eq sums) },
    ghost products_right: { AllRight product polarity nodes.keys (get ⟦<Question as PartialEq>⟧.eq products) },
}

/// The parts of two places by one input.
#[derive(Clone, Copy)]
pub(crate) struct Split {
    pub(crate) input: u32,
    pub(crate) a_low: usize,
    pub(crate) a_high: usize,
    pub(crate) b_low: usize,
    pub(crate) b_high: usize,
}

impl Davio {
    /// The store of the two constant functions, at this polarity. Where memory runs out, `Memory`.
    pub fn new(alloc: Global, polarity: Polarity) -> Result<Davio, Memory>
        ensures { IfOk result (λ s. (functions_of s.polarity s.nodes.keys).polarity ≡ polarity) }
    {
        Ok(Davio {
            alloc,
            polarity,
            nodes: IndexSet::new(alloc),
            sums: IndexMap::new(alloc),
            products: IndexMap::new(alloc),
        })
    }

    /// The place of a node: a node whose `high` is the constant 0 is its `low`.
    pub(crate) fn node(&mut self, node: Node) -> Result<usize, Memory>
        requires low { IsPlace self.old.nodes.keys node.low }
        requires high { IsPlace self.old.nodes.keys node.high }
        requires below { node.input < self.old.polarity.n }
        requires before_low { node.input < top self.old.polarity.n self.old.nodes.keys node.low }
        requires before_high { node.input < top self.old.polarity.n self.old.nodes.keys node.high }
        ensures polarity { self.new.polarity ≡ self.old.polarity }
        ensures grows { Grows self.old.nodes.keys self.new.nodes.keys }
        ensures within { IfOk result (λ r. IsPlace self.new.nodes.keys r) }
        ensures over { IfOk result (λ r. node.input ≤ top self.new.polarity.n self.new.nodes.keys r) }
        ensures value { IfOk result (λ r. (x : Set) → place_value self.new.polarity self.new.nodes.keys r x
            ≡ differ (place_value self.old.polarity self.old.nodes.keys node.low x) (literal self.old.polarity node.input x && place_value self.old.polarity self.old.nodes.keys node.high x)) }
    {
        if node.high == 0 {
            return Ok(node.low);
        }
        let place = self.add(node)?;
        match place.checked_add(2) {
            Some(at) => Ok(at),
            None => Err(Memory),
        }
    }

    /// The number of a node.
    fn add(&mut self, node: Node) -> Result<usize, Memory>
        requires low { IsPlace self.old.nodes.keys node.low }
        requires high { IsPlace self.old.nodes.keys node.high }
        requires some { 0 < node.high }
        requires below { node.input < self.old.polarity.n }
        requires before_low { node.input < top self.old.polarity.n self.old.nodes.keys node.low }
        requires before_high { node.input < top self.old.polarity.n self.old.nodes.keys node.high }
        ensures polarity { self.new.polarity ≡ self.old.polarity }
        ensures grows { Grows self.old.nodes.keys self.new.nodes.keys }
        ensures at { IfOk result (λ k. slice_get self.new.nodes.keys k ≡ Some node) }
    {
        put(&mut self.nodes, node)
    }

    /// The node at a place. The constants have none.
    pub(crate) fn get(&self, a: usize) -> Option<Node>
        requires { IsPlace self.now.nodes.keys a }
        ensures { MatchOption result (a < 2) (IsNode self.now.polarity.n self.now.nodes.keys a) }
    {
        if a < 2 {
            return None;
        }
        self.nodes.get_index(a - 2).copied()
    }

    /// The input that a place tests, or the number of inputs.
    fn input(&self, a: usize) -> u32
        requires { IsPlace self.now.nodes.keys a }
        ensures { result ≡ top self.now.polarity.n self.now.nodes.keys a }
    {
        match self.get(a) {
            Some(node) => node.input,
            None => self.inputs(),
        }
    }

    /// The number of inputs.
    fn inputs(&self) -> u32
        ensures { result ≡ self.now.polarity.n }
    {
        self.polarity.n
    }

    /// The parts of a place by an input that comes no later than the one it tests.
    fn parts(&self, a: usize, input: u32) -> (usize, usize)
        requires place { IsPlace self.now.nodes.keys a }
        requires below { input < self.now.polarity.n }
        requires first { input ≤ top self.now.polarity.n self.now.nodes.keys a }
        ensures { IsPart self.now.polarity self.now.nodes.keys a input result.0 result.1 }
    {
        match self.get(a) {
            Some(node) if node.input == input => (node.low, node.high),
            _ => (a, 0),
        }
    }

    /// The parts of two places by the first input that one of them tests.
    pub(crate) fn split(&self, a: usize, b: usize) -> Split
        requires a { IsPlace self.now.nodes.keys a }
        requires b { IsPlace self.now.nodes.keys b }
        requires some { 0 < a }
        requires other { 0 < b }
        requires differ { a ≢ b }
        ensures { IsSplit self.now.polarity self.now.nodes.keys a b result.input result.a_low result.a_high result.b_low result.b_high }
    {
        let input = self.input(a).min(self.input(b));
        let (a_low, a_high) = self.parts(a, input);
        let (b_low, b_high) = self.parts(b, input);
        Split {
            input,
            a_low,
            a_high,
            b_low,
            b_high,
        }
    }

    /// Remembers an EXOR. Where there is no memory for it nothing changes.
    pub(crate) fn remember_sum(&mut self, left: usize, right: usize, answer: usize)
        requires { IsAnswer differ self.old.polarity self.old.nodes.keys left right answer }
        ensures nodes { self.new.nodes.keys ≡ self.old.nodes.keys }
        ensures polarity { self.new.polarity ≡ self.old.polarity }
        ensures answer { IsAnswer differ self.new.polarity self.new.nodes.keys left right answer }
    {
        let question = Question { left, right };
        let _ = self.sums.insert(question, answer);
    }

    /// A remembered EXOR.
    pub(crate) fn recall_sum(&self, left: usize, right: usize) -> Option<usize>
        ensures { IfSome result (IsAnswer differ self.now.polarity self.now.nodes.keys left right) }
    {
        self.sums.get(&Question { left, right }).copied()
    }

    /// Remembers a product. Where there is no memory for it nothing changes.
    pub(crate) fn remember_product(&mut self, left: usize, right: usize, answer: usize)
        requires { IsAnswer product self.old.polarity self.old.nodes.keys left right answer }
        ensures nodes { self.new.nodes.keys ≡ self.old.nodes.keys }
        ensures polarity { self.new.polarity ≡ self.old.polarity }
        ensures answer { IsAnswer product self.new.polarity self.new.nodes.keys left right answer }
    {
        let question = Question { left, right };
        let _ = self.products.insert(question, answer);
    }

    /// A remembered product.
    pub(crate) fn recall_product(&self, left: usize, right: usize) -> Option<usize>
        ensures { IfSome result (IsAnswer product self.now.polarity self.now.nodes.keys left right) }
    {
        self.products.get(&Question { left, right }).copied()
    }
}

/// The number of a node in a set, where it is put if it is not there.
fn put(nodes: &mut IndexSet<Node>, node: Node) -> Result<usize, Memory>
    ensures added { IsAdded nodes.old.keys node nodes.new.keys }
    ensures at { IfOk result (λ k. slice_get nodes.new.keys k ≡ Some node) }
{
    match nodes.insert_full(node) {
        Ok((place, _)) => Ok(place),
        Err(_) => Err(Memory),
    }
}
