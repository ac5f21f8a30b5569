//! Expansions, and their cost.
ghost use Rattle.std.specs.Prelude.{◌≡◌, IfOk};
ghost use Rattle.expansion.specs.Terms.{cost};

use ae_base::{Memory, Polarity, Seq, Term};
use std::alloc::Global;
use std::marker::Model;

/// For each output in order the terms whose products have the output as their EXOR, at one polarity. What is asked of it is its
/// invariant, `IsTerms`: each list is in term order (`Mask::cmp_terms`) without repeats, over inputs below `polarity.n`, and there are
/// fewer than `LISTS` lists with fewer than `TERMS` terms in all.
#[derive(Drop)]
pub struct Expansion {
    pub polarity: Polarity,
    pub outs: Seq<Seq<Term>>,
}

impl Model for Expansion {
    ghost use Rattle.expansion.specs.Terms.{Terms};
    ghost use Rattle.expansion.specs.Kept.{IsTerms};

    ghost Value = { Terms };

    ghost view = { λ e. record { polarity = e.polarity; outs = e.outs } };

    ghost invariant = { λ e. IsTerms (record { polarity = e.polarity; outs = e.outs }) };
}

impl Expansion {
    ghost use Rattle.expansion.specs.Kept.{IsTerms};

    /// The lists of terms, one for each output.
    pub fn lists(&self) -> &[Seq<Term>]
        ensures lists { result.now ≡ self.now.outs }
        ensures valid { IsTerms self.now }
    {
        self.outs.as_slice()
    }

    /// For each input, whether its literal is plain.
    pub fn polarity(&self) -> Polarity
        ensures polarity { result ≡ self.now.polarity }
        ensures valid { IsTerms self.now }
    {
        self.polarity
    }

    /// The number of inputs.
    pub fn inputs(&self) -> u32
        ensures inputs { result ≡ self.now.polarity.n }
        ensures valid { IsTerms self.now }
    {
        self.polarity.n
    }

    /// The same lists at the same polarity once more. Where memory runs out, `Memory`.
    pub fn copy(&self, alloc: Global) -> Result<Expansion, Memory>
        ensures { IfOk result (λ e. e ≡ self.now) }
    {
        let mut outs = Seq::new(alloc);
        for terms in self.lists() {
            outs.push(Seq::from_vec(Vec::from_slice(alloc, terms.as_slice())?))?;
        }
        Ok(Expansion {
            polarity: self.polarity,
            outs,
        })
    }
}

/// The cost: the number of terms of all outputs. It takes no memory.
pub fn pairs(e: &Expansion) -> u64
    ensures { result ≡ cost e.now }
{
    let mut sum = 0;
    for terms in e.lists() {
        sum += terms.len() as u64;
    }
    sum
}
