//! The advisor that walks through polarities by a generator of numbers.
ghost use Rattle.std.specs.Prelude.{◌≡◌, ◌≤◌, ◌%◌, ◌^◌, []};
ghost use Rattle.ae_base.specs.declared.limits.TheConstants.{SOURCE_LINES};
ghost use Rattle.polarity.specs.Advisors.{NextGives};
ghost use Rattle.polarity.specs.Proposals.{Moves, walk_on, walked};
ghost use Rattle.polarity.specs.Draws.{after_draws};

use crate::advisor::Advisor;
use crate::entry::Entry;
use crate::generator::Generator;
use crate::log::Log;
use ae_base::{Mask, Memory, Polarity};
use std::alloc::Global;
use std::marker::Model;

/// Proposes polarities that a generator of numbers draws.
#[derive(Drop, Debug)]
pub struct Walker {
    generator: Generator,
    left: u32,
    log: Log,
}

impl Model for Walker {
    ghost use Rattle.polarity.specs.Proposals.{Walk};

    ghost Value = { Walk };

    ghost view = { λ a. record { left = a.left; state = a.generator; log = a.log } };
}

/// A polarity of `n` inputs, by one draw for each input in order: the input is plain where the draw is 0 or 1.
#[tactic(auto, using(ae_base::proofs::Sets::set_members))]
fn draw_polarity(generator: &mut Generator, n: u32) -> Polarity
    requires { n ≤ SOURCE_LINES }
    ensures polarity { result ≡ walked n generator.old }
    ensures state { generator.new ≡ after_draws n generator.old }
{
    let mut plain = Mask::empty();
    for j in 0..n {
        if generator.draw() < 2 {
            plain = plain.with(j);
        }
    }
    Polarity { n, plain }
}

impl Walker {
    /// The advisor before the first of `count` proposals. It takes no memory.
    pub fn new(alloc: Global, seed: u32, count: u32) -> Walker
        ensures { result ≡ record { left = count; state = seed % 2 ^ 31; log = [] } }
    {
        Walker {
            generator: Generator::new(seed),
            left: count,
            log: Log::new(alloc),
        }
    }
}

impl Advisor for Walker {
    ghost left = { λ a. a.left };

    ghost log = { λ a. a.log };

    fn left(&self) -> u64 {
        u64::from(self.left)
    }

    fn next(&mut self, n: u32) -> Result<Option<Polarity>, Memory>
        requires { n ≤ SOURCE_LINES }
        ensures gives { NextGives n self.old.left self.old.log self.new.left self.new.log result }
        ensures moves { Moves (walked n self.old.state) (walk_on n self.old) self.old self.new result }
    {
        if self.left == 0 {
            return Ok(None);
        }
        let mut generator = self.generator;
        let polarity = draw_polarity(&mut generator, n);
        self.log.propose(polarity)?;
        self.generator = generator;
        self.left -= 1;
        Ok(Some(polarity))
    }

    fn tell(&mut self, cost: Option<u64>) {
        self.log.tell(cost);
    }

    fn log(&self) -> &[Entry] {
        self.log.entries()
    }
}
