//! A generator of numbers that look drawn by chance and are always the same.
ghost use Rattle.std.specs.Prelude.{◌≡◌, ◌<◌, ◌%◌, ◌^◌};
ghost use Rattle.polarity.specs.Draws.{drawn, stepped};

use std::marker::Model;

/// The states are the numbers below this, which is 2 to the 31.
const STATES: u64 = 2_147_483_648;

const MULTIPLIER: u64 = 1_103_515_245;

const INCREMENT: u64 = 12_345;

/// A draw leaves the low bits of the state out, since they repeat soon.
const LOW: u32 = 65_536;

/// A linear congruential generator. Contracts see its state, a number below 2 to the 31.
#[derive(Clone, Copy, Debug)]
pub struct Generator {
    state: u32,
}

impl Model for Generator {
    ghost use Rattle.std.specs.Prelude.{ℕ, ◌<◌, ◌^◌};

    ghost Value = { ℕ };

    ghost view = { λ g. g.state };

    ghost invariant = { λ g. g.state < 2 ^ 31 };

    ghost inverse = { λ x. record { state = x } };
}

impl Generator {
    /// The generator that begins with the seed, modulo 2 to the 31.
    pub fn new(seed: u32) -> Generator
        ensures { result ≡ seed % 2 ^ 31 }
    {
        Generator {
            state: (u64::from(seed) % STATES) as u32,
        }
    }

    /// The next draw, a number below 4.
    pub fn draw(&mut self) -> u32
        ensures state { self.new ≡ stepped self.old }
        ensures drawn { result ≡ drawn self.new }
    {
        let state = self.state;
        self.state = ((MULTIPLIER * u64::from(state) + INCREMENT) % STATES) as u32;
        self.state / LOW % 4
    }
}
