//! The maker of expansions over a store.
ghost use Rattle.std.specs.Prelude.{◌<◌, ◌^◌};

use crate::read::Store;
use ae_base::Polarity;
use expansion::{ExpandErr, Expansion, expand, expanded_law};
use fn_store::FnStore;
use net_fn::expansion_values;
use polarity::Maker;
use std::alloc::Global;

/// Expands the functions of an expansion at each polarity, through a store at it. No more terms are listed than the limit allows, which is
/// below 2 to the 61. It is what a search for a polarity asks of its proposals.
#[derive(Drop)]
pub struct StoreMaker {
    /// The functions, by their expansions at one polarity.
    pub base: Expansion,
    /// The most terms of all outputs.
    pub limit: u64,
    ghost limit_fits: { limit < 2 ^ 61 },
}

impl Maker for StoreMaker {
    ghost base = { λ m. m.base };

    ghost limit = { λ m. m.limit };

    ghost limit_fits = { λ m. m.limit_fits };

    fn at(&self, alloc: Global, p: Polarity) -> Result<Expansion, ExpandErr> {
        expanded_law();
        let mut store = Store::new(alloc, p)?;
        let refs = expansion_values(alloc, &mut store, &self.base)?;
        expand(alloc, &store, &refs, self.limit)
    }
}
