//! The tests of a network and its undetectable faults, as a vector file lists them.
ghost use Rattle.std.specs.Prelude.{◌≡◌, IfOk, length};
ghost use Rattle.synth_core.specs.Steps.{AreTests};

use crate::read::Store;
use ae_base::{Memory, Point, Polarity, Seq};
use ae_net::{Net, valid_law};
use named_faults::undetectable_lines;
use std::alloc::Global;
use test_gen::{Tests, generate};
use vec_text::Idle;

/// The points of a network's tests, and the lines of its undetectable faults.
#[derive(Drop)]
pub struct Listing {
    pub points: Seq<Point>,
    pub unchanged: Seq<Idle>,
}

/// The tests of a network at a polarity of its inputs.
pub fn tests_of(alloc: Global, polarity: Polarity, net: &Net) -> Result<Listing, Memory>
    requires { polarity.n ≡ length net.now.inputs }
    ensures { IfOk result (λ tests. AreTests net.now polarity tests.points tests.unchanged) }
{
    valid_law(net);
    let mut store = Store::new(alloc, polarity)?;
    let Tests { points, unchanged } = generate(alloc, &mut store, net)?;
    let lines = undetectable_lines(alloc, net, unchanged.as_slice())?;
    Ok(Listing {
        points,
        unchanged: lines,
    })
}
