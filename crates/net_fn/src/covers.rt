//! The functions of a cover's outputs.
ghost use Rattle.std.specs.Prelude.{◌≡◌, ◌<◌, IfOk, length};
ghost use Rattle.ae_base.specs.Source.{on_set};
ghost use Rattle.ae_cover.specs.Cover.{has_mark, is_one, some_row, source_of};
ghost use Rattle.fn_store.specs.Functions.{Shows, Keeps};
ghost use Rattle.net_fn.specs.Cofactor.{cubes_of};
ghost use Rattle.net_fn.specs.Refs.{ShowEach};

use crate::cubes::some_cube;
use ae_base::{Cube, Memory};
use ae_cover::{Cover, Mark, Row, on_law};
use fn_store::{FnRef, FnStore};
use std::alloc::Global;

/// For each output of the cover, in order, the function that is 1 exactly where some row with `One` for it holds, which is where the
/// output is On. The store has as many inputs as the cover. Where memory runs out, `Memory`; the store has kept its functions then too.
pub fn cover_values<S: FnStore>(
    alloc: Global,
    store: &mut S,
    cover: &Cover,
) -> Result<Vec<FnRef>, Memory>
    requires { (S.functions store.old).polarity.n ≡ length cover.now.inputs }
    ensures count { IfOk result (λ refs. length refs.items ≡ length cover.now.outputs) }
    ensures rows { IfOk result (λ refs. ShowEach (S.functions store.new) refs.items (some_row is_one cover.now.rows)) }
    ensures source { IfOk result (λ refs. ShowEach (S.functions store.new) refs.items (on_set (source_of cover.now))) }
    ensures keeps { Keeps (S.functions store.old) (S.functions store.new) }
{
    on_law();
    let mut refs = Vec::new(alloc);
    for output in 0..cover.outputs().len() {
        refs.push(output_value(alloc, store, cover, output)?)?;
    }
    Ok(refs)
}

/// The function of one output.
fn output_value<S: FnStore>(
    alloc: Global,
    store: &mut S,
    cover: &Cover,
    output: usize,
) -> Result<FnRef, Memory>
    requires { (S.functions store.old).polarity.n ≡ length cover.now.inputs }
    ensures shows { IfOk result (λ r. Shows (S.functions store.new) r (some_row is_one cover.now.rows output)) }
    ensures keeps { Keeps (S.functions store.old) (S.functions store.new) }
{
    let cubes = output_cubes(alloc, cover.rows(), output)?;
    some_cube(alloc, store, &cubes)
}

/// The cubes of the rows that have `One` for the output.
fn output_cubes(alloc: Global, rows: &[Row], output: usize) -> Result<Vec<Cube>, Memory>
    ensures { IfOk result (λ cubes. cubes.items ≡ cubes_of output rows.now) }
{
    let cubes = rows
        .iter()
        .filter(|row| has_one(row, output))
        .map(|row| row.cube)
        .collect(alloc)?;
    Ok(cubes)
}

/// Whether the row has `One` for the output.
fn has_one(row: &Row, output: usize) -> bool
    ensures { result ≡ has_mark is_one output row.now }
{
    match row.outs.as_slice().get(output) {
        Some(Mark::One) => true,
        _ => false,
    }
}
