//! The function of a list of cubes, over the functions of any references.
ghost use Rattle.std.specs.Prelude.{◌≡◌, ◌<◌, ◌≤◌, ℕ, Bool, length, All, IfOk};
ghost use Rattle.std.specs.List.{list_any};
ghost use Rattle.ae_base.specs.Mask.{Set, has};
ghost use Rattle.ae_base.specs.Cube.{IsOver};
ghost use Rattle.fn_store.specs.Cubes.{some_holds};
ghost use Rattle.fn_store.specs.Functions.{IsLive, Shows, Keeps};
ghost use Rattle.net_fn.specs.Cofactor as spec;
ghost use Rattle.net_fn.specs.Refs.{AreLive, ShowEach, ones_at};

use crate::joins::choose;
use crate::products::{all_inputs, product_by_product};
use ae_base::{Cube, Mask, Memory, WIDTH};
use fn_store::{FnRef, FnStore};
use std::alloc::Global;

/// Where the numbers from the next one on are no more than this, the products are always split: there are few values of so many.
const FEW: usize = 18;

/// The most splits, as many as so few numbers have values. After them the products are taken one by one.
const SPLITS: u32 = 262_144;

/// The function that is 1 where some cube holds.
pub fn some_cube<S: FnStore>(alloc: Global, store: &mut S, cubes: &[Cube]) -> Result<FnRef, Memory>
    requires { All (IsOver (S.functions store.old).polarity.n) cubes.now }
    ensures shows { IfOk result (λ r. Shows (S.functions store.new) r (some_holds cubes.now)) }
    ensures keeps { Keeps (S.functions store.old) (S.functions store.new) }
{
    let inputs = all_inputs(alloc, store)?;
    some_product(alloc, store, cubes, &inputs)
}

/// The function that is 1 where some of the products holds of the references' values. Products are split at a reference, by its value,
/// as long as that shares them out.
pub fn some_product<S: FnStore>(
    alloc: Global,
    store: &mut S,
    products: &[Cube],
    refs: &[FnRef],
) -> Result<FnRef, Memory>
    requires live { AreLive (S.functions store.old) refs.now }
    requires few { length refs.now ≤ WIDTH }
    requires over { All (IsOver (length refs.now)) products.now }
    ensures shows { IfOk result (λ r. (fs : ℕ → Set → Bool) → ShowEach (S.functions store.old) refs.now fs
        → Shows (S.functions store.new) r (λ x. some_holds products.now (ones_at (length refs.now) fs x))) }
    ensures live { IfOk result (IsLive (S.functions store.new)) }
    ensures keeps { Keeps (S.functions store.old) (S.functions store.new) }
{
    let mut splits = SPLITS;
    some_from(alloc, store, products, refs, 0, &mut splits)
}

/// The same where no product has a literal of a number below `from`: at the next number that is read, the products at each of its values.
fn some_from<S: FnStore>(
    alloc: Global,
    store: &mut S,
    products: &[Cube],
    refs: &[FnRef],
    from: u32,
    splits: &mut u32,
) -> Result<FnRef, Memory>
    requires live { AreLive (S.functions store.old) refs.now }
    requires few { length refs.now ≤ WIDTH }
    requires from { from ≤ length refs.now }
    requires products { spec.AreFrom (length refs.now) from products.now }
    ensures shows { IfOk result (λ r. (fs : ℕ → Set → Bool) → ShowEach (S.functions store.old) refs.now fs
        → Shows (S.functions store.new) r (λ x. some_holds products.now (ones_at (length refs.now) fs x))) }
    ensures live { IfOk result (IsLive (S.functions store.new)) }
    ensures keeps { Keeps (S.functions store.old) (S.functions store.new) }
{
    if has_whole(products) {
        return Ok(store.one());
    }
    let Some(k) = numbers_read(products).least() else {
        return Ok(store.zero());
    };
    if *splits == 0 || is_sparse(products, k, refs.len()) {
        return product_by_product(store, products, refs);
    }
    *splits -= 1;
    let without = cofactor(alloc, products, k, false)?;
    let low = some_from(alloc, store, &without, refs, k + 1, splits)?;
    let with = cofactor(alloc, products, k, true)?;
    let high = some_from(alloc, store, &with, refs, k + 1, splits)?;
    choose(store, refs[k as usize], low, high)
}

/// Whether many numbers are left and at most a quarter of the products read this one, so that most would go to both sides of a split. It
/// is a matter of time alone.
fn is_sparse(products: &[Cube], k: u32, n: usize) -> bool {
    let readers = products
        .iter()
        .filter(|c| c.pos.has(k) || c.neg.has(k))
        .count();
    n.saturating_sub(k as usize) > FEW && readers <= products.len() / 4
}

/// Whether some cube has no literals, and so holds everywhere.
fn has_whole(cubes: &[Cube]) -> bool
    ensures { result ≡ list_any spec.is_whole cubes.now }
{
    cubes.iter().any(|c| c.pos.is_empty() && c.neg.is_empty())
}

/// The numbers of which some cube has a literal.
fn numbers_read(cubes: &[Cube]) -> Mask
    ensures { (k : ℕ) → has result k ≡ spec.is_read cubes.now k }
{
    let mut read = Mask::empty();
    for cube in cubes {
        read = read.or(cube.pos.or(cube.neg));
    }
    read
}

/// The cubes that allow the value of number `j`, without its literal.
fn cofactor(alloc: Global, cubes: &[Cube], j: u32, value: bool) -> Result<Vec<Cube>, Memory>
    requires { j < WIDTH }
    ensures { IfOk result (λ cs. cs.items ≡ spec.cofactor j value cubes.now) }
{
    let left = cubes
        .iter()
        .filter(|c| allows(**c, j, value))
        .map(|c| rest(*c, j))
        .collect(alloc)?;
    Ok(left)
}

/// Whether the cube does not exclude the value of number `j`.
fn allows(cube: Cube, j: u32, value: bool) -> bool
    ensures { result ≡ spec.allows j value cube }
{
    if value {
        !cube.neg.has(j)
    } else {
        !cube.pos.has(j)
    }
}

/// The cube without the literal of number `j`.
#[tactic(auto, using(ae_base::proofs::Sets::set_members))]
fn rest(cube: Cube, j: u32) -> Cube
    requires { j < WIDTH }
    ensures { result ≡ spec.rest j cube }
{
    Cube {
        pos: cube.pos.without(j),
        neg: cube.neg.without(j),
    }
}
