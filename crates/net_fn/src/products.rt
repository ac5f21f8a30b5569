//! Products of functions of a store.
ghost use Rattle.std.specs.Prelude.{◌≡◌, ◌<◌, ◌≤◌, ◌&&◌, ◌||◌, ℕ, Bool, length, All, IfOk};
ghost use Rattle.ae_base.specs.Mask.{Set, has};
ghost use Rattle.ae_base.specs.Cube.{IsOver, holds};
ghost use Rattle.fn_store.specs.Cubes.{some_holds};
ghost use Rattle.fn_store.specs.Functions.{IsLive, Shows, Keeps};
ghost use Rattle.net_fn.specs.Literals.{agrees};
ghost use Rattle.net_fn.specs.Refs.{AreLive, ShowEach, ones_at};

use ae_base::{Cube, Memory, WIDTH};
use fn_store::{FnRef, FnStore};
use std::alloc::Global;

/// The function of an input: its literal, or the complement of its literal.
pub fn input<S: FnStore>(store: &mut S, j: u32) -> Result<FnRef, Memory>
    requires { j < (S.functions store.old).polarity.n }
    ensures shows { IfOk result (λ r. Shows (S.functions store.new) r (λ x. has x j)) }
    ensures keeps { Keeps (S.functions store.old) (S.functions store.new) }
{
    let polarity = store.polarity();
    let literal = store.literal(j)?;
    if polarity.plain.has(j) {
        Ok(literal)
    } else {
        store.not(literal)
    }
}

/// The product of a function and of the literals of a product: its plain literals name references, and its complemented ones their
/// complements.
fn times_product<S: FnStore>(
    store: &mut S,
    first: FnRef,
    product: Cube,
    refs: &[FnRef],
) -> Result<FnRef, Memory>
    requires first { IsLive (S.functions store.old) first }
    requires live { AreLive (S.functions store.old) refs.now }
    requires few { length refs.now ≤ WIDTH }
    requires over { IsOver (length refs.now) product }
    ensures shows { IfOk result (λ r. (f : Set → Bool) (fs : ℕ → Set → Bool) → Shows (S.functions store.old) first f → ShowEach (S.functions store.old) refs.now fs
        → Shows (S.functions store.new) r (λ x. f x && holds product (ones_at (length refs.now) fs x))) }
    ensures live { IfOk result (IsLive (S.functions store.new)) }
    ensures keeps { Keeps (S.functions store.old) (S.functions store.new) }
{
    let mut all = first;
    for (k, r) in refs.iter().enumerate() {
        all = times(store, all, product, k as u32, *r)?;
    }
    Ok(all)
}

/// The product with the literals of number `k` of a reference.
fn times<S: FnStore>(
    store: &mut S,
    all: FnRef,
    product: Cube,
    k: u32,
    r: FnRef,
) -> Result<FnRef, Memory>
    requires all { IsLive (S.functions store.old) all }
    requires r { IsLive (S.functions store.old) r }
    ensures shows { IfOk result (λ t. (f g : Set → Bool) → Shows (S.functions store.old) all f → Shows (S.functions store.old) r g
        → Shows (S.functions store.new) t (λ x. f x && agrees product k (g x))) }
    ensures live { IfOk result (IsLive (S.functions store.new)) }
    ensures keeps { Keeps (S.functions store.old) (S.functions store.new) }
{
    if product.pos.has(k) {
        store.and(all, r)
    } else if product.neg.has(k) {
        let complement = store.not(r)?;
        store.and(all, complement)
    } else {
        Ok(all)
    }
}

/// The function that is 1 where some of the products holds of the references' values, product by product.
pub(crate) fn product_by_product<S: FnStore>(
    store: &mut S,
    products: &[Cube],
    refs: &[FnRef],
) -> Result<FnRef, Memory>
    requires live { AreLive (S.functions store.old) refs.now }
    requires few { length refs.now ≤ WIDTH }
    requires over { All (IsOver (length refs.now)) products.now }
    ensures shows { IfOk result (λ r. (fs : ℕ → Set → Bool) → ShowEach (S.functions store.old) refs.now fs
        → Shows (S.functions store.new) r (λ x. some_holds products.now (ones_at (length refs.now) fs x))) }
    ensures live { IfOk result (IsLive (S.functions store.new)) }
    ensures keeps { Keeps (S.functions store.old) (S.functions store.new) }
{
    let mut some = store.zero();
    for product in products {
        some = or_product(store, some, *product, refs)?;
    }
    Ok(some)
}

/// The OR of a function and of a product of the references, as their EXOR where the product is taken of what is left: each of its
/// literals keeps that small, which the AND of both would not.
fn or_product<S: FnStore>(
    store: &mut S,
    some: FnRef,
    product: Cube,
    refs: &[FnRef],
) -> Result<FnRef, Memory>
    requires some { IsLive (S.functions store.old) some }
    requires live { AreLive (S.functions store.old) refs.now }
    requires few { length refs.now ≤ WIDTH }
    requires over { IsOver (length refs.now) product }
    ensures shows { IfOk result (λ r. (f : Set → Bool) (fs : ℕ → Set → Bool) → Shows (S.functions store.old) some f → ShowEach (S.functions store.old) refs.now fs
        → Shows (S.functions store.new) r (λ x. f x || holds product (ones_at (length refs.now) fs x))) }
    ensures live { IfOk result (IsLive (S.functions store.new)) }
    ensures keeps { Keeps (S.functions store.old) (S.functions store.new) }
{
    let rest = store.not(some)?;
    let also = times_product(store, rest, product, refs)?;
    store.xor(some, also)
}

/// The functions of all inputs.
pub(crate) fn all_inputs<S: FnStore>(alloc: Global, store: &mut S) -> Result<Vec<FnRef>, Memory>
    ensures count { IfOk result (λ refs. length refs.items ≡ (S.functions store.old).polarity.n) }
    ensures few { IfOk result (λ refs. length refs.items ≤ WIDTH) }
    ensures shows { IfOk result (λ refs. ShowEach (S.functions store.new) refs.items (λ j x. has x j)) }
    ensures keeps { Keeps (S.functions store.old) (S.functions store.new) }
{
    let mut refs = Vec::new(alloc);
    for j in 0..store.polarity().n {
        refs.push(input(store, j)?)?;
    }
    Ok(refs)
}
