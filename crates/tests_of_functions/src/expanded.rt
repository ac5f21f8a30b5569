//! Functions of tests, by products of literals, and their expansions.
ghost use Rattle.std.specs.Prelude.{◌≡◌, ◌≤◌, IfOk, All, length};
ghost use Rattle.ae_base.specs.Cube.{IsOver};
ghost use Rattle.expansion.specs.Terms.{cost};
ghost use Rattle.fn_store.specs.Functions.{IsLive};

use ae_base::{Cube, Mask, Memory, Polarity};
use expansion::{Expansion, expand};
use fn_store::{FnRef, FnStore, TermLists, TermsErr};
use net_fn::some_cube;
use std::alloc::Global;
use test_support::{Literals, are_sets, polarity, set};

/// The most inputs of an expansion of these tests.
pub const FEW: u32 = 8;

/// The most terms of one.
const FEW_TERMS: u64 = 256;

/// A function of `n` inputs, which is 1 where some product is, and the inputs whose literals are plain in its expansion.
pub struct Function {
    pub n: u32,
    pub products: &'static [Literals],
    pub plain: &'static [u32],
}

/// The AND of two inputs.
pub const AND: Function = Function {
    n: 2,
    products: &[(&[0, 1], &[])],
    plain: &[0, 1],
};

/// The AND of the first and the third of three inputs.
pub const AND_OF_OUTER: Function = Function {
    n: 3,
    products: &[(&[0, 2], &[])],
    plain: &[0, 1, 2],
};

/// The majority of three inputs.
pub const MAJORITY: Function = Function {
    n: 3,
    products: &[(&[0, 1], &[]), (&[0, 2], &[]), (&[1, 2], &[])],
    plain: &[0, 1, 2],
};

/// The product of those of the literals that are of the first `n` inputs. An input with both has the plain one.
fn product(n: u32, literals: &Literals) -> Cube
    requires { n ≤ FEW }
    ensures { IsOver n result }
{
    let all = Mask::first(n);
    let pos = set(literals.0).both(all);
    let neg = set(literals.1).both(all);
    Cube {
        pos,
        neg: neg.xor(neg.both(pos)),
    }
}

/// The products of literals of `n` inputs.
pub fn products(alloc: Global, n: u32, rows: &[Literals]) -> Result<Vec<Cube>, Memory>
    requires { n ≤ FEW }
    ensures { IfOk result (λ cubes. All (λ c. IsOver n c) cubes.items) }
{
    let mut cubes = Vec::new(alloc);
    for row in rows {
        cubes.push(product(n, row))?;
    }
    Ok(cubes)
}

/// The expansion of a list of cubes.
fn expansion_over(alloc: Global, p: Polarity, cubes: &[Cube]) -> Result<Expansion, Memory>
    requires over { All (λ c. IsOver p.n c) cubes.now }
    requires few { p.n ≤ FEW }
    ensures inputs { IfOk result (λ e. e.polarity.n ≡ p.n) }
    ensures outputs { IfOk result (λ e. length e.outs ≡ 1) }
    ensures cheap { IfOk result (λ e. cost e ≤ 256) }
{
    let mut store = TermLists::new(alloc, p)?;
    let function = some_cube(alloc, &mut store, cubes)?;
    match expand(alloc, &store, &[function], FEW_TERMS) {
        Ok(expansion) => Ok(expansion),
        Err(_) => Err(Memory),
    }
}

/// The expansion of the function, as the one output.
pub fn expansion_of(alloc: Global, f: &Function) -> Result<Expansion, Memory>
    ensures inputs { IfOk result (λ e. e.polarity.n ≤ FEW) }
    ensures outputs { IfOk result (λ e. length e.outs ≡ 1) }
    ensures cheap { IfOk result (λ e. cost e ≤ 256) }
{
    if f.n > FEW {
        return Err(Memory);
    }
    let cubes = products(alloc, f.n, f.products)?;
    expansion_over(alloc, polarity(f.n, set(f.plain)), &cubes)
}

/// Whether the expansion has one list, of these terms, at the polarity where these literals are plain.
pub fn is_expansion(e: &Expansion, plain: &[u32], terms: &[&'static [u32]]) -> bool {
    match e.lists() {
        [found] => e.polarity().plain == set(plain) && are_sets(found.as_slice(), terms),
        _ => false,
    }
}

/// Whether the function has these terms and no others.
pub fn has_terms<S: FnStore>(store: &S, f: FnRef, wanted: &[&'static [u32]]) -> Result<bool, Memory>
    requires { IsLive (S.functions store.now) f }
{
    match store.terms_upto(f, wanted.len() as u64) {
        Ok(terms) => Ok(are_sets(&terms, wanted)),
        Err(TermsErr::More) => Ok(false),
        Err(TermsErr::Memory) => Err(Memory),
    }
}
