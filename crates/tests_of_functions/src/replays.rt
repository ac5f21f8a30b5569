//! Lists of operations on functions, carried out in each store, and the expansions of their results.
ghost use Rattle.std.specs.Prelude.{◌≡◌, ◌<◌, true};
ghost use Rattle.fn_store.specs.Functions.{IsLive};
ghost use Rattle.fn_store.specs.Replay.{AreOps, IsOp};
ghost use Rattle.net_fn.specs.Refs.{AreLive};

use crate::expanded::FEW;
use ae_base::{Memory, Polarity, Seq, Term};
use davio_dd::Davio;
use fn_store::{FnRef, FnStore, Op, TermLists, replay};
use std::alloc::Global;
use std::test::Fail;
use test_support::{are_sets, polarity, set};

/// The most operations in a list of these tests.
const FEW_OPS: usize = 64;

/// Whether an operation is on inputs below `n` and on places below `at`.
fn is_op(n: u32, at: u32, op: Op) -> bool
    ensures { result ≡ true → IsOp n at op }
{
    match op {
        Op::Literal(j) => j < n,
        Op::Xor(a, b) | Op::And(a, b) => a < at && b < at,
        Op::Not(a) => a < at,
    }
}

/// Whether a list is short, and each of its operations is on inputs below `n` and on places of something earlier.
fn are_ops(n: u32, list: &[Op]) -> bool
    ensures { result ≡ true → AreOps n list.now }
{
    if list.len() > FEW_OPS {
        return false;
    }
    for (k, op) in list.iter().enumerate() {
        if !is_op(n, k as u32 + 2, *op) {
            return false;
        }
    }
    true
}

/// The terms of a function of at most six inputs.
fn terms<S: FnStore>(store: &S, f: FnRef) -> Result<Seq<Term>, Memory>
    requires { IsLive (S.functions store.now) f }
{
    match store.terms_upto(f, 64) {
        Ok(terms) => Ok(Seq::from_vec(terms)),
        Err(_) => Err(Memory),
    }
}

/// The terms of each of the functions.
fn terms_of_each<S: FnStore>(
    alloc: Global,
    store: &S,
    refs: &[FnRef],
) -> Result<Vec<Seq<Term>>, Memory>
    requires { AreLive (S.functions store.now) refs.now }
{
    let mut lists = Vec::new(alloc);
    for f in refs {
        lists.push(terms(store, *f)?)?;
    }
    Ok(lists)
}

/// The terms of the result of each operation.
fn replayed<S: FnStore>(
    alloc: Global,
    store: &mut S,
    list: &[Op],
) -> Result<Vec<Seq<Term>>, Memory> {
    if !are_ops(store.polarity().n, list) {
        return Err(Memory);
    }
    let refs = replay(alloc, store, list)?;
    terms_of_each(alloc, store, &refs)
}

/// The same in a store of lists of terms.
fn in_term_lists(alloc: Global, p: Polarity, list: &[Op]) -> Result<Vec<Seq<Term>>, Memory> {
    let mut store = TermLists::new(alloc, p)?;
    replayed(alloc, &mut store, list)
}

/// The same in a diagram.
fn in_diagram(alloc: Global, p: Polarity, list: &[Op]) -> Result<Vec<Seq<Term>>, Memory> {
    let mut store = Davio::new(alloc, p)?;
    replayed(alloc, &mut store, list)
}

/// Two literals, their product and the product in the other order, the EXOR of the two products, and the first literal's complement.
static LISTED: [Op; 6] = [
    Op::Literal(0),
    Op::Literal(1),
    Op::And(2, 3),
    Op::And(3, 2),
    Op::Xor(4, 5),
    Op::Not(2),
];

/// The terms of their results.
static LISTED_TERMS: [&[&[u32]]; 6] = [&[&[0]], &[&[1]], &[&[0, 1]], &[&[0, 1]], &[], &[&[], &[0]]];

/// Whether the lists of terms are those of `LISTED`.
fn are_listed(found: &[Seq<Term>]) -> bool {
    for (terms, wanted) in found.iter().zip(LISTED_TERMS.iter()) {
        if !are_sets(terms.as_slice(), wanted) {
            return false;
        }
    }
    found.len() == LISTED_TERMS.len()
}

#[test]
fn a_list_in_term_lists(rt: HostRuntime) -> Result<(), Fail> {
    let found = in_term_lists(rt.alloc(), Polarity::all_plain(2), &LISTED)?;
    assert!(rt; are_listed(&found));
    Ok(())
}

#[test]
fn a_list_in_a_diagram(rt: HostRuntime) -> Result<(), Fail> {
    let found = in_diagram(rt.alloc(), Polarity::all_plain(2), &LISTED)?;
    assert!(rt; are_listed(&found));
    Ok(())
}

/// Numbers by a linear congruential generator.
#[derive(Drop)]
struct Numbers {
    state: u32,
}

impl Numbers {
    /// The next number, from the upper half of the state.
    fn below(&mut self, bound: u32) -> u32
        requires { 0 < bound }
    {
        self.state = self
            .state
            .wrapping_mul(1_664_525)
            .wrapping_add(1_013_904_223);
        self.state / 65_536 % bound
    }
}

/// An operation on inputs below `n` and on places below `at`.
fn draw(numbers: &mut Numbers, n: u32, at: u32) -> Op
    requires inputs { 0 < n }
    requires places { 0 < at }
{
    match numbers.below(7) {
        0 | 1 | 2 => Op::Xor(numbers.below(at), numbers.below(at)),
        3 | 4 => Op::And(numbers.below(at), numbers.below(at)),
        5 => Op::Not(numbers.below(at)),
        _ => Op::Literal(numbers.below(n)),
    }
}

/// The inputs of a list, the inputs whose literals are plain, and the first state of the numbers.
struct Drawn {
    n: u32,
    plain: &'static [u32],
    state: u32,
}

/// The literal of each input, and then operations that are drawn.
fn list_of(alloc: Global, row: &Drawn) -> Result<Vec<Op>, Memory> {
    let mut numbers = Numbers { state: row.state };
    let mut list = Vec::new(alloc);
    for k in 0..FEW_OPS as u32 {
        let op = if k < row.n {
            Op::Literal(k)
        } else {
            draw(&mut numbers, row.n.max(1), k + 2)
        };
        list.push(op)?;
    }
    Ok(list)
}

/// Whether the lists of terms are equal.
fn are_equal(found: &[Seq<Term>], others: &[Seq<Term>]) -> bool {
    for (terms, other) in found.iter().zip(others.iter()) {
        if terms.as_slice() != other.as_slice() {
            return false;
        }
    }
    found.len() == others.len()
}

/// Whether both stores give the same terms for each operation of the row's list.
fn agree(alloc: Global, row: &Drawn) -> Result<bool, Memory> {
    if row.n > FEW {
        return Err(Memory);
    }
    let p = polarity(row.n, set(row.plain));
    let list = list_of(alloc, row)?;
    let found = in_term_lists(alloc, p, &list)?;
    let others = in_diagram(alloc, p, &list)?;
    Ok(are_equal(&found, &others))
}

static DRAWN: [Drawn; 6] = [
    Drawn {
        n: 1,
        plain: &[],
        state: 1,
    },
    Drawn {
        n: 3,
        plain: &[0, 1, 2],
        state: 2,
    },
    Drawn {
        n: 4,
        plain: &[1, 3],
        state: 3,
    },
    Drawn {
        n: 6,
        plain: &[0, 1, 2, 3, 4, 5],
        state: 4,
    },
    Drawn {
        n: 6,
        plain: &[0, 4],
        state: 5,
    },
    Drawn {
        n: 6,
        plain: &[],
        state: 6,
    },
];

/// The place of the first row for whose list the stores give other terms, where there is one.
fn first_other(alloc: Global) -> Result<Option<usize>, Memory> {
    for (i, row) in DRAWN.iter().enumerate() {
        if !agree(alloc, row)? {
            return Ok(Some(i));
        }
    }
    Ok(None)
}

#[test]
fn drawn_lists(rt: HostRuntime) -> Result<(), Fail> {
    let other = first_other(rt.alloc())?;
    assert_eq!(rt; other, None);
    Ok(())
}
