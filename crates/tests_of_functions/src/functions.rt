//! The calls of `net_fn`: the functions of a network's ports and signals, under a fault or none, and those of the outputs of a source with don't cares and of a cover.
ghost use Rattle.std.specs.Prelude.{◌≡◌, ◌≤◌, IfOk, length};
ghost use Rattle.fn_store.specs.Functions.{IsLive, Keeps};
ghost use Rattle.net_fn.specs.Refs.{AreLive};

use crate::expanded::{FEW, has_terms};
use ae_base::Memory;
use ae_cover::Cover;
use ae_net::{Fault, Net, Place, faults};
use blif_read::BlifErr;
use expansion::{ExpandErr, Expansion, expand};
use fn_store::{FnRef, FnStore, TermLists};
use net_fn::{cover_values, faulty_values, net_values, port_values, signal_values, source_values};
use pla_read::PlaErr;
use std::alloc::Global;
use std::test::Fail;
use test_support::{DONT_CARES, HALF_ADDER, are_sets, cover_of, net_of, polarity, set, source_of};

/// The terms of a function's expansion, each as the inputs whose literals it has.
type Terms = &'static [&'static [u32]];

/// The product of the literals of these inputs.
fn product<S: FnStore>(store: &mut S, inputs: &[u32]) -> Result<FnRef, Memory>
    ensures live { IfOk result (IsLive (S.functions store.new)) }
    ensures keeps { Keeps (S.functions store.old) (S.functions store.new) }
{
    let n = store.polarity().n;
    let mut all = store.one();
    for j in inputs {
        if *j < n {
            let literal = store.literal(*j)?;
            all = store.and(all, literal)?;
        }
    }
    Ok(all)
}

/// The EXOR of the products of these terms.
fn sum<S: FnStore>(store: &mut S, terms: Terms) -> Result<FnRef, Memory>
    ensures live { IfOk result (IsLive (S.functions store.new)) }
    ensures keeps { Keeps (S.functions store.old) (S.functions store.new) }
{
    let mut sum = store.zero();
    for term in terms {
        let product = product(store, term)?;
        sum = store.xor(sum, product)?;
    }
    Ok(sum)
}

/// Whether the function has these terms and no others, and is the same as the EXOR of their products.
fn is_function<S: FnStore>(store: &mut S, f: FnRef, wanted: Terms) -> Result<bool, Memory>
    requires { IsLive (S.functions store.old) f }
    ensures { Keeps (S.functions store.old) (S.functions store.new) }
{
    let listed = has_terms(store, f, wanted)?;
    let made = sum(store, wanted)?;
    Ok(listed && store.same(f, made))
}

/// Whether the functions have these terms, in order.
fn are_functions<S: FnStore>(
    store: &mut S,
    refs: &[FnRef],
    wanted: &[Terms],
) -> Result<bool, Memory>
    requires { AreLive (S.functions store.old) refs.now }
{
    for (f, terms) in refs.iter().zip(wanted.iter()) {
        if !is_function(store, *f, terms)? {
            return Ok(false);
        }
    }
    Ok(refs.len() == wanted.len())
}

/// A store of the network's number of inputs, with the literals of these inputs plain.
fn store_for(alloc: Global, net: &Net, plain: &[u32]) -> Result<TermLists, Memory>
    ensures { IfOk result (λ store. (⟦<TermLists as FnStore>⟧.functions store).polarity.n ≡ length net.now.inputs) }
{
    let n = net.inputs().len() as u32;
    if n > FEW {
        return Err(Memory);
    }
    TermLists::new(alloc, polarity(n, set(plain)))
}

/// Whether the network's ports show these functions under the fault, or under none.
fn are_ports(
    alloc: Global,
    net: &Net,
    plain: &[u32],
    fault: Option<Fault>,
    wanted: &[Terms],
) -> Result<bool, Memory> {
    let mut store = store_for(alloc, net, plain)?;
    let refs = net_values(alloc, &mut store, net, fault)?;
    are_functions(&mut store, &refs, wanted)
}

/// Whether the network's ports show these functions under the fault, where they are made of the signals' functions without it.
fn are_faulty_ports(
    alloc: Global,
    net: &Net,
    plain: &[u32],
    fault: Fault,
    wanted: &[Terms],
) -> Result<bool, Memory> {
    let mut store = store_for(alloc, net, plain)?;
    let good = signal_values(alloc, &mut store, net, None)?;
    let refs = faulty_values(alloc, &mut store, net, fault, &good)?;
    are_functions(&mut store, &refs, wanted)
}

/// Whether the network's signals have these functions under the fault, or under none.
fn are_signals(
    alloc: Global,
    net: &Net,
    plain: &[u32],
    fault: Option<Fault>,
    wanted: &[Terms],
) -> Result<bool, Memory> {
    let mut store = store_for(alloc, net, plain)?;
    let refs = signal_values(alloc, &mut store, net, fault)?;
    are_functions(&mut store, &refs, wanted)
}

/// The cascade of the AND of two inputs, whose control is the third.
static CASCADE: &[u8] =
    b".model m\n.inputs a b c\n.outputs f\n.names a b t\n11 1\n.names c t f\n10 1\n01 1\n";

/// The function of its port under each of its faults, in the order of faults: at each place held at 0 and then at 1.
static UNDER_FAULTS: [&[Terms]; 20] = [
    // the stems of a, b, c, t and f
    &[&[&[2]]],
    &[&[&[1], &[2]]],
    &[&[&[2]]],
    &[&[&[0], &[2]]],
    &[&[&[0, 1]]],
    &[&[&[], &[0, 1]]],
    &[&[&[2]]],
    &[&[&[], &[2]]],
    &[&[]],
    &[&[&[]]],
    // the pins of t, for a and for b
    &[&[&[2]]],
    &[&[&[1], &[2]]],
    &[&[&[2]]],
    &[&[&[0], &[2]]],
    // the pins of f, for c and for t
    &[&[&[0, 1]]],
    &[&[&[], &[0, 1]]],
    &[&[&[2]]],
    &[&[&[], &[2]]],
    // the port
    &[&[]],
    &[&[&[]]],
];

/// The place of the first fault under which the port shows another function, or the number of faults.
fn first_other_fault(alloc: Global) -> Result<usize, BlifErr> {
    let net = net_of(alloc, CASCADE)?;
    let list = faults(alloc, &net)?;
    for (i, (fault, functions)) in list.iter().zip(UNDER_FAULTS.iter()).enumerate() {
        if !(are_ports(alloc, &net, &[0, 1, 2], Some(*fault), functions)?
            && are_faulty_ports(alloc, &net, &[0, 1, 2], *fault, functions)?)
        {
            return Ok(i);
        }
    }
    Ok(list.len())
}

#[test]
fn a_two_input_and_under_every_fault(rt: HostRuntime) -> Result<(), Fail> {
    let other = first_other_fault(rt.alloc())?;
    assert_eq!(rt; other, UNDER_FAULTS.len());
    Ok(())
}

/// Functions of two literals `x` and `y`, by their terms.
const ZERO: Terms = &[];

const ONE: Terms = &[&[]];

const X: Terms = &[&[0]];

const Y: Terms = &[&[1]];

const NOT_X: Terms = &[&[], &[0]];

const NOT_Y: Terms = &[&[], &[1]];

const AND: Terms = &[&[0, 1]];

const NAND: Terms = &[&[], &[0, 1]];

const OR: Terms = &[&[0], &[1], &[0, 1]];

const NOR: Terms = &[&[], &[0], &[1], &[0, 1]];

const EXOR: Terms = &[&[0], &[1]];

const EXNOR: Terms = &[&[], &[0], &[1]];

const Y_AND_NOT_X: Terms = &[&[1], &[0, 1]];

const Y_OR_NOT_X: Terms = &[&[], &[0], &[0, 1]];

const X_OR_NOT_Y: Terms = &[&[], &[1], &[0, 1]];

/// The inputs whose literals are plain, the place that is stuck at a value or none, and the functions then.
struct Shown {
    plain: &'static [u32],
    stuck: Option<(Place, bool)>,
    signals: [Terms; 6],
    ports: [Terms; 2],
}

/// The inputs of the half adder, their OR and their NAND, and the sum and the carry, which the ports show. First both literals are plain,
/// then both complemented, then the first; after that both are plain, and there is a fault. Two gates read each input, and two read the
/// NAND: a fault at a pin is seen by its gate alone.
static HALF_ADDERS: [Shown; 11] = [
    Shown {
        plain: &[0, 1],
        stuck: None,
        signals: [X, Y, OR, NAND, EXOR, AND],
        ports: [EXOR, AND],
    },
    Shown {
        plain: &[],
        stuck: None,
        signals: [NOT_X, NOT_Y, NAND, OR, EXOR, NOR],
        ports: [EXOR, NOR],
    },
    Shown {
        plain: &[1],
        stuck: None,
        signals: [NOT_X, Y, Y_OR_NOT_X, X_OR_NOT_Y, EXNOR, Y_AND_NOT_X],
        ports: [EXNOR, Y_AND_NOT_X],
    },
    Shown {
        plain: &[0, 1],
        stuck: Some((Place::Stem(0), true)),
        signals: [ONE, Y, ONE, NOT_Y, NOT_Y, Y],
        ports: [NOT_Y, Y],
    },
    Shown {
        plain: &[0, 1],
        stuck: Some((Place::Stem(3), true)),
        signals: [X, Y, OR, ONE, OR, ZERO],
        ports: [OR, ZERO],
    },
    Shown {
        plain: &[0, 1],
        stuck: Some((Place::Stem(4), false)),
        signals: [X, Y, OR, NAND, ZERO, AND],
        ports: [ZERO, AND],
    },
    Shown {
        plain: &[0, 1],
        stuck: Some((Place::Pin(0, 0), false)),
        signals: [X, Y, Y, NAND, Y_AND_NOT_X, AND],
        ports: [Y_AND_NOT_X, AND],
    },
    Shown {
        plain: &[0, 1],
        stuck: Some((Place::Pin(2, 1), true)),
        signals: [X, Y, OR, NAND, OR, AND],
        ports: [OR, AND],
    },
    Shown {
        plain: &[0, 1],
        stuck: Some((Place::Pin(3, 0), false)),
        signals: [X, Y, OR, NAND, EXOR, ONE],
        ports: [EXOR, ONE],
    },
    Shown {
        plain: &[0, 1],
        stuck: Some((Place::Port(0), true)),
        signals: [X, Y, OR, NAND, EXOR, AND],
        ports: [ONE, AND],
    },
    Shown {
        plain: &[0, 1],
        stuck: Some((Place::Port(1), false)),
        signals: [X, Y, OR, NAND, EXOR, AND],
        ports: [EXOR, ZERO],
    },
];

/// Whether the network's signals and ports have the row's functions.
fn are_shown(alloc: Global, net: &Net, row: &Shown) -> Result<bool, Memory> {
    let fault = match row.stuck {
        Some((place, value)) => Some(Fault { place, value }),
        None => None,
    };
    Ok(
        are_signals(alloc, net, row.plain, fault, &row.signals)?
            && are_ports(alloc, net, row.plain, fault, &row.ports)?,
    )
}

/// Whether the ports have the row's functions, made of those without the fault, where the row has a fault.
fn are_shown_anew(alloc: Global, net: &Net, row: &Shown) -> Result<bool, Memory> {
    match row.stuck {
        Some((place, value)) => are_faulty_ports(
            alloc,
            net,
            row.plain,
            Fault { place, value },
            &row.ports,
        ),
        None => Ok(true),
    }
}

/// The place of the first row with other functions of the half adder, where there is one.
fn first_other_shown(alloc: Global) -> Result<Option<usize>, BlifErr> {
    let net = net_of(alloc, HALF_ADDER)?;
    for (i, row) in HALF_ADDERS.iter().enumerate() {
        if !(are_shown(alloc, &net, row)? && are_shown_anew(alloc, &net, row)?) {
            return Ok(Some(i));
        }
    }
    Ok(None)
}

#[test]
fn signals_and_ports_of_a_half_adder(rt: HostRuntime) -> Result<(), Fail> {
    let other = first_other_shown(rt.alloc())?;
    assert_eq!(rt; other, None);
    Ok(())
}

/// Whether the port of the sum has the reference that it has without the fault, and that of the carry another.
fn is_sum_taken_over(alloc: Global, net: &Net, fault: Fault) -> Result<bool, Memory> {
    let mut store = store_for(alloc, net, &[0, 1])?;
    let good = signal_values(alloc, &mut store, net, None)?;
    let ports = port_values(alloc, &store, net, None, &good)?;
    let refs = faulty_values(alloc, &mut store, net, fault, &good)?;
    match (ports.as_slice(), refs.as_slice()) {
        ([sum, carry], [taken, made]) => Ok(sum == taken && carry != made),
        _ => Ok(false),
    }
}

/// Whether a fault at the pin of the half adder's carry leaves the sum as it is.
fn leaves_the_sum(alloc: Global) -> Result<bool, BlifErr> {
    let net = net_of(alloc, HALF_ADDER)?;
    let fault = Fault {
        place: Place::Pin(3, 0),
        value: false,
    };
    Ok(is_sum_taken_over(alloc, &net, fault)?)
}

#[test]
fn a_function_that_the_fault_does_not_reach(rt: HostRuntime) -> Result<(), Fail> {
    assert!(rt; leaves_the_sum(rt.alloc())?);
    Ok(())
}

/// Whether the expansions are those of the sum and the carry.
fn are_sum_and_carry(e: &Expansion) -> bool {
    match e.lists() {
        [sum, carry] => {
            are_sets(sum.as_slice(), &[&[0], &[1]]) && are_sets(carry.as_slice(), &[&[0, 1]])
        }
        _ => false,
    }
}

/// The expansions of the half adder's ports, where their terms are within the limit.
fn expanded(alloc: Global, net: &Net, limit: u64) -> Result<Expansion, ExpandErr>
    requires { limit ≤ FEW }
{
    let mut store = store_for(alloc, net, &[0, 1])?;
    let refs = net_values(alloc, &mut store, net, None)?;
    if refs.len() != 2 {
        return Err(ExpandErr::Memory);
    }
    expand(alloc, &store, &refs, limit)
}

/// Whether the terms of the half adder's ports pass the limit first at this port, or are within it.
fn pass_at(alloc: Global, net: &Net, limit: u64, port: Option<u32>) -> Result<bool, Memory>
    requires { limit ≤ FEW }
{
    match expanded(alloc, net, limit) {
        Ok(e) => Ok(port == None && are_sum_and_carry(&e)),
        Err(ExpandErr::TooManyTerms { output }) => Ok(port == Some(output)),
        Err(ExpandErr::Memory) => Err(Memory),
    }
}

/// Whether the sum has two terms and the carry one.
fn has_three_terms(alloc: Global) -> Result<bool, BlifErr> {
    let net = net_of(alloc, HALF_ADDER)?;
    let one = pass_at(alloc, &net, 1, Some(0))?;
    let two = pass_at(alloc, &net, 2, Some(1))?;
    let three = pass_at(alloc, &net, 3, None)?;
    Ok(one && two && three)
}

#[test]
fn expansions_of_a_half_adder(rt: HostRuntime) -> Result<(), Fail> {
    let three = has_three_terms(rt.alloc())?;
    assert!(rt; three);
    Ok(())
}

/// Whether the OR that is free where both inputs are 1 is taken as their EXOR, and the other output as it is.
fn are_specified(alloc: Global) -> Result<bool, BlifErr> {
    let source = source_of(alloc, DONT_CARES)?;
    let mut store = store_for(alloc, source.net(), &[0, 1])?;
    let refs = source_values(alloc, &mut store, &source)?;
    Ok(are_functions(&mut store, &refs, &[&[&[0], &[1]], &[&[0]]])?)
}

#[test]
fn outputs_with_dont_cares(rt: HostRuntime) -> Result<(), Fail> {
    let same = are_specified(rt.alloc())?;
    assert!(rt; same);
    Ok(())
}

/// Marks of each kind: the outputs are 1 where a row with `1` or `4` holds.
static COVER: &[u8] = b".i 3\n.o 4\n.type f\n11- 1-0~\n--1 14--\n0-0 0101\n";

/// The inputs whose literals are plain, and the functions of the cover's outputs then.
struct Covered {
    plain: &'static [u32],
    functions: [Terms; 4],
}

static COVERED: [Covered; 2] = [
    Covered {
        plain: &[0, 1, 2],
        functions: [
            &[&[2], &[0, 1], &[0, 1, 2]],
            &[&[], &[0], &[0, 2]],
            &[],
            &[&[], &[0], &[2], &[0, 2]],
        ],
    },
    Covered {
        plain: &[0, 1],
        functions: [
            &[&[], &[2], &[0, 1, 2]],
            &[&[], &[0, 2]],
            &[],
            &[&[2], &[0, 2]],
        ],
    },
];

/// Whether the cover's outputs have the row's functions.
fn are_outputs(alloc: Global, cover: &Cover, row: &Covered) -> Result<bool, Memory> {
    let n = cover.inputs().len() as u32;
    if n > FEW {
        return Ok(false);
    }
    let mut store = TermLists::new(alloc, polarity(n, set(row.plain)))?;
    let refs = cover_values(alloc, &mut store, cover)?;
    are_functions(&mut store, &refs, &row.functions)
}

/// The place of the first polarity with other functions of the cover's outputs, where there is one.
fn first_other_outputs(alloc: Global) -> Result<Option<usize>, PlaErr> {
    let cover = cover_of(alloc, COVER)?;
    for (i, row) in COVERED.iter().enumerate() {
        if !are_outputs(alloc, &cover, row)? {
            return Ok(Some(i));
        }
    }
    Ok(None)
}

#[test]
fn outputs_of_a_cover(rt: HostRuntime) -> Result<(), Fail> {
    let other = first_other_outputs(rt.alloc())?;
    assert_eq!(rt; other, None);
    Ok(())
}
