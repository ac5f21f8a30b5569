//! What a network answers at a list of points, with a fault and without.
ghost use Rattle.std.specs.Prelude.{◌≡◌, ◌<◌, ◌≤◌, ◌+◌, ◌^◌, All, List, [], Option, None, IfOk, OnOk, length, map, slice_index, take};
ghost use Rattle.std.specs.List.{AllZip};
ghost use Rattle.ae_base.specs.Mask.{Set, has, where_below};
ghost use Rattle.ae_base.specs.declared.limits.TheConstants.{NET_LINES, PINS};
ghost use Rattle.ae_net.specs.declared.net.Fault.{Fault};
ghost use Rattle.ae_net.specs.Network.{signals};
ghost use Rattle.ae_net.specs.Out.{out};
ghost use Rattle.ae_net.specs.Run.{Shows};
ghost use Rattle.fault_sim.specs.declared.words.TheConstants.{LANES};
ghost use Rattle.fault_sim.specs.Answers.{IsFirstTelling};
ghost use Rattle.fault_sim.specs.Lanes.{IsPass};
ghost use Rattle.fault_sim.specs.Polynomials.{ArePolynomials};

use crate::bench::bench_for;
use crate::pass::write_good;
use crate::polynomial::{Polynomial, polynomials_of};
use crate::search::{next_points, nothing_found, try_points};
use crate::words::{Word, full, has_lane};
use ae_base::{Mask, Memory, PINS, Point};
use ae_net::{Fault, Net, Sig, one_run, valid_law};
use std::alloc::Global;

/// A network is valid, and so shows what `out` says at each point, with a fault or none. It does nothing.
fn shows_out(net: &Net)
    ensures { (fault : Option Fault) (x : Set) → Shows net.now fault x (out net.now fault x) }
{
    one_run();
    valid_law(net);
}

/// The outputs that show 1 in a lane of the words.
fn outputs_in(outputs: &[Sig], lane: u32, words: &[Word]) -> Mask
    requires few { length outputs.now ≤ NET_LINES }
    requires signals { All (λ s. s < length words.now) outputs.now }
    requires lane { lane < LANES }
    ensures { result ≡ where_below (length outputs.now) (λ o. has (slice_index words.now (slice_index outputs.now o)) lane) }
{
    let mut ones = Mask::empty();
    for o in 0..outputs.len() {
        if has_lane(words[outputs[o] as usize], lane) {
            ones = ones.with(o as u32);
        }
    }
    ones
}

/// Adds the outputs that show 1 in each of the first `count` lanes, which have the runs at the points from `base` on.
fn push_outs(
    net: &Net,
    words: &[Word],
    base: usize,
    count: usize,
    outs: &mut Vec<Mask>,
) -> Result<(), Memory>
    requires words { signals net.now ≤ length words.now }
    requires count { count ≤ LANES }
    ensures { OnOk result ((points : List Set) → base + count ≤ length points → IsPass net.now points base count words.now
        → outs.old.items ≡ map (out net.now None) (take base points) → outs.new.items ≡ map (out net.now None) (take (base + count) points)) }
{
    one_run();
    for lane in 0..count {
        outs.push(outputs_in(net.outputs(), lane as u32, words))?;
    }
    Ok(())
}

/// The fault-free responses: for each point, in order, the outputs that show 1. Where memory runs out, `Memory`.
pub fn responses(alloc: Global, net: &Net, points: &[Point]) -> Result<Vec<Mask>, Memory>
    ensures shows { IfOk result (λ outs. AllZip (Shows net.now None) points.now outs.items) }
    ensures outs { IfOk result (λ outs. outs.items ≡ map (out net.now None) points.now) }
{
    shows_out(net);
    let polynomials = polynomials_of(alloc, net)?;
    let mut words = vec![in alloc; full(false); net.inputs().len() + net.gates().len()]?;
    let mut seen = vec![in alloc; full(false); PINS as usize]?;
    let mut outs = Vec::new(alloc);
    push_all(
        net,
        points,
        polynomials.as_slice(),
        words.as_mut_slice(),
        seen.as_mut_slice(),
        &mut outs,
    )?;
    Ok(outs)
}

/// Adds the responses at all points, a pass after another. The words are written over.
fn push_all(
    net: &Net,
    points: &[Point],
    polynomials: &[Option<Polynomial>],
    words: &mut [Word],
    seen: &mut [Word],
    outs: &mut Vec<Mask>,
) -> Result<(), Memory>
    requires words { signals net.now ≡ length words.old }
    requires seen { PINS ≤ length seen.old }
    requires polynomials { ArePolynomials net.now polynomials.now }
    requires outs { outs.old.items ≡ [] }
    ensures { OnOk result (outs.new.items ≡ map (out net.now None) points.now) }
{
    let mut base = 0;
    while base < points.len() {
        let now = next_points(points, base);
        write_good(net, now, polynomials, words, seen);
        push_outs(net, words, base, now.len(), outs)?;
        base += now.len();
    }
    Ok(())
}

/// For each fault of the list, in order, the place of the first point that detects it; `None` comes exactly where no point does, as for a
/// fault at no place of the network, which changes nothing. There are fewer points than 2 to the 32. Where memory runs out, `Memory`.
pub fn first_telling(
    alloc: Global,
    net: &Net,
    points: &[Point],
    list: &[Fault],
) -> Result<Vec<Option<u32>>, Memory>
    requires { length points.now < 2 ^ 32 }
    ensures { IfOk result (λ found. AllZip (IsFirstTelling net.now points.now) list.now found.items) }
{
    let mut bench = bench_for(alloc, net)?;
    let mut found = nothing_found(alloc, list.len())?;
    try_points(net, points, list, &mut bench, found.as_mut_slice())?;
    Ok(found)
}
