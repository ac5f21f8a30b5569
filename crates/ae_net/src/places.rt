//! The places of a network, and its faults.
ghost use Rattle.std.specs.Prelude.{◌≡◌, ◌↔◌, ◌++◌, ◌==◌, ◌≤◌, ◌<◌, ◌^◌, All, filter, map, length, count_by, [], if◌then◌else◌, slice_get, Some, IsTrue, IfOk, OnOk};
ghost use Rattle.std.specs.List.{list_any, flat_map, range_with_len};
ghost use Rattle.ae_base.specs.declared.limits.TheConstants.{PINS};
ghost use Rattle.ae_net.specs.Faults as spec;
ghost use Rattle.ae_net.specs.Marks.{Marks, mark_at};
ghost use Rattle.ae_net.specs.Network.{signals};
ghost use Rattle.ae_net.specs.declared.net.Gate as gate_data;
ghost use Rattle.ae_net.specs.declared.net.Place.TheVariants.{Stem};

use crate::net::{Fault, Gate, Net, Place, Sig};
use ae_base::Memory;
use std::alloc::Global;

fn is_pin(gate: &Gate, s: Sig) -> bool
    ensures { result ≡ list_any (λ pin. pin == s) gate.now.pins }
{
    gate.pins.as_slice().iter().any(|pin| *pin == s)
}

fn some_pin(gates: &[Gate], s: Sig) -> bool
    ensures { result ≡ spec.is_read_by gates.now s }
{
    gates.iter().any(|gate| is_pin(gate, s))
}

fn is_output(outputs: &[Sig], s: Sig) -> bool
    ensures { result ≡ list_any (λ o. o == s) outputs.now }
{
    outputs.iter().any(|o| *o == s)
}

fn is_read(net: &Net, s: Sig) -> bool
    ensures { result ≡ spec.is_read net.now s }
{
    some_pin(net.gates(), s) || is_output(net.outputs(), s)
}

/// Whether the gate in place `i` of the list has a pin in position `k`.
fn has_pin(gates: &[Gate], i: u32, k: u32) -> bool
    ensures { IsTrue result ↔ ((gate : gate_data.Gate) × (slice_get gates.now i ≡ Some gate) × (k < length gate.pins)) }
{
    match gates.get(i as usize) {
        Some(gate) => (k as usize) < gate.pins.len(),
        None => false,
    }
}

/// Whether this is a place of the network: the stem of a signal that some gate pin or some output reads, a pin of a gate, or an output
/// port. An input that nothing reads has no place.
pub fn is_place(net: &Net, place: Place) -> bool
    ensures { IsTrue result ↔ spec.IsPlace net.now place }
{
    match place {
        Place::Stem(s) => is_read(net, s),
        Place::Pin(i, k) => has_pin(net.gates(), i, k),
        Place::Port(o) => (o as usize) < net.outputs().len(),
    }
}

/// Marks the signals of a list.
fn mark(marks: &mut [bool], list: &[Sig])
    requires { All (λ s. s < length marks.old) list.now }
    ensures { Marks (λ s. list_any (λ t. t == s) list.now) marks.old marks.new }
{
    for s in list {
        marks[*s as usize] = true;
    }
}

/// Marks the signals that some gate pin reads.
fn mark_pins(net: &Net, marks: &mut [bool])
    requires { signals net.now ≤ length marks.old }
    ensures { Marks (spec.is_read_by net.now.gates) marks.old marks.new }
{
    for i in 0..net.gates().len() {
        mark(marks, net.gate(i).pins.as_slice());
    }
}

/// Marks the signals that some gate pin or some output reads.
#[tactic(auto, using(crate::proofs::PlaceLemmas::marks_read))]
fn mark_read(net: &Net, marks: &mut [bool])
    requires { signals net.now ≤ length marks.old }
    ensures { Marks (spec.is_read net.now) marks.old marks.new }
{
    mark_pins(net, marks);
    mark(marks, net.outputs());
}

/// Whether some gate pin or some output reads each signal, by signal.
#[tactic(auto, using(crate::proofs::PlaceLemmas::read_marked))]
fn read_signals(alloc: Global, net: &Net) -> Result<Vec<bool>, Memory>
    ensures marks { IfOk result (λ marks. marks.items ≡ map (spec.is_read net.now) (range_with_len 0 (signals net.now))) }
    ensures few { IfOk result (λ marks. length marks.items < 2 ^ 32) }
{
    let signals = net.inputs().len() + net.gates().len();
    let mut marks = vec![in alloc; false; signals]?;
    mark_read(net, marks.as_mut_slice());
    Ok(marks)
}

/// Adds the faults of a place: held at 0, and held at 1.
fn push_both(list: &mut Vec<Fault>, place: Place) -> Result<(), Memory>
    ensures { OnOk result (list.new.items ≡ list.old.items ++ spec.both_values place) }
{
    list.push(Fault {
        place,
        value: false,
    })?;
    list.push(Fault { place, value: true })?;
    Ok(())
}

/// Adds the faults of the stem of `s`, where the signal is read.
fn push_stem(is_read: bool, s: Sig, list: &mut Vec<Fault>) -> Result<(), Memory>
    ensures { OnOk result (list.new.items ≡ list.old.items ++ (if is_read then spec.both_values (Stem s) else [])) }
{
    if is_read {
        push_both(list, Place::Stem(s))?;
    }
    Ok(())
}

/// Adds the faults of the stems of the signals that are marked.
fn push_stems(marks: &[bool], list: &mut Vec<Fault>) -> Result<(), Memory>
    requires { length marks.now < 2 ^ 32 }
    ensures { OnOk result (list.new.items ≡ list.old.items
        ++ flat_map spec.both_values (map (λ s. Stem s) (filter (mark_at marks.now) (range_with_len 0 (length marks.now))))) }
{
    for s in 0..marks.len() {
        push_stem(marks[s], s as u32, list)?;
    }
    Ok(())
}

/// Adds the faults of the pins of a gate, whose place in the list is `i`.
fn push_pins_of(gate: &Gate, i: u32, list: &mut Vec<Fault>) -> Result<(), Memory>
    requires { length gate.now.pins ≤ PINS }
    ensures { OnOk result (list.new.items ≡ list.old.items ++ flat_map spec.both_values (spec.pins_of i gate.now)) }
{
    for k in 0..gate.pins.len() {
        push_both(list, Place::Pin(i, k as u32))?;
    }
    Ok(())
}

/// Adds the faults of the pins, by gate and position.
fn push_pins(net: &Net, list: &mut Vec<Fault>) -> Result<(), Memory>
    ensures { OnOk result (list.new.items ≡ list.old.items ++ flat_map spec.both_values (spec.pins net.now)) }
{
    for i in 0..net.gates().len() {
        push_pins_of(net.gate(i), i as u32, list)?;
    }
    Ok(())
}

/// Adds the faults of the output ports.
fn push_ports(net: &Net, list: &mut Vec<Fault>) -> Result<(), Memory>
    ensures { OnOk result (list.new.items ≡ list.old.items ++ flat_map spec.both_values (spec.ports net.now)) }
{
    for o in 0..net.outputs().len() {
        push_both(list, Place::Port(o as u32))?;
    }
    Ok(())
}

/// The single stuck-at faults of the network: every place held at 0 and then at 1, stems by signal, then pins by gate and position, then
/// ports by output. `fault_laws` says that these are all faults at places, each once. The time is linear in the size of the network.
#[tactic(auto, using(crate::proofs::PlaceLemmas::all_listed), unfolding(crate::specs::Faults::fault_list))]
pub fn faults(alloc: Global, net: &Net) -> Result<Vec<Fault>, Memory>
    ensures { IfOk result (λ list. list.items ≡ spec.fault_list net.now) }
{
    let marks = read_signals(alloc, net)?;
    let mut list = Vec::new(alloc);
    push_stems(marks.as_slice(), &mut list)?;
    push_pins(net, &mut list)?;
    push_ports(net, &mut list)?;
    Ok(list)
}

/// The number of the marks that are set.
fn marked(marks: &[bool]) -> usize
    ensures { result ≡ count_by (λ mark. mark) marks.now }
{
    marks.iter().filter(|mark| **mark).count()
}

/// The number of the stems of the signals that are read.
#[tactic(auto, using(crate::proofs::CountLemmas::stems_counted, crate::proofs::CountLemmas::few_stems))]
fn stem_count(alloc: Global, net: &Net) -> Result<u64, Memory>
    ensures stems { IfOk result (λ n. n ≡ length (spec.stems net.now)) }
    ensures few { IfOk result (λ n. n < 2 ^ 32) }
{
    let marks = read_signals(alloc, net)?;
    Ok(marked(marks.as_slice()) as u64)
}

/// The number of the pins of all gates.
fn pin_count(net: &Net) -> u64
    ensures pins { result ≡ length (spec.pins net.now) }
    ensures few { result < 2 ^ 32 }
{
    let mut sum = 0;
    for i in 0..net.gates().len() {
        sum += net.gate(i).pins.len() as u64;
    }
    sum
}

/// The number of the faults of the network, without their list. The time is linear in the size of the network.
#[tactic(auto, using(crate::proofs::CountLemmas::all_counted))]
pub fn fault_count(alloc: Global, net: &Net) -> Result<u64, Memory>
    ensures { IfOk result (λ n. n ≡ length (spec.fault_list net.now)) }
{
    let ports = net.outputs().len() as u64;
    let pins = pin_count(net);
    let stems = stem_count(alloc, net)?;
    Ok(2 * (stems + pins + ports))
}
