//! The faults of a pass by their sites: a site is a signal or, past the signals, an output port. Each fault holds its place in a lane of its
//! own, or one fault in all lanes.
ghost use Rattle.std.specs.Prelude.{◌≡◌, ◌≢◌, ◌==◌, ◌<◌, ℕ, [], ◌∷◌, ◌++◌, Bool, Some, false, IfOk, OnOk, length, slice_index, if◌then◌else◌};
ghost use Rattle.ae_base.specs.Mask.{has};
ghost use Rattle.ae_net.specs.Run.{seen};
ghost use Rattle.fault_sim.specs.declared.words.TheConstants.{LANES};
ghost use Rattle.fault_sim.specs.Sites.{IsHeld, entry, fault_in, room, site, sites};

use crate::words::{LANES, Word, both, complement, either, full, one_lane};
use ae_base::Memory;
use ae_net::{Fault, Net, Place};
use std::alloc::Global;

/// The faults of a pass, and for each site a chain of those there.
#[derive(Drop)]
pub struct Held {
    /// The faults, one for each lane or one for all.
    pub faults: Vec<Fault>,
    /// For each site one more than the place of the last fault there, or 0.
    pub last: Vec<u32>,
    /// For each fault one more than the place of the one before it at the same site, or 0.
    pub before: Vec<u32>,
    /// Whether one fault has all lanes.
    pub all: bool,
}

/// No faults, for passes of one in each lane.
pub fn held_for(alloc: Global, net: &Net) -> Result<Held, Memory>
    ensures held { IfOk result (λ held. IsHeld net.now held) }
    ensures none { IfOk result (λ held. held.faults.items ≡ []) }
    ensures all { IfOk result (λ held. held.all ≡ false) }
{
    let count = net.inputs().len() + net.gates().len() + net.outputs().len();
    Ok(Held {
        faults: Vec::new(alloc),
        last: vec![in alloc; 0u32; count]?,
        before: Vec::new(alloc),
        all: false,
    })
}

/// The site of a place: the signal of a stem, the signal of the gate of a pin, or a port.
pub fn site_of(net: &Net, place: Place) -> usize
    ensures { result ≡ site net.now place }
{
    let first = net.inputs().len();
    match place {
        Place::Stem(s) => s as usize,
        Place::Pin(i, _) => first + i as usize,
        Place::Port(o) => first + net.gates().len() + o as usize,
    }
}

/// What the list has for a site, or 0 where the site is none of the network.
fn last_at(last: &[u32], s: usize) -> u32
    ensures { result ≡ slice_index last.now s }
{
    if s < last.len() { last[s] } else { 0 }
}

/// Writes what the list has for a site, if it is one of the network.
fn set_at(last: &mut [u32], s: usize, value: u32)
    ensures here { s < length last.old → slice_index last.new s ≡ value }
    ensures others { (t : ℕ) → t ≢ s → slice_index last.new t ≡ slice_index last.old t }
    ensures len { length last.new ≡ length last.old }
{
    if s < last.len() {
        last[s] = value;
    }
}

/// Puts a fault behind those of the pass.
pub fn hold(net: &Net, fault: Fault, held: &mut Held) -> Result<(), Memory>
    requires held { IsHeld net.now held.old }
    requires few { length held.old.faults.items < room held.old.all }
    ensures held { OnOk result (IsHeld net.now held.new) }
    ensures faults { OnOk result (held.new.faults.items ≡ held.old.faults.items ++ fault ∷ []) }
    ensures all { held.new.all ≡ held.old.all }
{
    let s = site_of(net, fault.place);
    let e = held.faults.len() as u32;
    held.before.push(last_at(held.last.as_slice(), s))?;
    held.faults.push(fault)?;
    set_at(held.last.as_mut_slice(), s, e + 1);
    Ok(())
}

/// Lets go of all faults.
pub fn release(net: &Net, held: &mut Held)
    requires held { IsHeld net.now held.old }
    ensures held { IsHeld net.now held.new }
    ensures none { held.new.faults.items ≡ [] }
    ensures all { held.new.all ≡ held.old.all }
{
    for e in 0..held.faults.len() {
        let s = site_of(net, held.faults[e].place);
        set_at(held.last.as_mut_slice(), s, 0);
    }
    held.faults.clear();
    held.before.clear();
}

/// The lanes of the fault in place `e`.
fn lanes_of(all: bool, e: u32) -> Word
    requires { e < room all }
    ensures { (l : ℕ) → l < LANES → has result l ≡ (entry all l == e) }
{
    if all { full(true) } else { one_lane(e) }
}

/// What is seen at a place with a fault that has these lanes, where the word would be seen without it.
fn held_at(fault: Fault, at: Place, lanes: Word, word: Word) -> Word
    ensures { (l : ℕ) → l < LANES → has result l ≡ (if has lanes l then seen (Some fault) at (has word l) else has word l) }
{
    if fault.place != at {
        word
    } else if fault.value {
        either(word, lanes)
    } else {
        both(word, complement(lanes))
    }
}

/// What is seen at a place with the faults of the pass, where the word would be seen without them.
pub fn shown(net: &Net, held: &Held, at: Place, word: Word) -> Word
    requires held { IsHeld net.now held.now }
    requires place { site net.now at < sites net.now }
    ensures { (l : ℕ) → l < LANES → has result l ≡ seen (fault_in held.now l) at (has word l) }
{
    let mut word = word;
    let mut end = held.last[site_of(net, at)] as usize;
    while end > 0 {
        let e = end - 1;
        word = held_at(held.faults[e], at, lanes_of(held.all, e as u32), word);
        end = held.before[e] as usize;
    }
    word
}
