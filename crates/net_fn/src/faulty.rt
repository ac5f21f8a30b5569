//! The functions of a network with a stuck-at fault, of those without it.
ghost use Rattle.std.specs.Prelude.{◌≡◌, ◌<◌, ◌≤◌, ◌+◌, ◌↔◌, ℕ, Bool, true, Some, None, All, IfOk, length};
ghost use Rattle.ae_base.specs.Mask.{Set, has};
ghost use Rattle.ae_base.specs.declared.limits.TheConstants.{PINS};
ghost use Rattle.ae_net.specs.Evaluation.{pin_seen};
ghost use Rattle.ae_net.specs.Network.{signals, gate_at};
ghost use Rattle.ae_net.specs.Out.{out};
ghost use Rattle.fn_store.specs.Functions.{IsLive, Shows, Keeps};
ghost use Rattle.net_fn.specs.Refs.{AreLive, ShowEach};
ghost use Rattle.net_fn.specs.Seen.{SeeAlike};
ghost use Rattle.net_fn.specs.Signals.{ShowSignals, truth_functions};

use crate::nets::{gate_value, port_values, seen};
use ae_base::Memory;
use ae_net::{Fault, Net, Place, Sig, one_run};
use fn_store::{FnRef, FnStore, store_laws};
use std::alloc::Global;

/// For each output port of the network, in order, the function that it shows under the fault: what `net_values` gives, of the functions
/// of the signals without a fault. Only a gate at which some pin sees another function with the fault is made anew. Where memory runs
/// out, `Memory`; the store has kept its functions then too.
pub fn faulty_values<S: FnStore>(
    alloc: Global,
    store: &mut S,
    net: &Net,
    fault: Fault,
    good: &[FnRef],
) -> Result<Vec<FnRef>, Memory>
    requires { ShowSignals (S.functions store.old) net.now None (signals net.now) good.now }
    ensures count { IfOk result (λ refs. length refs.items ≡ length net.now.outputs) }
    ensures shows { IfOk result (λ refs. ShowEach (S.functions store.new) refs.items (λ o x. has (out net.now (Some fault) x) o)) }
    ensures keeps { Keeps (S.functions store.old) (S.functions store.new) }
{
    let values = faulty_signals(alloc, store, net, fault, good)?;
    port_values(alloc, store, net, Some(fault), &values)
}

/// The functions of the signals under the fault.
fn faulty_signals<S: FnStore>(
    alloc: Global,
    store: &mut S,
    net: &Net,
    fault: Fault,
    good: &[FnRef],
) -> Result<Vec<FnRef>, Memory>
    requires { ShowSignals (S.functions store.old) net.now None (signals net.now) good.now }
    ensures shows { IfOk result (λ refs. ShowSignals (S.functions store.new) net.now (Some fault) (signals net.now) refs.items) }
    ensures keeps { Keeps (S.functions store.old) (S.functions store.new) }
{
    let mut refs = faulty_inputs(alloc, store, net, fault, good)?;
    for i in 0..net.gates().len() {
        let value = faulty_gate(alloc, store, net, fault, good, &refs)?;
        let stem = Place::Stem(refs.len() as u32);
        refs.push(seen(store, Some(fault), stem, value))?;
    }
    Ok(refs)
}

/// The functions of the inputs under the fault.
fn faulty_inputs<S: FnStore>(
    alloc: Global,
    store: &S,
    net: &Net,
    fault: Fault,
    good: &[FnRef],
) -> Result<Vec<FnRef>, Memory>
    requires { ShowSignals (S.functions store.now) net.now None (signals net.now) good.now }
    ensures { IfOk result (λ refs. ShowSignals (S.functions store.now) net.now (Some fault) (length net.now.inputs) refs.items) }
{
    one_run();
    let mut refs = Vec::new(alloc);
    for j in 0..net.inputs().len() {
        refs.push(seen(store, Some(fault), Place::Stem(j as u32), good[j]))?;
    }
    Ok(refs)
}

/// The function of the next gate's table under the fault: that without the fault, where each pin sees what it sees without it.
fn faulty_gate<S: FnStore>(
    alloc: Global,
    store: &mut S,
    net: &Net,
    fault: Fault,
    good: &[FnRef],
    refs: &[FnRef],
) -> Result<FnRef, Memory>
    requires good { ShowSignals (S.functions store.old) net.now None (signals net.now) good.now }
    requires live { AreLive (S.functions store.old) refs.now }
    requires inputs { length net.now.inputs ≤ length refs.now }
    requires gates { length refs.now < signals net.now }
    ensures shows { IfOk result (λ r. (i : ℕ) (fs : ℕ → Set → Bool) → length refs.now ≡ length net.now.inputs + i → ShowEach (S.functions store.old) refs.now fs
        → Shows (S.functions store.new) r ((truth_functions (Some fault)).table (gate_at net.now i) (pin_seen (truth_functions (Some fault)) fs i (gate_at net.now i)))) }
    ensures live { IfOk result (IsLive (S.functions store.new)) }
    ensures keeps { Keeps (S.functions store.old) (S.functions store.new) }
{
    one_run();
    store_laws();
    let i = refs.len() - net.inputs().len();
    let gate = net.gate(i);
    if see_alike(store, gate.pins.as_slice(), i as u32, fault, good, refs) {
        Ok(good[refs.len()])
    } else {
        gate_value(alloc, store, gate, i as u32, Some(fault), refs)
    }
}

/// Whether each pin of the gate in place `i` sees with the fault what it sees without it.
fn see_alike<S: FnStore>(
    store: &S,
    pins: &[Sig],
    i: u32,
    fault: Fault,
    good: &[FnRef],
    refs: &[FnRef],
) -> bool
    requires good { AreLive (S.functions store.now) good.now }
    requires live { AreLive (S.functions store.now) refs.now }
    requires earlier { All (λ s. s < length refs.now) pins.now }
    requires more { length refs.now ≤ length good.now }
    requires few { length pins.now ≤ PINS }
    ensures { (fs gs : ℕ → Set → Bool) → ShowEach (S.functions store.now) refs.now fs → ShowEach (S.functions store.now) good.now gs
        → (result ≡ true) ↔ SeeAlike (S.functions store.now).polarity.n fault i pins.now fs gs }
{
    for k in 0..pins.len() {
        let s = pins[k] as usize;
        let value = seen(store, Some(fault), Place::Pin(i, k as u32), refs[s]);
        if !store.same(value, good[s]) {
            return false;
        }
    }
    true
}
