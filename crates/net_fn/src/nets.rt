//! The functions of a network's signals and output ports, with a stuck-at fault or without.
ghost use Rattle.std.specs.Prelude.{◌≡◌, ◌<◌, ◌≤◌, ℕ, Bool, not, if◌then◌else◌, All, IfOk, length};
ghost use Rattle.ae_base.specs.Mask.{Set, has};
ghost use Rattle.ae_net.specs.Evaluation.{pin_seen};
ghost use Rattle.ae_net.specs.Network.{signals};
ghost use Rattle.ae_net.specs.Out.{out};
ghost use Rattle.ae_net.specs.Run as run;
ghost use Rattle.ae_net.specs.Valid.{IsGate};
ghost use Rattle.fn_store.specs.Functions.{IsLive, Shows, Keeps};
ghost use Rattle.net_fn.specs.Refs.{AreLive, ShowEach};
ghost use Rattle.ae_base.specs.declared.limits.TheConstants.{PINS};
ghost use Rattle.net_fn.specs.Seen.{ShowSeen, place_of};
ghost use Rattle.net_fn.specs.Signals.{ShowSignals, truth_functions};

use crate::cubes::some_product;
use crate::products::input;
use ae_base::Memory;
use ae_net::{Fault, Gate, Net, Place, Sig, one_run};
use fn_store::{FnRef, FnStore};
use std::alloc::Global;

/// What reads signals: the pins of the gate in a place of the list, or the output ports.
#[derive(Clone, Copy)]
enum Readers {
    Pins(u32),
    Ports,
}

/// The place of the reader at a position.
fn place_of(readers: Readers, k: u32) -> Place
    ensures { result ≡ place_of readers k }
{
    match readers {
        Readers::Pins(gate) => Place::Pin(gate, k),
        Readers::Ports => Place::Port(k),
    }
}

/// For each output port of the network, in order, the function that it shows under the fault, or under none. The store has as many
/// inputs as the network. Where memory runs out, `Memory`; the store has kept its functions then too.
pub fn net_values<S: FnStore>(
    alloc: Global,
    store: &mut S,
    net: &Net,
    fault: Option<Fault>,
) -> Result<Vec<FnRef>, Memory>
    requires { (S.functions store.old).polarity.n ≡ length net.now.inputs }
    ensures count { IfOk result (λ refs. length refs.items ≡ length net.now.outputs) }
    ensures shows { IfOk result (λ refs. ShowEach (S.functions store.new) refs.items (λ o x. has (out net.now fault x) o)) }
    ensures keeps { Keeps (S.functions store.old) (S.functions store.new) }
{
    let values = signal_values(alloc, store, net, fault)?;
    port_values(alloc, store, net, fault, &values)
}

/// The same from the functions of the signals, under the same fault or none: for each output port of the network, in order, the function
/// that it shows. Nothing is made. Where memory runs out, `Memory`.
pub fn port_values<S: FnStore>(
    alloc: Global,
    store: &S,
    net: &Net,
    fault: Option<Fault>,
    values: &[FnRef],
) -> Result<Vec<FnRef>, Memory>
    requires { ShowSignals (S.functions store.now) net.now fault (signals net.now) values.now }
    ensures count { IfOk result (λ refs. length refs.items ≡ length net.now.outputs) }
    ensures shows { IfOk result (λ refs. ShowEach (S.functions store.now) refs.items (λ o x. has (out net.now fault x) o)) }
{
    one_run();
    seen_by(alloc, store, fault, Readers::Ports, net.outputs(), values)
}

/// For each signal of the network, the inputs and then the gates in order, the function of its values in the runs under the fault, or
/// under none. Each gate's function is made once, of those of the signals that its pins read. The store has as many inputs as the network.
/// Where memory runs out, `Memory`; the store has kept its functions then too.
pub fn signal_values<S: FnStore>(
    alloc: Global,
    store: &mut S,
    net: &Net,
    fault: Option<Fault>,
) -> Result<Vec<FnRef>, Memory>
    requires { (S.functions store.old).polarity.n ≡ length net.now.inputs }
    ensures shows { IfOk result (λ refs. ShowSignals (S.functions store.new) net.now fault (signals net.now) refs.items) }
    ensures keeps { Keeps (S.functions store.old) (S.functions store.new) }
{
    let mut refs = input_values(alloc, store, net, fault)?;
    for i in 0..net.gates().len() {
        let value = gate_value(alloc, store, net.gate(i), i as u32, fault, &refs)?;
        let stem = Place::Stem(refs.len() as u32);
        refs.push(seen(store, fault, stem, value))?;
    }
    Ok(refs)
}

/// The functions of the inputs.
fn input_values<S: FnStore>(
    alloc: Global,
    store: &mut S,
    net: &Net,
    fault: Option<Fault>,
) -> Result<Vec<FnRef>, Memory>
    requires { (S.functions store.old).polarity.n ≡ length net.now.inputs }
    ensures shows { IfOk result (λ refs. ShowSignals (S.functions store.new) net.now fault (length net.now.inputs) refs.items) }
    ensures keeps { Keeps (S.functions store.old) (S.functions store.new) }
{
    let mut refs = Vec::new(alloc);
    for j in 0..net.inputs().len() as u32 {
        let value = input(store, j)?;
        refs.push(seen(store, fault, Place::Stem(j), value))?;
    }
    Ok(refs)
}

/// The function of the table of the gate in place `i`, on what its pins see of the signals before it.
pub(crate) fn gate_value<S: FnStore>(
    alloc: Global,
    store: &mut S,
    gate: &Gate,
    i: u32,
    fault: Option<Fault>,
    signals: &[FnRef],
) -> Result<FnRef, Memory>
    requires live { AreLive (S.functions store.old) signals.now }
    requires gate { IsGate (length signals.now) gate.now }
    ensures shows { IfOk result (λ r. (fs : ℕ → Set → Bool) → ShowEach (S.functions store.old) signals.now fs
        → Shows (S.functions store.new) r ((truth_functions fault).table gate.now (pin_seen (truth_functions fault) fs i gate.now))) }
    ensures live { IfOk result (IsLive (S.functions store.new)) }
    ensures keeps { Keeps (S.functions store.old) (S.functions store.new) }
{
    let pins = seen_by(
        alloc,
        store,
        fault,
        Readers::Pins(i),
        gate.pins.as_slice(),
        signals,
    )?;
    let some = some_product(alloc, store, gate.rows.as_slice(), &pins)?;
    turned(store, gate.on, some)
}

/// The function, or its complement where the gate has no `on`.
fn turned<S: FnStore>(store: &mut S, on: bool, some: FnRef) -> Result<FnRef, Memory>
    requires { IsLive (S.functions store.old) some }
    ensures shows { IfOk result (λ r. (f : Set → Bool) → Shows (S.functions store.old) some f → Shows (S.functions store.new) r (λ x. if on then f x else not (f x))) }
    ensures live { IfOk result (IsLive (S.functions store.new)) }
    ensures keeps { Keeps (S.functions store.old) (S.functions store.new) }
{
    if on { Ok(some) } else { store.not(some) }
}

/// What the readers see of the signals that they read, in order.
fn seen_by<S: FnStore>(
    alloc: Global,
    store: &S,
    fault: Option<Fault>,
    readers: Readers,
    read: &[Sig],
    signals: &[FnRef],
) -> Result<Vec<FnRef>, Memory>
    requires live { AreLive (S.functions store.now) signals.now }
    requires read { All (λ s. s < length signals.now) read.now }
    requires few { length read.now ≤ PINS }
    ensures { IfOk result (λ refs. ShowSeen (S.functions store.now) fault readers read.now signals.now (length read.now) refs.items) }
{
    let mut refs = Vec::new(alloc);
    for (k, s) in read.iter().enumerate() {
        let at = place_of(readers, k as u32);
        refs.push(seen(store, fault, at, signals[*s as usize]))?;
    }
    Ok(refs)
}

/// What is seen at a place, where the function would be seen without the fault.
pub(crate) fn seen<S: FnStore>(store: &S, fault: Option<Fault>, at: Place, value: FnRef) -> FnRef
    requires { IsLive (S.functions store.now) value }
    ensures shows { (f : Set → Bool) → Shows (S.functions store.now) value f → Shows (S.functions store.now) result (λ x. run.seen fault at (f x)) }
    ensures live { IsLive (S.functions store.now) result }
{
    match fault {
        Some(fault) => {
            if fault.place == at {
                constant(store, fault.value)
            } else {
                value
            }
        }
        None => value,
    }
}

/// The function that is the value everywhere.
pub(crate) fn constant<S: FnStore>(store: &S, value: bool) -> FnRef
    ensures { Shows (S.functions store.now) result (λ x. value) }
{
    if value { store.one() } else { store.zero() }
}
