//! For each signal the gates that read it.
ghost use Rattle.std.specs.Prelude.{◌≡◌, ◌⊎◌, ◌<◌, ◌+◌, ℕ, [], All, IfOk, OnOk, length, slice_index};
ghost use Rattle.ae_net.specs.Network.{signals};
ghost use Rattle.fault_sim.specs.Marks.{IsAmong};
ghost use Rattle.fault_sim.specs.Spread.{AreReaders, row};

use ae_base::Memory;
use ae_net::{Net, Pins, Sig};
use std::alloc::Global;

/// Lists without an element.
fn empty_lists(alloc: Global, count: usize) -> Result<Vec<Pins>, Memory>
    ensures empty { IfOk result (λ lists. (s : ℕ) → row lists.items s ≡ []) }
    ensures len { IfOk result (λ lists. length lists.items ≡ count) }
{
    let mut lists = Vec::new(alloc);
    for _ in 0..count {
        lists.push(Pins::new(alloc))?;
    }
    Ok(lists)
}

/// Adds a gate to the lists of the signals that it reads.
fn add_reader(pins: &[Sig], gate: u32, readers: &mut [Pins]) -> Result<(), Memory>
    requires earlier { All (λ pin. pin < length readers.old) pins.now }
    ensures kept { OnOk result ((s i : ℕ) → IsAmong (row readers.old s) i → IsAmong (row readers.new s) i) }
    ensures each { OnOk result ((k : ℕ) → k < length pins.now → IsAmong (row readers.new (slice_index pins.now k)) gate) }
    ensures only { OnOk result ((s i : ℕ) → IsAmong (row readers.new s) i → (IsAmong (row readers.old s) i) ⊎ ((i ≡ gate) × IsAmong pins.now s)) }
    ensures len { length readers.new ≡ length readers.old }
{
    for pin in pins {
        readers[*pin as usize].push(gate)?;
    }
    Ok(())
}

/// For each signal the places of the gates that read it.
pub fn all_readers(alloc: Global, net: &Net) -> Result<Vec<Pins>, Memory>
    ensures { IfOk result (λ readers. AreReaders net.now readers.items) }
{
    let mut readers = empty_lists(alloc, net.inputs().len() + net.gates().len())?;
    for i in 0..net.gates().len() {
        add_reader(
            net.gate(i).pins.as_slice(),
            i as u32,
            readers.as_mut_slice(),
        )?;
    }
    Ok(readers)
}
