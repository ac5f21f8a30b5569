//! A network as text (Berkeley Logic Interchange Format).
ghost use Rattle.std.specs.Prelude.{◌≡◌, ◌<◌, ◌≤◌, ◌+◌, ◌++◌, [], ◌∷◌, length, map, All, Ok, OnOk, IfOk};
ghost use Rattle.std.specs.List.{flat_map};
ghost use Rattle.ae_net.specs.Network.{signals};
ghost use Rattle.ae_base.specs.Text.{cube_text, text_of};
ghost use Rattle.ae_base.specs.declared.limits.TheConstants.{PINS};
ghost use Rattle.ae_net.specs.Blif as text;
ghost use Rattle.ae_net.specs.Valid.{IsValid};
ghost use Rattle.blif_read.specs.Limits.{KeepsLimits};
ghost use Rattle.blif_read.specs.Says.{blif_says};
ghost use Rattle.blif_read.specs.declared.fault.NetLimits.TheVariants.{Written};

use ae_base::{Cube, Memory, push_names, push_word};
use ae_net::{Gate, Net, Sig};
use blif_read::said_again;
use std::alloc::Global;

// The name of a signal.
fn signal_name(net: &Net, s: Sig) -> &[u8]
    requires { s < signals net.now }
    ensures { result.now ≡ text.name_of (text.signal_names net.now) s }
{
    let s = s as usize;
    let inputs = net.inputs();
    if s < inputs.len() {
        inputs[s].bytes()
    } else {
        net.gates()[s - inputs.len()].out.bytes()
    }
}

// Writes the names of signals, each after a blank.
fn push_signals(out: &mut Vec<u8>, net: &Net, list: &[Sig]) -> Result<(), Memory>
    requires { All (λ s. s < signals net.now) list.now }
    ensures { OnOk result (out.new.items ≡ out.old.items ++ flat_map (λ w. 32 ∷ w) (map (text.name_of (text.signal_names net.now)) list.now)) }
{
    for s in list {
        push_word(out, signal_name(net, *s))?;
    }
    Ok(())
}

// Writes the literals of a row over `k` pins.
fn push_literals(out: &mut Vec<u8>, k: u32, row: Cube) -> Result<(), Memory>
    ensures { OnOk result (out.new.items ≡ out.old.items ++ cube_text k row) }
{
    for j in 0..k {
        out.push(row.literal_text(j))?;
    }
    Ok(())
}

// Writes the line of a row over `k` pins.
fn push_row(out: &mut Vec<u8>, k: u32, on: bool, row: Cube) -> Result<(), Memory>
    ensures { OnOk result (out.new.items ≡ out.old.items ++ text_of (text.row_words k on row ∷ [])) }
{
    if k > 0 {
        push_literals(out, k, row)?;
        out.push(b' ')?;
    }
    out.push(if on { b'1' } else { b'0' })?;
    out.push(b'\n')?;
    Ok(())
}

// Writes the lines of rows over `k` pins.
fn push_rows(out: &mut Vec<u8>, k: u32, on: bool, rows: &[Cube]) -> Result<(), Memory>
    ensures { OnOk result (out.new.items ≡ out.old.items ++ text_of (map (text.row_words k on) rows.now)) }
{
    for row in rows {
        push_row(out, k, on, *row)?;
    }
    Ok(())
}

// Writes the lines of a gate.
fn push_gate(out: &mut Vec<u8>, net: &Net, gate: &Gate) -> Result<(), Memory>
    requires pins { All (λ s. s < signals net.now) gate.now.pins }
    requires few { length gate.now.pins ≤ PINS }
    ensures { OnOk result (out.new.items ≡ out.old.items ++ text_of (text.gate_lines (text.signal_names net.now) gate.now)) }
{
    out.extend_from_slice(b".names")?;
    push_signals(out, net, gate.pins.as_slice())?;
    push_word(out, gate.out.bytes())?;
    out.push(b'\n')?;
    push_rows(out, gate.pins.len() as u32, gate.on, gate.rows.as_slice())?;
    Ok(())
}

// Writes the lines of the gates.
fn push_gates(out: &mut Vec<u8>, net: &Net) -> Result<(), Memory>
    ensures { OnOk result (out.new.items ≡ out.old.items ++ text_of (flat_map (text.gate_lines (text.signal_names net.now)) net.now.gates)) }
{
    for i in 0..net.gates().len() {
        push_gate(out, net, net.gate(i))?;
    }
    Ok(())
}

// Writes the lines before the gates.
fn push_head(out: &mut Vec<u8>, net: &Net) -> Result<(), Memory>
    ensures valid { IsValid net.now }
    ensures text { OnOk result (out.new.items ≡ out.old.items ++ text_of (text.head_lines net.now)) }
{
    let model = net.model();
    out.extend_from_slice(b".model")?;
    push_word(out, model.bytes())?;
    out.extend_from_slice(b"\n.inputs")?;
    push_names(out, net.inputs())?;
    out.extend_from_slice(b"\n.outputs")?;
    push_signals(out, net, net.outputs())?;
    out.push(b'\n')?;
    Ok(())
}

/// The text of a network: its model, inputs and outputs, each gate with its rows in list order, and the end. It says that network again.
/// `Memory` is the one error.
#[tactic(auto, unfolding(ae_net::specs::Blif::blif_text))]
pub fn blif_text(alloc: Global, net: &Net) -> Result<Vec<u8>, Memory>
    ensures text { IfOk result (λ bytes. bytes.items ≡ text.blif_text net.now) }
    ensures said { KeepsLimits Written net.now → IfOk result (λ bytes. blif_says Written bytes.items ≡ Ok net.now) }
{
    let mut out = Vec::new(alloc);
    push_head(&mut out, net)?;
    push_gates(&mut out, net)?;
    out.extend_from_slice(b".end\n")?;
    said_again();
    Ok(out)
}
