//! A source as it is read: its names, and the functions of its outputs in a store. Nothing after this knows the kind of its text.
ghost use Rattle.std.specs.Prelude.{◌≡◌, ◌≢◌, ◌≤◌, ℕ, IfOk, IfErr, IsErrOf, Err, length};
ghost use Rattle.ae_base.specs.declared.limits.TheConstants.{NET_LINES, TEXT_BYTES};
ghost use Rattle.ae_cover.specs.Cover.{source_of};
ghost use Rattle.ae_net.specs.NetSource.{specified_by};
ghost use Rattle.blif_read.specs.declared.fault.NetLimits.TheVariants.{Source as source_limits};
ghost use Rattle.blif_read.specs.Limits.{KeepsLimits};
ghost use Rattle.synth_core.specs.declared.error.SynthErr.TheVariants as synth_err;
ghost use Rattle.synth_core.specs.declared.fault.TextFault.{TextFault};
ghost use Rattle.synth_core.specs.Asked.{HasOtherCount, polarity_of};
ghost use Rattle.synth_core.specs.Errors.{of_text};
ghost use Rattle.synth_core.specs.Made.{names_of};
ghost use Rattle.synth_core.specs.Says.{source_says};
ghost use Rattle.synth_core.specs.Sourced.{IsSourced, IsWhole, SaysSourced, parts};

use crate::error::SynthErr;
use crate::settings::{Choice, Settings, SourceKind, polarity_of};
use ae_base::{Memory, Name, Polarity, copies};
use ae_cover::Cover;
use ae_net::{NetNames, Source};
use blif_read::source_law;
use davio_dd::Davio;
use fn_store::{FnRef, FnStore};
use named_faults::port_names;
use net_fn::{cover_values, source_values};
use pla_read::read_pla;
use std::alloc::Global;

/// How functions are kept: nothing else names it.
pub type Store = Davio;

/// The names of a source, and for each of its outputs in order the function that is 1 exactly where the output is specified On, in a
/// store at the polarity that is asked for.
#[derive(Drop)]
pub struct Sourced {
    pub names: NetNames,
    pub functions: Store,
    pub outputs: Vec<FnRef>,
}

/// The names of a cover: a PLA text gives its model none of its own.
fn cover_names(alloc: Global, cover: &Cover) -> Result<NetNames, Memory>
    ensures { IfOk result (λ names. names ≡ names_of (source_of cover.now)) }
{
    let inputs = copies(alloc, cover.inputs())?;
    let outputs = copies(alloc, cover.outputs())?;
    let model = Name::known(alloc, b"andexor")?;
    Ok(NetNames {
        model,
        inputs,
        outputs,
    })
}

/// The polarity that is asked for, of `n` inputs. `BitCount` comes exactly where one with another number is handed.
fn polarity_for(choice: Choice, n: u32) -> Result<Polarity, SynthErr>
    requires { n ≤ NET_LINES }
    ensures polarity { IfOk result (λ p. p ≡ polarity_of choice n) }
    ensures inputs { IfOk result (λ p. p.n ≡ n) }
    ensures other { IfErr result (λ e. e ≡ synth_err.BitCount (polarity_of choice n).n n) }
    ensures differ { IfErr result (λ e. (polarity_of choice n).n ≢ n) }
{
    let polarity = polarity_of(choice, n);
    if polarity.n != n {
        return Err(SynthErr::BitCount {
            given: polarity.n,
            wanted: n,
        });
    }
    Ok(polarity)
}

/// The source that a cover is, at a polarity of its inputs.
fn cover_source(alloc: Global, cover: &Cover, polarity: Polarity) -> Result<Sourced, Memory>
    requires { polarity.n ≡ length cover.now.inputs }
    ensures sourced { IfOk result (λ r. IsSourced (source_of cover.now) polarity (parts r.names (⟦<Store as FnStore>⟧.functions r.functions) r.outputs.items)) }
    ensures whole { IfOk result (λ r. IsWhole (parts r.names (⟦<Store as FnStore>⟧.functions r.functions) r.outputs.items)) }
{
    let names = cover_names(alloc, cover)?;
    let _ = cover.outputs();
    let mut functions = Store::new(alloc, polarity)?;
    let outputs = cover_values(alloc, &mut functions, cover)?;
    Ok(Sourced {
        names,
        functions,
        outputs,
    })
}

/// The names of a network with don't cares: those of its network.
fn net_names(alloc: Global, source: &Source) -> Result<NetNames, Memory>
    requires { KeepsLimits source_limits source.now.net }
    ensures { IfOk result (λ names. names ≡ names_of (specified_by source.now)) }
{
    let net = source.net();
    let inputs = copies(alloc, net.inputs())?;
    let outputs = port_names(alloc, net)?;
    let model = net.model().copy(alloc)?;
    Ok(NetNames {
        model,
        inputs,
        outputs,
    })
}

/// What a network with don't cares specifies, at a polarity of its inputs.
fn net_source(alloc: Global, source: &Source, polarity: Polarity) -> Result<Sourced, Memory>
    requires limits { KeepsLimits source_limits source.now.net }
    requires inputs { polarity.n ≡ length source.now.net.inputs }
    ensures sourced { IfOk result (λ r. IsSourced (specified_by source.now) polarity (parts r.names (⟦<Store as FnStore>⟧.functions r.functions) r.outputs.items)) }
    ensures whole { IfOk result (λ r. IsWhole (parts r.names (⟦<Store as FnStore>⟧.functions r.functions) r.outputs.items)) }
{
    let names = net_names(alloc, source)?;
    let mut functions = Store::new(alloc, polarity)?;
    let outputs = source_values(alloc, &mut functions, source)?;
    Ok(Sourced {
        names,
        functions,
        outputs,
    })
}

/// Reads a source of the kind that is asked for.
pub fn read_source(alloc: Global, bytes: &[u8], settings: &Settings) -> Result<Sourced, SynthErr>
    requires { length bytes.now ≤ TEXT_BYTES }
    ensures sourced { IfOk result (λ r. SaysSourced settings.now bytes.now (parts r.names (⟦<Store as FnStore>⟧.functions r.functions) r.outputs.items)) }
    ensures whole { IfOk result (λ r. IsWhole (parts r.names (⟦<Store as FnStore>⟧.functions r.functions) r.outputs.items)) }
    ensures refused { (line : ℕ) (what : TextFault) → IsErrOf result (of_text line what) → source_says settings.now.kind bytes.now ≡ Err (line, what) }
    ensures bit_count { (given wanted : ℕ) → IsErrOf result (synth_err.BitCount given wanted) → HasOtherCount settings.now bytes.now given wanted }
    ensures no_terms { (output : ℕ) → ¬ (IsErrOf result (synth_err.TooManyTerms output)) }
{
    match settings.kind {
        SourceKind::Pla => {
            let cover = read_pla(alloc, bytes)?;
            let polarity = polarity_for(settings.polarity, cover.inputs().len() as u32)?;
            Ok(cover_source(alloc, &cover, polarity)?)
        }
        SourceKind::Blif => {
            source_law();
            let source = blif_read::read_source(alloc, bytes)?;
            let polarity = polarity_for(settings.polarity, source.net().inputs().len() as u32)?;
            Ok(net_source(alloc, &source, polarity)?)
        }
    }
}
