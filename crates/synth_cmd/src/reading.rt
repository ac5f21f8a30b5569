//! The files that a command reads, each whole.
ghost use Rattle.std.specs.Prelude.{◌≡◌, ◌≤◌, [], ◌∷◌, IfOk, OnOk, length};
ghost use Rattle.ae_outside.specs.Counts.{CountsAt};
ghost use Rattle.synth_cmd.specs.Outside.{CountsAmong};
ghost use Rattle.synth_cmd.specs.Telling.{ReadsTexts};

use crate::stop::{Refusal, Unmade};
use crate::words::PairNames;
use ae_base::TEXT_BYTES;
use ae_outside::{Files, ReadErr, read_whole};
use std::alloc::Global;

/// The bytes of a netlist and of a vector file.
#[derive(Drop)]
pub struct PairTexts {
    pub net: Vec<u8>,
    pub vectors: Vec<u8>,
}

/// Reads a file.
pub fn read_text<'a, F: Files>(
    alloc: Global,
    files: &mut F,
    file: &'a str,
) -> Result<Vec<u8>, Unmade<'a>>
    ensures texts { ReadsTexts (λ bytes. bytes.items ∷ []) (F.held files.old) (F.read_faults files.old) (F.read_faults files.new) (file.now ∷ []) result }
    ensures short { IfOk result (λ bytes. length bytes.items ≤ TEXT_BYTES) }
    ensures stays { F.held files.new ≡ F.held files.old }
    ensures quiet { OnOk result (F.read_faults files.new ≡ F.read_faults files.old) }
    ensures reads { CountsAt file.now (F.read_faults files.old) (F.read_faults files.new) }
    ensures writes { F.write_faults files.new ≡ F.write_faults files.old }
{
    match read_whole(alloc, files, file, TEXT_BYTES as u64) {
        Ok(bytes) => Ok(bytes),
        Err(ReadErr::Fault) => Err(Unmade::Refused(Refusal::ReadFault { file })),
        Err(ReadErr::TooLong) => Err(Unmade::Refused(Refusal::TooLong { file })),
        Err(ReadErr::Memory) => Err(Unmade::Memory),
    }
}

/// Reads the netlist, and then the vector file.
pub fn read_pair<'a, F: Files>(
    alloc: Global,
    files: &mut F,
    names: &PairNames<'a>,
) -> Result<PairTexts, Unmade<'a>>
    ensures texts { ReadsTexts (λ texts. texts.net.items ∷ texts.vectors.items ∷ []) (F.held files.old) (F.read_faults files.old) (F.read_faults files.new) (names.now.net.now ∷ names.now.vectors.now ∷ []) result }
    ensures net_short { IfOk result (λ texts. length texts.net.items ≤ TEXT_BYTES) }
    ensures vectors_short { IfOk result (λ texts. length texts.vectors.items ≤ TEXT_BYTES) }
    ensures stays { F.held files.new ≡ F.held files.old }
    ensures quiet { OnOk result (F.read_faults files.new ≡ F.read_faults files.old) }
    ensures reads { CountsAmong (names.now.net.now ∷ names.now.vectors.now ∷ []) (F.read_faults files.old) (F.read_faults files.new) }
    ensures writes { F.write_faults files.new ≡ F.write_faults files.old }
{
    let net = match read_text(alloc, files, names.net) {
        Ok(bytes) => bytes,
        Err(unmade) => return Err(unmade),
    };
    match read_text(alloc, files, names.vectors) {
        Ok(vectors) => Ok(PairTexts { net, vectors }),
        Err(unmade) => Err(unmade),
    }
}
