//! The call of `synth_core`: the two-input AND as a text of either kind, and texts that are refused.

use ae_base::{Form, TEXT_BYTES};
use blif_read::BlifFault;
use pla_read::PlaFault;
use std::alloc::Global;
use std::test::Fail;
use synth_core::{Choice, Made, Settings, SourceKind, Summary, SynthErr, synthesise};
use test_support::{AND_NET, AND_VECTORS, polarity, set};

static AND: &[u8] = b".i 2\n.o 1\n11 1\n.e\n";

static AND_IN_BLIF: &[u8] =
    b".model andexor\n.inputs x1 x2\n.outputs f1\n.names x1 x2 f1\n11 1\n.end\n";

fn positive(alloc: Global, kind: SourceKind, bytes: &[u8]) -> Result<Made, SynthErr> {
    if bytes.len() > TEXT_BYTES {
        return Err(SynthErr::Memory);
    }
    let settings = Settings {
        kind,
        form: Form::Reddy,
        polarity: Choice::Positive,
    };
    synthesise(alloc, bytes, &settings, &mut Vec::new(alloc))
}

fn has_its_numbers(summary: Summary) -> bool {
    summary
        == Summary {
            form: Form::Reddy,
            inputs: 2,
            outputs: 1,
            polarity: polarity(2, set(&[0, 1])),
            terms: 1,
            cubes: 0,
            gates: 2,
            faults: 20,
            vectors: 6,
            unchanged: 0,
        }
}

fn is_and(alloc: Global, kind: SourceKind, bytes: &[u8]) -> Result<bool, SynthErr> {
    let made = positive(alloc, kind, bytes)?;
    Ok(
        made.net_text.as_slice() == AND_NET
            && made.vec_text.as_slice() == AND_VECTORS
            && has_its_numbers(made.summary),
    )
}

#[test]
fn two_input_and(rt: HostRuntime) -> Result<(), Fail> {
    let alloc = rt.alloc();
    let of_pla = is_and(alloc, SourceKind::Pla, AND).unwrap_or(false);
    let of_blif = is_and(alloc, SourceKind::Blif, AND_IN_BLIF).unwrap_or(false);
    assert!(rt; of_pla && of_blif);
    Ok(())
}

/// Whether the text is refused for this.
fn refuses(alloc: Global, kind: SourceKind, bytes: &[u8], why: SynthErr) -> bool {
    match positive(alloc, kind, bytes) {
        Ok(_) => false,
        Err(error) => error == why,
    }
}

#[test]
fn a_row_of_another_width(rt: HostRuntime) {
    let text = b".i 2\n.o 1\n11\n.e\n".as_slice();
    let why = SynthErr::Pla {
        line: 3,
        what: PlaFault::BadWidth,
    };
    assert!(rt; refuses(rt.alloc(), SourceKind::Pla, text, why));
}

#[test]
fn a_row_of_another_number_of_pins(rt: HostRuntime) {
    let text = b".inputs a\n.outputs f\n.names a f\n11 1\n".as_slice();
    let why = SynthErr::Blif {
        line: 4,
        what: BlifFault::BadRow,
    };
    assert!(rt; refuses(rt.alloc(), SourceKind::Blif, text, why));
}
