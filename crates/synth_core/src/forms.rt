//! The texts of a network and of its vectors, in each form.
ghost use Rattle.std.specs.Prelude.{◌≡◌, ◌≤◌, IfOk};
ghost use Rattle.ae_base.specs.Source.{Source};
ghost use Rattle.ae_net.specs.Blif as blif;
ghost use Rattle.ae_base.specs.declared.limits.TheConstants.{FACTORED_CUBES, REDDY_TERMS};
ghost use Rattle.cascade.specs.Shows.{Fits};
ghost use Rattle.expansion.specs.Functions.{AreExpansions};
ghost use Rattle.expansion.specs.Terms.{cost};
ghost use Rattle.synth_core.specs.Asked.{terms_limit};
ghost use Rattle.synth_core.specs.Made.{AreNumbers, IsSynthesised, names_of, texts_of};
ghost use Rattle.synth_core.specs.Steps.{AreRewritten};
ghost use Rattle.ae_base.specs.declared.form.Form.TheVariants.{Reddy as reddy_form, Factored as factored_form};
ghost use Rattle.vec_text.specs.VectorFile.{vector_text};

use crate::laws::{factored_synthesis_law, synthesis_law};
use crate::made::{Made, Summary};
use crate::vector_files::{reddy_file, tested_file};
use ae_base::{Form, Memory};
use ae_net::{Net, NetNames, fault_count, valid_law};
use blif_write::blif_text;
use cascade::reddy;
use esop::{Esop, exorlink, from_expansion};
use expansion::{Expansion, pairs};
use factor::{factored, factored_law};
use std::alloc::Global;
use vec_text::{VecFile, vec_text};

/// The most terms of all outputs in a form.
pub fn limit_of(form: Form) -> u64
    ensures { result ≡ terms_limit form }
{
    form.features().most_terms
}

/// The numbers of the network of expansions and of its vector file.
fn summary(
    alloc: Global,
    names: &NetNames,
    e: &Expansion,
    net: &Net,
    file: &VecFile,
) -> Result<Summary, Memory>
    requires fits { Fits names.now e.now }
    requires polarity { file.now.polarity ≡ e.now.polarity }
    ensures { IfOk result (λ summary. (s : Source) → names.now ≡ names_of s → AreNumbers s e.now net.now file.now summary) }
{
    let faults = fault_count(alloc, net)?;
    Ok(Summary {
        form: file.form,
        inputs: e.inputs(),
        outputs: names.outputs().len() as u32,
        polarity: e.polarity(),
        terms: pairs(e),
        cubes: file.esop.len() as u64,
        gates: net.gates().len() as u64,
        faults,
        vectors: file.vectors.len() as u64,
        unchanged: file.unchanged.len() as u64,
    })
}

/// The texts of a network and of its vector file.
fn made_of(alloc: Global, net: &Net, file: &VecFile, summary: Summary) -> Result<Made, Memory>
    ensures { IfOk result (λ made. texts_of made ≡ record { net_text = blif.blif_text net.now; vec_text = vector_text file.now; summary = summary }) }
{
    let net_text = blif_text(alloc, net)?;
    let vec_text = vec_text(alloc, file)?;
    Ok(Made {
        net_text,
        vec_text,
        summary,
    })
}

/// The texts of the Reddy network of expansions and of its vectors.
fn reddy_texts(alloc: Global, names: &NetNames, e: &Expansion) -> Result<Made, Memory>
    requires fits { Fits names.now e.now }
    requires cheap { cost e.now ≤ REDDY_TERMS }
    ensures { IfOk result (λ made. (s : Source) → names.now ≡ names_of s → AreExpansions s e.now.polarity e.now → IsSynthesised reddy_form e.now.polarity s e.now (texts_of made)) }
{
    let net = reddy(alloc, names, e)?;
    let file = reddy_file(alloc, names, e, &net)?;
    let summary = summary(alloc, names, e, &net, &file)?;
    synthesis_law();
    made_of(alloc, &net, &file, summary)
}

/// The cubes of expansions, rewritten until they are settled.
fn rewritten_cubes(alloc: Global, e: &Expansion) -> Result<Esop, Memory>
    ensures { IfOk result (AreRewritten e.now) }
{
    let esop = from_expansion(alloc, e)?;
    exorlink(alloc, esop)
}

/// The texts of the factored network of expansions and of its vectors.
fn factored_texts(alloc: Global, names: &NetNames, e: &Expansion) -> Result<Made, Memory>
    requires fits { Fits names.now e.now }
    requires cheap { cost e.now ≤ FACTORED_CUBES }
    ensures { IfOk result (λ made. (s : Source) → names.now ≡ names_of s → AreExpansions s e.now.polarity e.now → IsSynthesised factored_form e.now.polarity s e.now (texts_of made)) }
{
    factored_synthesis_law();
    factored_law();
    let esop = rewritten_cubes(alloc, e)?;
    let net = factored(alloc, names, &esop)?;
    // Opened here, since their invariants are part of the file's.
    let _ = names.outputs();
    let _ = esop.lists();
    valid_law(&net);
    let file = tested_file(alloc, names, e.polarity(), &esop, &net)?;
    let summary = summary(alloc, names, e, &net, &file)?;
    made_of(alloc, &net, &file, summary)
}

/// The texts of the network of expansions in a form, and of its vectors.
pub fn texts(alloc: Global, form: Form, names: &NetNames, e: &Expansion) -> Result<Made, Memory>
    requires fits { Fits names.now e.now }
    requires cheap { cost e.now ≤ terms_limit form }
    ensures { IfOk result (λ made. (s : Source) → names.now ≡ names_of s → AreExpansions s e.now.polarity e.now → IsSynthesised form e.now.polarity s e.now (texts_of made)) }
{
    match form {
        Form::Reddy => reddy_texts(alloc, names, e),
        Form::Factored => factored_texts(alloc, names, e),
    }
}
