//! The vector files of networks.
ghost use Rattle.std.specs.Prelude.{◌≡◌, ◌≤◌, ◌++◌, [], IfOk, OnOk, length, map};
ghost use Rattle.ae_base.specs.Cube.{IsSigns};
ghost use Rattle.ae_base.specs.declared.limits.TheConstants.{REDDY_TERMS, SOURCE_LINES};
ghost use Rattle.cascade.specs.Shows.{Fits, reddy_net};
ghost use Rattle.expansion.specs.Terms.{cost};
ghost use Rattle.synth_core.specs.Made.{lines_from};
ghost use Rattle.synth_core.specs.Steps as spec;
ghost use Rattle.synth_core.specs.Steps.{AreReady, IsFactoredNet, IsTestedFile, file_over, vectors_of};
ghost use Rattle.ae_base.specs.declared.form.Form.TheVariants.{Reddy};
ghost use Rattle.vec_text.specs.VectorFile.{IsValidVectorFile};

use crate::laws::{factored_synthesis_law, synthesis_law};
use crate::listed::{Listing, tests_of};
use ae_base::{Cube, Form, Memory, Name, Point, Polarity, Seq, copies};
use ae_net::{Net, NetNames};
use esop::Esop;
use expansion::Expansion;
use fault_sim::responses;
use input_tests::cascade_vectors;
use std::alloc::Global;
use vec_text::{EsopLine, VecFile, Vector};

/// Each point with the network's fault-free outputs there.
fn vectors(alloc: Global, net: &Net, points: &[Point]) -> Result<Seq<Vector>, Memory>
    ensures { IfOk result (λ vectors. vectors ≡ vectors_of net.now points.now) }
{
    let outs = responses(alloc, net, points)?;
    let mut vectors = Seq::new(alloc);
    for (k, point) in points.iter().enumerate() {
        vectors.push(Vector {
            point: *point,
            outs: outs[k],
        })?;
    }
    Ok(vectors)
}

/// The vector file of a network in Reddy form over these points.
fn vector_file(
    alloc: Global,
    net: &Net,
    outputs: &[Name],
    polarity: Polarity,
    points: &[Point],
) -> Result<VecFile, Memory>
    requires { IsValidVectorFile (file_over Reddy net.now outputs.now polarity [] points.now []) }
    ensures { IfOk result (λ file. file ≡ file_over Reddy net.now outputs.now polarity [] points.now []) }
{
    let inputs = copies(alloc, net.inputs())?;
    let outputs = copies(alloc, outputs)?;
    let vectors = vectors(alloc, net, points)?;
    Ok(VecFile {
        form: Form::Reddy,
        inputs,
        outputs,
        polarity,
        esop: Seq::new(alloc),
        vectors,
        unchanged: Seq::new(alloc),
    })
}

/// The vector file of the Reddy network of expansions over the vectors of the cascade.
pub fn reddy_file(
    alloc: Global,
    names: &NetNames,
    e: &Expansion,
    net: &Net,
) -> Result<VecFile, Memory>
    requires net { net.now ≡ reddy_net names.now e.now }
    requires fits { Fits names.now e.now }
    requires cheap { cost e.now ≤ REDDY_TERMS }
    ensures file { IfOk result (λ file. file ≡ spec.reddy_file names.now e.now) }
    ensures ready { IfOk result (λ _. AreReady names.now e.now) }
{
    let outputs = names.outputs();
    let points = cascade_vectors(alloc, e)?;
    synthesis_law();
    vector_file(alloc, net, outputs, e.polarity(), &points)
}

/// Appends the cubes of an output.
fn push_cubes(lines: &mut Seq<EsopLine>, output: u32, cubes: &[Cube]) -> Result<(), Memory>
    ensures { OnOk result (lines.new ≡ lines.old ++ map (λ c. record { output = output; cube = c }) cubes.now) }
{
    for cube in cubes {
        lines.push(EsopLine {
            output,
            cube: *cube,
        })?;
    }
    Ok(())
}

/// The cubes of each output in order.
fn esop_lines(alloc: Global, esop: &Esop) -> Result<Seq<EsopLine>, Memory>
    requires { length esop.now.outs ≤ SOURCE_LINES }
    ensures { IfOk result (λ lines. lines ≡ lines_from 0 esop.now.outs) }
{
    let mut lines = Seq::new(alloc);
    let mut output = 0;
    for cubes in esop.lists() {
        push_cubes(&mut lines, output, cubes.as_slice())?;
        output += 1;
    }
    Ok(lines)
}

/// The vector file of a factored network of cubes over its tests.
fn factored_file(
    alloc: Global,
    names: &NetNames,
    polarity: Polarity,
    esop: &Esop,
    net: &Net,
    tests: Listing,
) -> Result<VecFile, Memory>
    requires valid { IsValidVectorFile (spec.factored_file names.now polarity esop.now net.now tests.points tests.unchanged) }
    requires few { length esop.now.outs ≤ SOURCE_LINES }
    ensures { IfOk result (λ file. file ≡ spec.factored_file names.now polarity esop.now net.now tests.points tests.unchanged) }
{
    let inputs = copies(alloc, net.inputs())?;
    let outputs = copies(alloc, names.outputs())?;
    let esop = esop_lines(alloc, esop)?;
    let vectors = vectors(alloc, net, tests.points.as_slice())?;
    Ok(VecFile {
        form: Form::Factored,
        inputs,
        outputs,
        polarity,
        esop,
        vectors,
        unchanged: tests.unchanged,
    })
}

/// The vector file of a factored network of cubes over its tests at a polarity.
pub fn tested_file(
    alloc: Global,
    names: &NetNames,
    polarity: Polarity,
    esop: &Esop,
    net: &Net,
) -> Result<VecFile, Memory>
    requires net { IsFactoredNet names.now esop.now net.now }
    requires signs { IsSigns polarity }
    requires inputs { polarity.n ≡ esop.now.n }
    ensures { IfOk result (IsTestedFile names.now polarity esop.now net.now) }
{
    factored_synthesis_law();
    let tests = tests_of(alloc, polarity, net)?;
    factored_file(alloc, names, polarity, esop, net, tests)
}
