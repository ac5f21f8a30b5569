//! The text of a vector file.
ghost use Rattle.std.specs.Prelude.{◌≡◌, ◌+◌, ◌++◌, ◌∷◌, [], length, map, ◌<◌, OnOk, IfOk, All};
ghost use Rattle.std.specs.List.{flat_map};
ghost use Rattle.std.specs.Fmt.{decimal};
ghost use Rattle.ae_base.specs.Text.{text_of, cube_text};
ghost use Rattle.vec_text.specs.Lines as lines;
ghost use Rattle.vec_text.specs.VectorFile as spec;

use crate::file::{EsopLine, Idle, PlaceName, Shown, VecFile, Vector};
use ae_base::{
    Cube, Form, Memory, Name, Polarity, Step, WRITTEN_LINES, push_bits, push_names, push_word,
};
use std::alloc::Global;

/// Writes a blank and a number.
fn push_number(alloc: Global, out: &mut Vec<u8>, number: u32) -> Result<(), Memory>
    ensures { OnOk result (out.new.items ≡ out.old.items ++ 32 ∷ decimal number) }
{
    let digits = format!(in alloc; "{number}")?;
    push_word(out, digits.as_bytes())
}

/// Writes the text of a cube over `n` inputs.
fn push_cube(out: &mut Vec<u8>, n: u32, cube: Cube) -> Result<(), Memory>
    ensures { OnOk result (out.new.items ≡ out.old.items ++ cube_text n cube) }
{
    for j in 0..n {
        out.push(cube.literal_text(j))?;
    }
    Ok(())
}

/// Writes the line of a cube over `n` inputs.
fn push_esop_line(alloc: Global, out: &mut Vec<u8>, n: u32, line: &EsopLine) -> Result<(), Memory>
    requires { line.now.output < WRITTEN_LINES }
    ensures { OnOk result (out.new.items ≡ out.old.items ++ text_of (spec.esop_line n line.now ∷ [])) }
{
    out.extend_from_slice(b"esop")?;
    push_number(alloc, out, line.output + 1)?;
    out.push(b' ')?;
    push_cube(out, n, line.cube)?;
    out.push(b'\n')?;
    Ok(())
}

fn push_esop(alloc: Global, out: &mut Vec<u8>, n: u32, lines: &[EsopLine]) -> Result<(), Memory>
    requires { All (λ line. line.output < WRITTEN_LINES) lines.now }
    ensures { OnOk result (out.new.items ≡ out.old.items ++ text_of (map (spec.esop_line n) lines.now)) }
{
    for line in lines {
        push_esop_line(alloc, out, n, line)?;
    }
    Ok(())
}

/// Writes the line of a vector over `n` inputs with its response over `m` outputs.
fn push_vector(out: &mut Vec<u8>, n: u32, m: u32, vector: &Vector) -> Result<(), Memory>
    ensures { OnOk result (out.new.items ≡ out.old.items ++ text_of (spec.vector_line n m vector.now ∷ [])) }
{
    out.extend_from_slice(b"vector ")?;
    push_bits(out, n, vector.point)?;
    out.push(b' ')?;
    push_bits(out, m, vector.outs)?;
    out.push(b'\n')?;
    Ok(())
}

fn push_vectors(out: &mut Vec<u8>, n: u32, m: u32, vectors: &[Vector]) -> Result<(), Memory>
    ensures { OnOk result (out.new.items ≡ out.old.items ++ text_of (map (spec.vector_line n m) vectors.now)) }
{
    for vector in vectors {
        push_vector(out, n, m, vector)?;
    }
    Ok(())
}

/// Writes the line of the form. After want of memory some of it may stand.
pub fn push_form(out: &mut Vec<u8>, form: Form) -> Result<(), Memory>
    ensures { OnOk result (out.new.items ≡ out.old.items ++ text_of (spec.form_line form ∷ [])) }
{
    out.extend_from_slice(b"form")?;
    push_word(out, form.word().as_bytes())?;
    out.push(b'\n')?;
    Ok(())
}

/// Writes a line of a word and names.
fn push_list(out: &mut Vec<u8>, word: &[u8], names: &[Name]) -> Result<(), Memory>
    ensures { OnOk result (out.new.items ≡ out.old.items ++ text_of ((word.now ∷ names.now) ∷ [])) }
{
    out.extend_from_slice(word)?;
    push_names(out, names)?;
    out.push(b'\n')?;
    Ok(())
}

/// Writes the line of the polarity: a digit for each of its inputs, 1 where the literal is plain. After want of memory some of it may
/// stand.
pub fn push_polarity(out: &mut Vec<u8>, polarity: Polarity) -> Result<(), Memory>
    ensures { OnOk result (out.new.items ≡ out.old.items ++ text_of (spec.polarity_line polarity ∷ [])) }
{
    out.extend_from_slice(b"polarity ")?;
    push_bits(out, polarity.n, polarity.plain)?;
    out.push(b'\n')?;
    Ok(())
}

/// Writes the head and the line of the form.
fn push_title(out: &mut Vec<u8>, form: Form) -> Result<(), Memory>
    ensures { OnOk result (out.new.items ≡ out.old.items ++ text_of (lines.title_lines form)) }
{
    out.extend_from_slice(b"andexor-vectors 1\n")?;
    push_form(out, form)?;
    Ok(())
}

/// Writes the lines of the inputs and of the outputs.
fn push_lists(out: &mut Vec<u8>, inputs: &[Name], outputs: &[Name]) -> Result<(), Memory>
    ensures { OnOk result (out.new.items ≡ out.old.items ++ text_of (lines.list_lines inputs.now outputs.now)) }
{
    push_list(out, b"inputs", inputs)?;
    push_list(out, b"outputs", outputs)?;
    Ok(())
}

/// Writes the lines before the vectors.
fn push_head(out: &mut Vec<u8>, file: &VecFile) -> Result<(), Memory>
    ensures { OnOk result (out.new.items ≡ out.old.items ++ text_of (lines.head_lines file.now)) }
{
    push_title(out, file.form)?;
    push_lists(out, file.inputs.as_slice(), file.outputs.as_slice())?;
    push_polarity(out, file.polarity)?;
    Ok(())
}

/// Writes the words of a fault site, each after a blank.
fn push_place(alloc: Global, out: &mut Vec<u8>, place: &PlaceName) -> Result<(), Memory>
    ensures { OnOk result (out.new.items ≡ out.old.items ++ flat_map (λ w. 32 ∷ w) (spec.place_words place.now)) }
{
    match place {
        PlaceName::Stem(name) => {
            push_word(out, b"stem")?;
            push_word(out, name.bytes())
        }
        PlaceName::Pin(gate, k) => {
            push_word(out, b"pin")?;
            push_word(out, gate.bytes())?;
            push_number(alloc, out, *k)
        }
        PlaceName::Port(name) => {
            push_word(out, b"port")?;
            push_word(out, name.bytes())
        }
    }
}

fn value_word(value: bool) -> &'static [u8]
    ensures { result.now ≡ spec.value_word value }
{
    if value { b"1" } else { b"0" }
}

fn letter(step: Step) -> u8
    ensures { result ≡ spec.letter step }
{
    match step {
        Step::S => b'S',
        Step::L => b'L',
    }
}

fn push_steps(out: &mut Vec<u8>, steps: &[Step]) -> Result<(), Memory>
    ensures { OnOk result (out.new.items ≡ out.old.items ++ map spec.letter steps.now) }
{
    for step in steps {
        out.push(letter(*step))?;
    }
    Ok(())
}

/// Writes the word that shows why a fault is undetectable.
fn push_shown(out: &mut Vec<u8>, shown: &Shown) -> Result<(), Memory>
    ensures { OnOk result (out.new.items ≡ out.old.items ++ spec.shown_word shown.now) }
{
    match shown {
        Shown::Tree(steps) => push_steps(out, steps.as_slice()),
        Shown::Wide => {
            out.extend_from_slice(b"wide")?;
            Ok(())
        }
    }
}

/// Writes the line of an undetectable fault.
fn push_idle(alloc: Global, out: &mut Vec<u8>, idle: &Idle) -> Result<(), Memory>
    ensures { OnOk result (out.new.items ≡ out.old.items ++ text_of (spec.unchanged_line idle.now ∷ [])) }
{
    out.extend_from_slice(b"unchanged")?;
    push_place(alloc, out, &idle.place)?;
    push_word(out, value_word(idle.value))?;
    out.push(b' ')?;
    push_shown(out, &idle.shown)?;
    out.push(b'\n')?;
    Ok(())
}

fn push_unchanged(alloc: Global, out: &mut Vec<u8>, list: &[Idle]) -> Result<(), Memory>
    ensures { OnOk result (out.new.items ≡ out.old.items ++ text_of (map spec.unchanged_line list.now)) }
{
    for idle in list {
        push_idle(alloc, out, idle)?;
    }
    Ok(())
}

/// Writes the lines after those of the head.
fn push_body(alloc: Global, out: &mut Vec<u8>, file: &VecFile) -> Result<(), Memory>
    ensures { OnOk result (out.new.items ≡ out.old.items ++ text_of (lines.body_lines file.now)) }
{
    let n = file.inputs.len() as u32;
    let m = file.outputs.len() as u32;
    push_esop(alloc, out, n, file.esop.as_slice())?;
    push_vectors(out, n, m, file.vectors.as_slice())?;
    push_unchanged(alloc, out, file.unchanged.as_slice())?;
    out.extend_from_slice(b"end\n")?;
    Ok(())
}

/// The text of a vector file: its head, the form, the names, the polarity, a line for each cube, for each vector and for each
/// undetectable fault in the order of their lists, and the end. `Memory` comes only for want of memory, and is the one error.
#[tactic(auto, unfolding(crate::specs::VectorFile::vector_text))]
pub fn vec_text(alloc: Global, file: &VecFile) -> Result<Vec<u8>, Memory>
    ensures { IfOk result (λ bytes. bytes.items ≡ spec.vector_text file.now) }
{
    let mut out = Vec::new(alloc);
    push_head(&mut out, file)?;
    push_body(alloc, &mut out, file)?;
    Ok(out)
}
