//! What the words of a line say.
ghost use Rattle.std.specs.Prelude.{◌≡◌, ◌||◌, ◌≤◌, ◌<◌, if◌then◌else◌, Some, None, length, ◌==◌, [], ◌∷◌, map, bytes_eq, codes, IfSome, IfOk};
ghost use Rattle.std.specs.List.{list_all};
ghost use Rattle.ae_base.specs.Digits as digits;
ghost use Rattle.ae_base.specs.Name.{is_name};
ghost use Rattle.ae_base.specs.Twins.{is_among};
ghost use Rattle.ae_lex.specs.Slices.{texts};
ghost use Rattle.vec_text.specs.Words as spec;

use crate::file::{Shown, Vector};
use ae_base::{
    Cube, Form, Memory, Name, Polarity, Seq, Step, WIDTH, WRITTEN_LINES, are_literals, cube_of,
    is_name, read_bits, read_number,
};
use ae_lex::names_of;
use std::alloc::Global;

/// Whether a word is the other.
pub fn is_word(word: &[u8], other: &[u8]) -> bool
    ensures { result ≡ bytes_eq word.now other.now }
{
    word == other
}

/// Whether a line of these words is the head.
pub fn is_head(words: &[&[u8]]) -> bool
    ensures { result ≡ spec.is_head (texts words.now) }
{
    match words {
        [first, version] => is_word(first, b"andexor-vectors") && is_word(version, b"1"),
        _ => false,
    }
}

/// Whether nothing is read after a line of these words.
pub fn is_end(words: &[&[u8]]) -> bool
    ensures { result ≡ spec.is_end (texts words.now) }
{
    match words {
        [b"end", ..] => true,
        _ => false,
    }
}

/// One of the forms.
pub fn read_form(words: &[&[u8]]) -> Option<Form>
    ensures { result ≡ (if spec.is_form (texts words.now) then Some (spec.form_said (texts words.now)) else None) }
{
    match words {
        [word] => Form::of_word(word),
        _ => None,
    }
}

fn each_is_name(words: &[&[u8]]) -> bool
    ensures { result ≡ list_all is_name (texts words.now) }
{
    words.iter().all(|word| is_name(word))
}

/// Whether the words are one to `WRITTEN_LINES` names.
#[tactic(auto, unfolding(crate::specs::Words::are_names))]
fn are_names(words: &[&[u8]]) -> bool
    ensures { result ≡ spec.are_names (texts words.now) }
{
    !words.is_empty() && words.len() <= WRITTEN_LINES as usize && each_is_name(words)
}

/// One to `WRITTEN_LINES` names.
pub fn read_names(alloc: Global, words: &[&[u8]]) -> Result<Option<Seq<Name>>, Memory>
    ensures few { IfOk result (λ found. IfSome found (λ names. length names ≤ WRITTEN_LINES)) }
    ensures names { IfOk result (λ found. found ≡ (if spec.are_names (texts words.now) then Some (texts words.now) else None)) }
{
    if !are_names(words) {
        return Ok(None);
    }
    Ok(Some(names_of(alloc, words)?))
}

/// A number of 1 to 9 digits, from 1 to the limit.
pub fn read_count(limit: u32, word: &[u8]) -> Option<u32>
    ensures positive { IfSome result (λ n. 0 < n) }
    ensures number { result ≡ (if spec.is_count limit word.now then Some (digits.value word.now) else None) }
{
    let n = read_number(word)?;
    if n <= limit { Some(n) } else { None }
}

/// The polarity of n inputs that one word says.
#[tactic(auto, unfolding(ae_base::specs::Digits::are_bits, ae_base::specs::Digits::ones))]
pub fn polarity_of(n: u32, words: &[&[u8]]) -> Option<Polarity>
    requires { n ≤ WRITTEN_LINES }
    ensures { result ≡ (if spec.is_polarity n (texts words.now) then Some (spec.polarity_said (texts words.now)) else None) }
{
    match words {
        [word] => {
            let plain = read_bits(n, word)?;
            Some(Polarity { n, plain })
        }
        _ => None,
    }
}

/// The vector over n inputs, and its response over m outputs, that two words say.
pub fn vector_of(n: u32, m: u32, words: &[&[u8]]) -> Option<Vector>
    requires inputs { n ≤ WRITTEN_LINES }
    requires outputs { m ≤ WRITTEN_LINES }
    ensures { result ≡ (if spec.is_vector n m (texts words.now) then Some (spec.vector_said (texts words.now)) else None) }
{
    match words {
        [point, outs] => {
            let point = read_bits(n, point)?;
            let outs = read_bits(m, outs)?;
            Some(Vector { point, outs })
        }
        _ => None,
    }
}

/// The cube over n inputs that a word says.
#[tactic(auto, unfolding(crate::specs::Words::is_cube))]
pub fn read_cube(n: u32, word: &[u8]) -> Option<Cube>
    requires { n ≤ WIDTH }
    ensures { result ≡ (if spec.is_cube n word.now then Some (digits.cube_said word.now) else None) }
{
    if word.len() != n as usize {
        return None;
    }
    if !are_literals(word) {
        return None;
    }
    Some(cube_of(word))
}

/// A stuck value.
pub fn read_value(word: &[u8]) -> Option<bool>
    ensures { result ≡ (if is_among word.now (codes "0" ∷ codes "1" ∷ []) then Some (bytes_eq word.now (codes "1")) else None) }
{
    match word {
        b"0" => Some(false),
        b"1" => Some(true),
        _ => None,
    }
}

fn step_of(b: u8) -> Step
    ensures { result ≡ spec.step_said b }
{
    if b == b'S' { Step::S } else { Step::L }
}

fn steps_of(alloc: Global, word: &[u8]) -> Result<Seq<Step>, Memory>
    ensures { IfOk result (λ steps. steps ≡ map spec.step_said word.now) }
{
    let mut steps = Seq::new(alloc);
    for b in word {
        steps.push(step_of(*b))?;
    }
    Ok(steps)
}

fn each_is_step(word: &[u8]) -> bool
    ensures { result ≡ list_all (λ b. b == 83 || b == 76) word.now }
{
    word.iter().all(|b| *b == b'S' || *b == b'L')
}

/// `wide`, or a tree of one or more letters.
#[tactic(auto, unfolding(crate::specs::Words::is_tree, crate::specs::Words::shown_said))]
pub fn read_shown(alloc: Global, word: &[u8]) -> Result<Option<Shown>, Memory>
    ensures { IfOk result (λ found. found ≡ (if spec.is_tree word.now then Some (spec.shown_said word.now) else None)) }
{
    if is_word(word, b"wide") {
        return Ok(Some(Shown::Wide));
    }
    if word.is_empty() {
        return Ok(None);
    }
    if !each_is_step(word) {
        return Ok(None);
    }
    Ok(Some(Shown::Tree(steps_of(alloc, word)?)))
}
