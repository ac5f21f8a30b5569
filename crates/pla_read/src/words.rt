//! What the words of a line say.
ghost use Rattle.std.specs.Prelude.{◌≡◌, ◌-◌, ◌≤◌, ◌<◌, true, if◌then◌else◌, Some, None, length, not, filter, ◌==◌, ◌++◌, All, IfSome, IfOk, OnOk};
ghost use Rattle.std.specs.List.{list_all};
ghost use Rattle.ae_base.specs.Name.{is_source_name};
ghost use Rattle.ae_cover.specs.Cover.{IsRow};
ghost use Rattle.ae_lex.specs.Slices.{texts};
ghost use Rattle.pla_read.specs.Words as spec;

use ae_base::{Memory, Name, SOURCE_LINES, Seq, cube_of, is_source_name, read_number};
use ae_cover::{Kind, Mark, Row};
use ae_lex::{is_one_of, names_of};
use std::alloc::Global;

/// Headers of other PLA dialects.
static UNSUPPORTED: [&[u8]; 6] = [
    b".phase",
    b".pair",
    b".symbolic",
    b".mv",
    b".kiss",
    b".label",
];

/// Whether a header is one of other PLA dialects.
pub fn is_unsupported(header: &[u8]) -> bool
    ensures { result ≡ spec.is_unsupported header.now }
{
    is_one_of(header, &UNSUPPORTED)
}

/// Whether nothing is read from a line of these words on.
pub fn is_end(words: &[&[u8]]) -> bool
    ensures { result ≡ spec.is_end (texts words.now) }
{
    match words {
        [b".e", ..] | [b".end", ..] => true,
        _ => false,
    }
}

/// One number.
pub fn read_count(words: &[&[u8]]) -> Option<u32>
    ensures positive { IfSome result (λ n. 0 < n) }
    ensures count { result ≡ (if spec.is_count (texts words.now) then Some (spec.count_said (texts words.now)) else None) }
{
    match words {
        [word] => read_number(word),
        _ => None,
    }
}

/// One of the four kinds.
pub fn read_kind(words: &[&[u8]]) -> Option<Kind>
    ensures { result ≡ (if spec.is_kind (texts words.now) then Some (spec.kind_said (texts words.now)) else None) }
{
    match words {
        [word] => kind_of(word),
        _ => None,
    }
}

fn kind_of(word: &[u8]) -> Option<Kind>
    ensures { result ≡ spec.kind_at word.now }
{
    match word {
        b"f" => Some(Kind::F),
        b"fd" => Some(Kind::Fd),
        b"fr" => Some(Kind::Fr),
        b"fdr" => Some(Kind::Fdr),
        _ => None,
    }
}

/// Whether the words are so many names of a source.
#[tactic(auto, unfolding(crate::specs::Words::are_names))]
fn are_names(n: u32, words: &[&[u8]]) -> bool
    ensures { result ≡ spec.are_names n (texts words.now) }
{
    words.len() == n as usize && each_is_name(words)
}

fn each_is_name(words: &[&[u8]]) -> bool
    ensures { result ≡ list_all is_source_name (texts words.now) }
{
    words.iter().all(|word| is_source_name(word))
}

/// So many names of a source.
pub fn read_names(alloc: Global, n: u32, words: &[&[u8]]) -> Result<Option<Seq<Name>>, Memory>
    ensures count { IfOk result (λ found. IfSome found (λ names. length names ≡ n)) }
    ensures named { IfOk result (λ found. IfSome found (λ names. All (λ name. is_source_name name ≡ true) names)) }
    ensures names { IfOk result (λ found. found ≡ (if spec.are_names n (texts words.now) then Some (texts words.now) else None)) }
{
    if !are_names(n, words) {
        return Ok(None);
    }
    Ok(Some(names_of(alloc, words)?))
}

/// The characters of a row.
pub fn join(alloc: Global, words: &[&[u8]]) -> Result<Vec<u8>, Memory>
    ensures { IfOk result (λ chars. chars.items ≡ spec.joined (texts words.now)) }
{
    let mut chars = Vec::new(alloc);
    for word in words {
        push_chars(&mut chars, word)?;
    }
    Ok(chars)
}

fn push_chars(chars: &mut Vec<u8>, word: &[u8]) -> Result<(), Memory>
    ensures { OnOk result (chars.new.items ≡ chars.old.items ++ filter (λ b. not (b == 124)) word.now) }
{
    for b in word {
        if *b != b'|' {
            chars.push(*b)?;
        }
    }
    Ok(())
}

fn is_input(b: u8) -> bool
    ensures { result ≡ spec.is_input b }
{
    b == b'0' || b == b'1' || b == b'-' || b == b'2'
}

fn is_output(b: u8) -> bool
    ensures { result ≡ spec.is_output b }
{
    b == b'0' || b == b'1' || b == b'-' || b == b'2' || b == b'3' || b == b'4' || b == b'~'
}

/// Whether all are characters of the input plane.
pub fn are_inputs(chars: &[u8]) -> bool
    ensures { result ≡ list_all spec.is_input chars.now }
{
    chars.iter().all(|b| is_input(*b))
}

/// Whether all are characters of the output plane.
pub fn are_outputs(chars: &[u8]) -> bool
    ensures { result ≡ list_all spec.is_output chars.now }
{
    chars.iter().all(|b| is_output(*b))
}

fn mark(b: u8) -> Mark
    ensures { result ≡ spec.mark b }
{
    match b {
        b'1' | b'4' => Mark::One,
        b'0' => Mark::Zero,
        b'-' | b'2' => Mark::Dash,
        _ => Mark::Void,
    }
}

/// The row of n inputs that characters say.
#[tactic(auto, unfolding(crate::specs::Words::row_of))]
pub fn row_of(alloc: Global, n: u32, chars: &[u8]) -> Result<Row, Memory>
    requires small { n ≤ SOURCE_LINES }
    requires long { n ≤ length chars.now }
    ensures fits { IfOk result (λ row. IsRow n (length chars.now - n) row) }
    ensures row { IfOk result (λ row. row ≡ spec.row_of n chars.now) }
{
    let (front, back) = chars.split_at(n as usize);
    let cube = cube_of(front);
    let mut outs = Seq::new(alloc);
    for b in back {
        outs.push(mark(*b))?;
    }
    Ok(Row { cube, outs })
}
