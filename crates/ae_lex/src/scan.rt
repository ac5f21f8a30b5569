//! Cuts a text into lines and words.
ghost use Rattle.std.specs.Prelude.{[], ◌≡◌, ◌+◌, ◌-◌, ◌<◌, ◌≤◌, ◌==◌, ◌^◌, ◌∷◌, ◌++◌, not, length, take, drop, All, IfOk, OnOk};
ghost use Rattle.std.specs.List.{position_or_len};
ghost use Rattle.ae_lex.specs.Lines as spans;
ghost use Rattle.ae_lex.specs.Scan.{front_word, lines_from, last_from};
ghost use Rattle.ae_lex.specs.Words as spec;

use crate::text::{Line, LineList, Span, Style};
use ae_base::{Memory, Seq, TEXT_BYTES};
use std::alloc::Global;

fn is_blank(b: u8) -> bool
    ensures { result ≡ spec.is_blank b }
{
    b == b' ' || b == b'\t' || b == b'\r'
}

/// The number of bytes before the first of this kind.
fn len_before(bytes: &[u8], stop: u8) -> usize
    ensures len { result ≡ position_or_len (λ b. b == stop) bytes.now }
    ensures within { result ≤ length bytes.now }
{
    bytes.iter().take_while(|b| **b != stop).count()
}

/// The number of bytes before the first blank.
fn word_len(bytes: &[u8]) -> usize
    ensures len { result ≡ position_or_len spec.is_blank bytes.now }
    ensures within { result ≤ length bytes.now }
{
    bytes.iter().take_while(|b| !is_blank(**b)).count()
}

fn uncommented(line: &[u8]) -> &[u8]
    ensures within { length result.now ≤ length line.now }
    ensures bytes { result.now ≡ spec.uncommented line.now }
{
    &line[..len_before(line, b'#')]
}

fn trimmed(text: &[u8]) -> &[u8]
    ensures within { length result.now ≤ length text.now }
    ensures bytes { result.now ≡ spec.trimmed text.now }
{
    let mut end = text.len();
    while end > 0 && is_blank(text[end - 1]) {
        end -= 1;
    }
    &text[..end]
}

/// Adds the word of so many bytes, where there are any.
fn push_word(words: &mut Vec<Span>, start: u32, len: u32) -> Result<(), Memory>
    requires { start + len < 2 ^ 32 }
    ensures { OnOk result (words.new.items ≡ words.old.items ++ front_word start len) }
{
    if len > 0 {
        words.push(Span {
            start,
            end: start + len,
        })?;
    }
    Ok(())
}

/// Adds the words of a text that stands from `start` on.
fn push_words(words: &mut Vec<Span>, start: u32, text: &[u8]) -> Result<(), Memory>
    requires { start + length text.now < 2 ^ 32 }
    ensures { OnOk result (words.new.items ≡ words.old.items ++ spans.words_at start text.now) }
{
    let mut at = 0;
    while at < text.len() {
        let len = word_len(&text[at..]);
        push_word(words, start + at as u32, len as u32)?;
        at += len + 1;
    }
    Ok(())
}

/// The physical line at the front, without the byte 10 that ends it.
fn front_line(bytes: &[u8]) -> &[u8]
    ensures bytes { result.now ≡ take (position_or_len (λ b. b == 10) bytes.now) bytes.now }
    ensures len { length result.now ≡ position_or_len (λ b. b == 10) bytes.now }
    ensures within { length result.now ≤ length bytes.now }
{
    &bytes[..len_before(bytes, b'\n')]
}

/// The part of a physical line that says something, and whether the next line joins it.
fn said(style: Style, line: &[u8]) -> (&[u8], bool)
    ensures within { length result.0.now ≤ length line.now }
    ensures said { result.0.now ≡ spec.said style line.now }
    ensures joins { result.1 ≡ spec.joins_next style line.now }
{
    let text = uncommented(line);
    match style {
        Style::Pla => (text, false),
        Style::Blif => {
            let text = trimmed(text);
            if !text.is_empty() && text[text.len() - 1] == b'\\' {
                (&text[..text.len() - 1], true)
            } else {
                (text, false)
            }
        }
    }
}

/// A place in a text where a physical line starts, and the number of that line.
#[derive(Clone, Copy)]
struct Place {
    at: usize,
    number: u32,
}

/// Reads one line with all that join it, and answers the place after it.
fn read_line(
    words: &mut Vec<Span>,
    bytes: &[u8],
    style: Style,
    place: Place,
) -> Result<Place, Memory>
    requires small { length bytes.now ≤ TEXT_BYTES }
    requires within { place.at < length bytes.now }
    requires counted { place.number ≤ place.at + 1 }
    requires none { words.old.items ≡ [] }
    ensures line { IfOk result (λ after. lines_from style place bytes.now
        ≡ record { number = place.number; words = words.new.items } ∷ lines_from style after bytes.now) }
    ensures last { IfOk result (λ after. last_from after bytes.now ≡ last_from place bytes.now) }
    ensures further { IfOk result (λ after. (place.at < after.at) × (place.number < after.number) × (after.number ≤ after.at + 1)) }
{
    let mut after = place;
    loop {
        let line = front_line(&bytes[after.at..]);
        let (text, joins) = said(style, line);
        push_words(words, after.at as u32, text)?;
        after = Place {
            at: after.at + line.len() + 1,
            number: after.number + 1,
        };
        if !joins {
            return Ok(after);
        }
        if after.at >= bytes.len() {
            return Ok(after);
        }
    }
}

/// The lines of a text that have words, each word by its place in the text, and the number of physical lines.
///
/// A text has at most `TEXT_BYTES` bytes. `Memory` comes only for want of memory. What the lines are in words is said by `words_law`.
pub fn lines(alloc: Global, bytes: &[u8], style: Style) -> Result<LineList, Memory>
    requires { length bytes.now ≤ TEXT_BYTES }
    ensures lines { IfOk result (λ found. found ≡ spans.lines_of style bytes.now) }
    ensures inside { IfOk result (λ found. All (λ line. All (spans.IsInside bytes.now) line.words) found.list) }
{
    let mut list = Seq::new(alloc);
    let mut place = Place { at: 0, number: 1 };
    while place.at < bytes.len() {
        let number = place.number;
        let mut words = Vec::new(alloc);
        place = read_line(&mut words, bytes, style, place)?;
        if !words.is_empty() {
            list.push(Line {
                number,
                words: Seq::from_vec(words),
            })?;
        }
    }
    Ok(LineList {
        list,
        last: place.number - 1,
    })
}
