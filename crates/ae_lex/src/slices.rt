//! The words of lines as slices of their text.
ghost use Rattle.std.specs.Prelude.{◌≡◌, ◌≤◌, true, length, map, bytes_eq, All, IfOk};
ghost use Rattle.std.specs.List.{list_all, list_any};
ghost use Rattle.ae_base.specs.Name.{is_name};
ghost use Rattle.ae_lex.specs.Lines.{cut, cut_line, IsInside};
ghost use Rattle.ae_lex.specs.Slices.{texts};
ghost use Rattle.ae_lex.specs.Words as spec;

use crate::laws::words_law;
use crate::scan::lines;
use crate::text::{Line, LineList, Style};
use ae_base::{Memory, Name, Seq, TEXT_BYTES};
use std::alloc::Global;
use std::marker::Model;

/// A line of a text in words, with the number of its first physical line.
#[derive(Drop)]
pub struct WordLine<'a> {
    number: u32,
    words: Vec<&'a [u8]>,
}

impl<'a> Model for WordLine<'a> {
    ghost use Rattle.ae_lex.specs.Slices.{texts};
    ghost use Rattle.ae_lex.specs.Words as spec;

    ghost Value = { spec.WordLine };

    ghost view = { λ line. record { number = line.number; words = texts line.words.items } };
}

impl<'a> WordLine<'a> {
    /// The number of its first physical line, from 1 on.
    pub fn number(&self) -> u32
        ensures { result ≡ self.now.number }
    {
        self.number
    }

    /// Its words, in order.
    pub fn words(&self) -> &[&'a [u8]]
        ensures { texts result.now ≡ self.now.words }
    {
        self.words.as_slice()
    }
}

/// The lines with words, and the number of physical lines.
#[derive(Drop)]
pub struct WordLines<'a> {
    pub list: Seq<WordLine<'a>>,
    pub last: u32,
}

/// Whether a word is one of these.
pub fn is_one_of(word: &[u8], words: &[&[u8]]) -> bool
    ensures { result ≡ list_any (λ other. bytes_eq word.now other.now) words.now }
{
    words.iter().any(|other| word == *other)
}

/// The names that words are. `Memory` comes only for want of memory.
pub fn names_of(alloc: Global, words: &[&[u8]]) -> Result<Seq<Name>, Memory>
    requires { list_all is_name (texts words.now) ≡ true }
    ensures { IfOk result (λ names. names ≡ texts words.now) }
{
    let mut names = Seq::new(alloc);
    for word in words {
        names.push(Name::known(alloc, word)?)?;
    }
    Ok(names)
}

/// The words of a line of the text.
fn words_of<'a>(alloc: Global, bytes: &'a [u8], line: &Line) -> Result<Vec<&'a [u8]>, Memory>
    requires { All (IsInside bytes.now) line.now.words }
    ensures { IfOk result (λ words. texts words.items ≡ map (cut bytes.now) line.now.words) }
{
    let mut words = Vec::new(alloc);
    for span in line.words.as_slice() {
        words.push(&bytes[span.start as usize..span.end as usize])?;
    }
    Ok(words)
}

fn word_line<'a>(alloc: Global, bytes: &'a [u8], line: &Line) -> Result<WordLine<'a>, Memory>
    requires { All (IsInside bytes.now) line.now.words }
    ensures { IfOk result (λ found. found ≡ cut_line bytes.now line.now) }
{
    Ok(WordLine {
        number: line.number,
        words: words_of(alloc, bytes, line)?,
    })
}

/// The lines in words. The spans of each are dropped as soon as its words are cut.
fn cut_lines<'a>(
    alloc: Global,
    bytes: &'a [u8],
    lines: Vec<Line>,
) -> Result<Seq<WordLine<'a>>, Memory>
    requires { All (λ line. All (IsInside bytes.now) line.words) lines.items }
    ensures { IfOk result (λ list. list ≡ map (cut_line bytes.now) lines.items) }
{
    let mut list = Seq::new(alloc);
    for line in lines {
        list.push(word_line(alloc, bytes, &line)?)?;
    }
    Ok(list)
}

/// The lines of a text that have words, each cut into its words once, and the number of physical lines.
///
/// A text has at most `TEXT_BYTES` bytes. `Memory` comes only for want of memory.
pub fn word_lines<'a>(alloc: Global, bytes: &'a [u8], style: Style) -> Result<WordLines<'a>, Memory>
    requires { length bytes.now ≤ TEXT_BYTES }
    ensures list { IfOk result (λ found. found.list ≡ spec.word_lines style bytes.now) }
    ensures last { IfOk result (λ found. found.last ≡ spec.last_line bytes.now) }
{
    words_law();
    let LineList { list, last } = lines(alloc, bytes, style)?;
    let list = cut_lines(alloc, bytes, list.into_vec())?;
    Ok(WordLines { list, last })
}
