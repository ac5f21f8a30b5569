//! The call of `ae_lex`: texts cut into lines and words.

use ae_base::{Memory, TEXT_BYTES};
use ae_lex::{Line, Style, lines};
use std::alloc::Global;
use std::test::Fail;

/// A style, a text, and each of its lines as its number, a colon and its words, and then the number of physical lines.
static CUTS: [(Style, &str, &str); 19] = [
    (Style::Blif, "", "last 0"),
    (Style::Blif, "a", "1: a\nlast 1"),
    (Style::Blif, "a\n", "1: a\nlast 1"),
    (Style::Blif, "\n \t\r\na  b\tc\r\n", "3: a b c\nlast 3"),
    (Style::Blif, "a # b\n#c\nd", "1: a\n3: d\nlast 3"),
    (Style::Blif, "a \\\nb\nc", "1: a b\n3: c\nlast 3"),
    (Style::Blif, "a\\\nb", "1: a b\nlast 2"),
    (Style::Blif, "a \\ \t\r\nb", "1: a b\nlast 2"),
    (Style::Blif, "a \\ # c\nb", "1: a b\nlast 2"),
    (Style::Blif, "a # c \\\nb", "1: a\n2: b\nlast 2"),
    (Style::Blif, ".inputs a \\", "1: .inputs a\nlast 1"),
    (Style::Blif, "\\\n\\\na", "1: a\nlast 3"),
    (Style::Blif, "\\\n\nb", "3: b\nlast 3"),
    (Style::Blif, "x \\\\\n\ny", "1: x \\\n3: y\nlast 3"),
    (Style::Blif, "a\\b", "1: a\\b\nlast 1"),
    (Style::Pla, "", "last 0"),
    (Style::Pla, "# c\n.i 2 # d\n\n", "2: .i 2\nlast 3"),
    (Style::Pla, "1-0|1\r\n01\t1", "1: 1-0|1\n2: 01 1\nlast 2"),
    (Style::Pla, "a \\\nb", "1: a \\\n2: b\nlast 2"),
];

fn push_line(alloc: Global, out: &mut Vec<u8>, bytes: &[u8], line: &Line) -> Result<(), Memory> {
    out.extend_from_slice(format!(in alloc; "{}:", line.number)?.as_bytes())?;
    for word in line.words.as_slice() {
        out.push(b' ')?;
        let part = bytes.get(word.start as usize..word.end as usize);
        out.extend_from_slice(part.unwrap_or(b"?"))?;
    }
    out.push(b'\n')?;
    Ok(())
}

fn is_cut(alloc: Global, style: Style, text: &str, shown: &str) -> Result<bool, Memory> {
    let bytes = text.as_bytes();
    if bytes.len() > TEXT_BYTES {
        return Ok(false);
    }
    let found = lines(alloc, bytes, style)?;
    let mut out = Vec::new(alloc);
    for line in found.list.as_slice() {
        push_line(alloc, &mut out, bytes, line)?;
    }
    let last = format!(in alloc; "last {}", found.last)?;
    out.extend_from_slice(last.as_bytes())?;
    Ok(out.as_slice() == shown.as_bytes())
}

/// The place of the first text that is cut otherwise, where there is one.
fn first_other(alloc: Global) -> Result<Option<usize>, Memory> {
    for (i, (style, text, shown)) in CUTS.iter().enumerate() {
        if !is_cut(alloc, *style, text, shown)? {
            return Ok(Some(i));
        }
    }
    Ok(None)
}

#[test]
fn lines_and_words(rt: HostRuntime) -> Result<(), Fail> {
    let other = first_other(rt.alloc())?;
    assert_eq!(rt; other, None);
    Ok(())
}
