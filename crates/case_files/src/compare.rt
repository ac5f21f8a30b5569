//! What is wanted against what came, and a line for each difference.

use ae_base::Memory;

/// The most bytes of a line that are shown.
const SHOWN: usize = 60;

/// Adds a byte in print.
fn push_shown(out: &mut String, byte: u8) -> Result<(), Memory> {
    match byte {
        b' '..=b'~' => out.push(char::from(byte))?,
        _ => write!(out, "\\x{byte:02x}")?,
    }
    Ok(())
}

/// Adds what stands from a place on up to the end of its line, or that nothing does.
fn push_rest(out: &mut String, text: &[u8], place: usize) -> Result<(), Memory> {
    let rest = text.get(place..).unwrap_or(&[]);
    if rest.is_empty() {
        out.push_str("nothing more")?;
        return Ok(());
    }
    out.push('`')?;
    for byte in rest.iter().take(SHOWN) {
        push_shown(out, *byte)?;
        if *byte == b'\n' {
            break;
        }
    }
    out.push('`')?;
    Ok(())
}

/// How many bytes in front are the same in both.
fn same_bytes(one: &[u8], other: &[u8]) -> usize {
    one.iter()
        .zip(other.iter())
        .take_while(|pair| pair.0 == pair.1)
        .count()
}

/// Adds the first line in which two texts differ, as it is wanted and as it came.
fn push_texts(out: &mut String, wanted: &[u8], came: &[u8]) -> Result<(), Memory> {
    let place = same_bytes(wanted, came);
    let same = wanted.get(..place).unwrap_or(&[]);
    let line = same.split(|byte| *byte == b'\n').count();
    let in_line = same.iter().rev().take_while(|byte| **byte != b'\n').count();
    let start = place.saturating_sub(in_line.min(SHOWN / 2));
    write!(out, "line {line}: wanted ")?;
    push_rest(out, wanted, start)?;
    out.push_str(", came ")?;
    push_rest(out, came, start)
}

/// Adds a line where a text is not the one that is wanted, or is there where none is.
pub fn compare(
    out: &mut String,
    case: &str,
    what: &str,
    wanted: Option<&[u8]>,
    came: Option<&[u8]>,
) -> Result<(), Memory> {
    if wanted == came {
        return Ok(());
    }
    write!(out, "{case}: {what}: ")?;
    match (wanted, came) {
        (Some(wanted), Some(came)) => push_texts(out, wanted, came)?,
        (Some(_), None) => out.push_str("wanted, and is not there")?,
        _ => out.push_str("not wanted, and is there")?,
    }
    out.push('\n')?;
    Ok(())
}

/// Adds a line where a status is not the one that is wanted.
pub fn compare_status(
    out: &mut String,
    case: &str,
    wanted: Option<u8>,
    came: u8,
) -> Result<(), Memory> {
    match wanted {
        Some(status) if status == came => {}
        Some(status) => writeln!(out, "{case}: status: wanted {status}, came {came}")?,
        None => writeln!(out, "{case}: status: none is wanted, came {came}")?,
    }
    Ok(())
}
