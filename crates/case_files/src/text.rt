//! Texts, line by line.

use ae_base::Memory;
use std::alloc::Global;

/// Adds the bytes of these numbers. `false` where a word is no byte.
fn push_bytes(text: &mut Vec<u8>, numbers: &str) -> Result<bool, Memory> {
    for word in numbers.split(' ') {
        match word.parse::<u8>() {
            Ok(byte) => text.push(byte)?,
            Err(_) => return Ok(false),
        }
    }
    Ok(true)
}

/// Adds what a line of a text says. `false` where the line is none.
pub fn push_line(text: &mut Vec<u8>, line: &str) -> Result<bool, Memory> {
    if let Some(whole) = line.strip_prefix('|') {
        text.extend_from_slice(whole.as_bytes())?;
        text.push(b'\n')?;
        return Ok(true);
    }
    if let Some(part) = line.strip_prefix('+') {
        text.extend_from_slice(part.as_bytes())?;
        return Ok(true);
    }
    match line.strip_prefix("bytes ") {
        Some(numbers) => push_bytes(text, numbers),
        None => Ok(false),
    }
}

/// A number in decimal digits, with zeros in front up to a width.
fn digits(alloc: Global, number: u32, width: usize) -> Result<String, Memory> {
    let number = format!(in alloc; "{number}")?;
    let mut digits = String::new(alloc);
    for _ in number.len()..width {
        digits.push('0')?;
    }
    digits.push_str(&number)?;
    Ok(digits)
}

/// Adds what each line says. `false` where one is none of a text.
fn push_lines(text: &mut Vec<u8>, lines: &str) -> Result<bool, Memory> {
    for line in lines.lines() {
        if !push_line(text, line)? {
            return Ok(false);
        }
    }
    Ok(true)
}

/// Lines of a text once for each number, from the first to the last.
#[derive(Clone, Copy)]
pub struct Count<'a> {
    first: u32,
    last: u32,
    /// How many digits the first is written with.
    width: usize,
    pub line: &'a str,
}

impl<'a> Count<'a> {
    /// The two numbers and the line behind `count`, where they are some.
    pub fn of(line: &'a str) -> Option<Count<'a>> {
        let (digits, rest) = line.strip_prefix("count ")?.split_once(' ')?;
        let (last, line) = rest.split_once(' ')?;
        Some(Count {
            first: digits.parse::<u32>().ok()?,
            last: last.parse::<u32>().ok()?,
            width: digits.len(),
            line,
        })
    }

    /// Adds what the lines say for each number, which stands in place of each `%`.
    fn push_numbered(
        &self,
        alloc: Global,
        text: &mut Vec<u8>,
        lines: &str,
    ) -> Result<bool, Memory> {
        for number in self.first..=self.last {
            let digits = digits(alloc, number, self.width)?;
            let numbered = lines.replace(alloc, '%', &digits)?;
            if !push_lines(text, &numbered)? {
                return Ok(false);
            }
        }
        Ok(true)
    }

    /// Adds what the lines say, the same for each number.
    fn push_same(&self, alloc: Global, text: &mut Vec<u8>, lines: &str) -> Result<bool, Memory> {
        let mut piece = Vec::new(alloc);
        let are_lines = push_lines(&mut piece, lines)?;
        for _ in self.first..=self.last {
            text.extend_from_slice(&piece)?;
        }
        Ok(are_lines)
    }

    /// Adds what the lines say for each number. `false` where one is none of a text.
    pub fn push(&self, alloc: Global, text: &mut Vec<u8>, lines: &str) -> Result<bool, Memory> {
        if lines.contains('%') {
            self.push_numbered(alloc, text, lines)
        } else {
            self.push_same(alloc, text, lines)
        }
    }
}
