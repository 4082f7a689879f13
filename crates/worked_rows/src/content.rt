//! The bytes that a line of a row gives: to the script, to the text that is wanted, or to a file.
use crate::row_error::RowError;
use std::alloc::Global;

/// What the letter behind the sign of a line says of its text.
#[derive(Clone, Copy)]
enum Spelling {
    /// ` `: a line, which ends in LF.
    Line,
    /// `+`: a text without LF.
    Text,
    /// `x`: bytes in hexadecimal, two digits for each, parted by spaces.
    Hexadecimal,
    /// `*`: a number, and the text that is repeated so often.
    Repeated,
    /// `#`: the first and the last number, how many letters a `%` is, and a line in which `#` is each of the numbers in turn.
    Numbered,
}

fn spelling_of(letter: u8) -> Result<Spelling, RowError> {
    match letter {
        b' ' => Ok(Spelling::Line),
        b'+' => Ok(Spelling::Text),
        b'x' => Ok(Spelling::Hexadecimal),
        b'*' => Ok(Spelling::Repeated),
        b'#' => Ok(Spelling::Numbered),
        _ => Err(RowError::BadLine),
    }
}

/// A decimal number.
pub fn number(text: &str) -> Result<u32, RowError> {
    text.parse::<u32>().map_err(|_| RowError::BadLine)
}

/// The text without the space that it begins with.
fn behind_space(text: &str) -> &str {
    text.strip_prefix(' ').unwrap_or(text)
}

/// The word before the first space, and what stands behind that.
pub fn word(text: &str) -> (&str, &str) {
    text.split_once(' ').unwrap_or((text, ""))
}

fn put_hexadecimal(alloc: Global, text: &str, out: &mut Vec<u8>) -> Result<(), RowError> {
    for pair in text.split_whitespace() {
        let bytes = hex::decode(alloc, pair).map_err(|_| RowError::BadLine)?;
        out.extend_from_slice(bytes.as_slice())?;
    }
    Ok(())
}

fn put_repeated(text: &str, out: &mut Vec<u8>) -> Result<(), RowError> {
    let (count, repeated) = word(text);
    for _ in 0..number(count)? {
        out.extend_from_slice(repeated.as_bytes())?;
    }
    Ok(())
}

fn put_letters(count: u32, out: &mut Vec<u8>) -> Result<(), RowError> {
    for _ in 0..count {
        out.push(b'a')?;
    }
    Ok(())
}

/// The line for one number.
fn put_line(
    alloc: Global,
    line: &str,
    n: u32,
    letters: u32,
    out: &mut Vec<u8>,
) -> Result<(), RowError> {
    let decimal = format!(in alloc; "{n}")?;
    for byte in line.as_bytes() {
        match *byte {
            b'#' => out.extend_from_slice(decimal.as_bytes())?,
            b'%' => put_letters(letters, out)?,
            other => out.push(other)?,
        }
    }
    out.push(b'\n')?;
    Ok(())
}

fn put_numbered(alloc: Global, text: &str, out: &mut Vec<u8>) -> Result<(), RowError> {
    let (first, rest) = word(text);
    let (last, rest) = word(rest);
    let (letters, line) = word(rest);
    let letters = number(letters)?;
    for n in number(first)?..=number(last)? {
        put_line(alloc, line, n, letters, out)?;
    }
    Ok(())
}

/// Appends the bytes of a line, from the letter behind its sign on.
pub fn put_content(alloc: Global, text: &str, out: &mut Vec<u8>) -> Result<(), RowError> {
    let Some(letter) = text.as_bytes().first() else {
        out.push(b'\n')?;
        return Ok(());
    };
    let spelling = spelling_of(*letter)?;
    let text = text.get(1..).ok_or(RowError::BadLine)?;
    match spelling {
        Spelling::Line => {
            out.extend_from_slice(text.as_bytes())?;
            out.push(b'\n')?;
            Ok(())
        }
        Spelling::Text => Ok(out.extend_from_slice(text.as_bytes())?),
        Spelling::Hexadecimal => put_hexadecimal(alloc, text, out),
        Spelling::Repeated => put_repeated(behind_space(text), out),
        Spelling::Numbered => put_numbered(alloc, behind_space(text), out),
    }
}
