//! Strings of one component, of `int` or of `text`, and their texts. The plain reader of a table reads keys by it.
use crate::bytes::{byte, number, span};
use crate::reader_error::ReaderError;
use std::alloc::Global;

/// The type of a component.
#[derive(Clone, Copy)]
pub enum Kind {
    Int,
    Text,
}

/// The bytes between the two that stand around a string's one component.
fn inside(string: &[u8]) -> Option<&[u8]> {
    match string {
        [0x40, inner @ .., 0x38] => Some(inner),
        _ => None,
    }
}

/// How many bytes FE stand from a place on.
fn run_of(bytes: &[u8], at: u64) -> u64 {
    let mut count = 0u64;
    for i in at..bytes.len() as u64 {
        if byte(bytes, i) != Some(0xfe) {
            break;
        }
        count = count.wrapping_add(1);
    }
    count
}

fn put_zeros(count: u64, out: &mut Vec<u8>) -> Result<(), ReaderError> {
    for _ in 0..count {
        out.push(0)?;
    }
    Ok(())
}

/// A run of zeros in an encoded text: how many there are, and where the text goes on, if it does.
#[derive(Clone, Copy)]
struct Zeros {
    count: u64,
    on: Option<u64>,
}

/// The zeros of the run that begins at a place: FF ends it before a byte that is none, and the last run ends the text.
fn zeros_at(inner: &[u8], at: u64) -> Option<Zeros> {
    let more = run_of(inner, at.saturating_add(1));
    let behind = at.saturating_add(more).saturating_add(1);
    if behind == inner.len() as u64 {
        return Some(Zeros {
            count: more,
            on: None,
        });
    }
    let next = byte(inner, behind.saturating_add(1)).unwrap_or(0);
    if byte(inner, behind) != Some(0xff) || next == 0 {
        return None;
    }
    Some(Zeros {
        count: more.saturating_add(1),
        on: Some(behind.saturating_add(1)),
    })
}

/// Puts the bytes of an encoded text, and answers whether it is one.
fn put_bytes(inner: &[u8], out: &mut Vec<u8>) -> Result<bool, ReaderError> {
    let mut at = 0u64;
    for _ in 0..inner.len() {
        let Some(b) = byte(inner, at) else {
            return Ok(false);
        };
        if b != 0 {
            out.push(b)?;
            at = at.saturating_add(1);
            continue;
        }
        let Some(zeros) = zeros_at(inner, at) else {
            return Ok(false);
        };
        put_zeros(zeros.count, out)?;
        match zeros.on {
            Some(on) => at = on,
            None => return Ok(true),
        }
    }
    Ok(false)
}

fn put_int(alloc: Global, inner: &[u8], out: &mut Vec<u8>) -> Result<bool, ReaderError> {
    let Some(bytes) = span(inner, 0, 4) else {
        return Ok(false);
    };
    if inner.len() != 4 {
        return Ok(false);
    }
    let shifted = i64::try_from(number(bytes)).unwrap_or(0);
    let value = shifted.saturating_sub(0x8000_0000);
    let text = format!(in alloc; "{value}")?;
    out.extend_from_slice(text.as_bytes())?;
    Ok(true)
}

fn put_quoted(bytes: &[u8], out: &mut Vec<u8>) -> Result<(), ReaderError> {
    out.push(b'\'')?;
    for b in bytes {
        if *b == b'\'' {
            out.push(b'\'')?;
        }
        out.push(*b)?;
    }
    out.push(b'\'')?;
    Ok(())
}

fn put_text(alloc: Global, inner: &[u8], out: &mut Vec<u8>) -> Result<bool, ReaderError> {
    let mut bytes = Vec::new(alloc);
    if !put_bytes(inner, &mut bytes)? {
        return Ok(false);
    }
    if str::from_utf8(bytes.as_slice()).is_err() {
        return Ok(false);
    }
    put_quoted(bytes.as_slice(), out)?;
    Ok(true)
}

/// The text of the components of a string, in parentheses; none where it is no string of one component of this type.
pub fn text_of(alloc: Global, kind: Kind, string: &[u8]) -> Result<Option<Vec<u8>>, ReaderError> {
    let Some(inner) = inside(string) else {
        return Ok(None);
    };
    let mut out = Vec::new(alloc);
    out.push(b'(')?;
    let is = match kind {
        Kind::Int => put_int(alloc, inner, &mut out)?,
        Kind::Text => put_text(alloc, inner, &mut out)?,
    };
    out.push(b')')?;
    Ok(if is { Some(out) } else { None })
}

/// Whether it is a string of one component of this type.
pub fn is_string(alloc: Global, kind: Kind, string: &[u8]) -> Result<bool, ReaderError> {
    Ok(string.len() <= 1024 && text_of(alloc, kind, string)?.is_some())
}
