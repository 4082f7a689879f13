//! The footer of Partitions.db and the entries of Rows.db, for tables whose partitions have one `int`. The plain
//! reader and the plain check read them.
use crate::bytes::{number, short_string, span};
use crate::keys::{Kind, is_string};
use crate::reader_error::ReaderError;
use crate::table::{Read, counted, damage};
use crate::wrong::Spelled;
use std::alloc::Global;

/// A footer: the strings of the first and the last partition, how many there are, and where the trie's root begins.
#[derive(Clone, Copy)]
pub struct Footer<'f> {
    pub first: &'f [u8],
    pub last: &'f [u8],
    pub partitions: u64,
    pub root: u64,
}

/// An entry of Rows.db: its partition's string, where that begins in Data.db, the root of its row index, and how many
/// blocks it has.
#[derive(Clone, Copy)]
pub struct Entry<'f> {
    pub partition: &'f [u8],
    pub head: u64,
    pub root: u64,
    pub blocks: u64,
}

/// The number that a payload of Partitions.db spells, whose first bit is its sign.
pub fn signed(payload: &[u8]) -> Spelled {
    if payload.first().copied().unwrap_or(0) < 128 {
        return Spelled::Plain(number(payload));
    }
    let mut complement = 0u64;
    for b in payload {
        complement = complement.wrapping_mul(256).wrapping_add(u64::from(!*b));
    }
    Spelled::Complement(complement)
}

fn is_partition(alloc: Global, string: &[u8]) -> Result<bool, ReaderError> {
    is_string(alloc, Kind::Int, string)
}

/// The footer at the end of Partitions.db, whose strings fill the bytes up to its numbers and suit them.
fn footer_in(alloc: Global, file: &[u8]) -> Result<Option<Footer<'_>>, ReaderError> {
    let size = file.len() as u64;
    let Some(at) = size.checked_sub(24) else {
        return Ok(None);
    };
    let numbers = span(file, at, 24).unwrap_or(&[]);
    let strings = number(span(numbers, 0, 8).unwrap_or(&[]));
    let Some(first) = short_string(file, strings) else {
        return Ok(None);
    };
    let behind = strings.saturating_add(counted(first));
    let Some(last) = short_string(file, behind) else {
        return Ok(None);
    };
    if behind.saturating_add(counted(last)) != at {
        return Ok(None);
    }
    let footer = Footer {
        first,
        last,
        partitions: number(span(numbers, 8, 8).unwrap_or(&[])),
        root: number(span(numbers, 16, 8).unwrap_or(&[])),
    };
    Ok(if suits(alloc, footer, strings)? {
        Some(footer)
    } else {
        None
    })
}

/// Whether the numbers of a footer suit its strings, which begin there.
fn suits(alloc: Global, footer: Footer<'_>, strings: u64) -> Result<bool, ReaderError> {
    let none = strings == 0 && footer.partitions == 0 && footer.root == 0;
    let empty = none && footer.first.is_empty() && footer.last.is_empty();
    let full = footer.partitions > 0 && footer.root > 0 && footer.root < strings;
    let first = is_partition(alloc, footer.first)?;
    Ok(empty || (full && first && is_partition(alloc, footer.last)?))
}

/// Where the numbers of the footer of Partitions.db stand, or its damage is told.
pub fn footer_place(file: &[u8]) -> u64 {
    let size = file.len() as u64;
    if size < 28 {
        0
    } else {
        size.saturating_sub(24)
    }
}

/// The footer of Partitions.db, or its damage.
pub fn footer_of(alloc: Global, file: &[u8]) -> Read<Footer<'_>> {
    match footer_in(alloc, file)? {
        Some(footer) => Ok(Ok(footer)),
        None => damage("Partitions", footer_place(file), "bad footer"),
    }
}

/// The entry at a position of Rows.db.
pub fn entry_at(alloc: Global, file: &[u8], at: u64) -> Read<Entry<'_>> {
    let bad = damage("Rows", at, "bad entry");
    let Some(partition) = short_string(file, at) else {
        return bad;
    };
    let Some(numbers) = span(file, at.saturating_add(counted(partition)), 20) else {
        return bad;
    };
    let entry = Entry {
        partition,
        head: number(span(numbers, 0, 8).unwrap_or(&[])),
        root: number(span(numbers, 8, 8).unwrap_or(&[])),
        blocks: number(span(numbers, 16, 4).unwrap_or(&[])),
    };
    if !is_partition(alloc, partition)? || entry.root >= at || entry.blocks < 2 {
        return bad;
    }
    Ok(Ok(entry))
}
