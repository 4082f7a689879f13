//! What is to be printed of the files of a table, as the plain reader finds them. `main` compares it with what the
//! program prints.
use crate::checker::{Counts, check};
use crate::fault::Fault;
use crate::keys::{Kind, text_of};
use crate::listing::listed_value;
use crate::reader_error::ReaderError;
use crate::table::{Read, Table};
use crate::wrong::{Clash, Other, Spelled, Wrong, sound};
use std::alloc::Global;

/// A query: a get of a key, by its strings, the same where the files are sound, a scan of all rows, or a check.
#[derive(Clone, Copy)]
pub enum Query<'q> {
    Get {
        partition: &'q [u8],
        clustering: &'q [u8],
    },
    Listed {
        partition: &'q [u8],
        clustering: &'q [u8],
    },
    Scan,
    Check,
}

/// A text that is to be printed, and the status with which the program is to end.
#[derive(Drop)]
pub struct Printed {
    pub text: Vec<u8>,
    pub status: u8,
}

/// The status of damage, and that of a clash.
const DAMAGED: u8 = 7;

const UNSOUND: u8 = 11;

fn put_value(alloc: Global, value: &[u8], out: &mut Vec<u8>) -> Result<(), ReaderError> {
    out.extend_from_slice(b"0x")?;
    let digits = hex::encode(alloc, value)?;
    out.extend_from_slice(digits.as_bytes())?;
    out.push(b'\n')?;
    Ok(())
}

fn put_fault(alloc: Global, fault: Fault, out: &mut Vec<u8>) -> Result<(), ReaderError> {
    let Fault {
        part,
        position,
        cause,
    } = fault;
    let line = format!(in alloc; "error: damaged {part} at {position}: {cause}\n")?;
    out.extend_from_slice(line.as_bytes())?;
    Ok(())
}

/// A run that ends with an Ok or with damage.
fn ended(alloc: Global, mut text: Vec<u8>, fault: Option<Fault>) -> Result<Printed, ReaderError> {
    match fault {
        Some(fault) => {
            put_fault(alloc, fault, &mut text)?;
            Ok(Printed {
                text,
                status: DAMAGED,
            })
        }
        None => Ok(Printed { text, status: 0 }),
    }
}

/// The line of a value, or that there is none.
fn put_found(alloc: Global, value: Option<&[u8]>, out: &mut Vec<u8>) -> Result<(), ReaderError> {
    match value {
        Some(value) => put_value(alloc, value, out),
        None => Ok(out.extend_from_slice(b"none\n")?),
    }
}

fn get_printed(
    alloc: Global,
    table: &Table<'_>,
    partition: &[u8],
    key: &[u8],
) -> Result<Printed, ReaderError> {
    let mut text = Vec::new(alloc);
    match table.get(alloc, partition, key)? {
        Ok(value) => {
            put_found(alloc, value, &mut text)?;
            ended(alloc, text, None)
        }
        Err(fault) => ended(alloc, text, Some(fault)),
    }
}

/// What a get prints over files that are sound: what Data.db lists at the key, whatever the indexes are.
fn listed_printed(
    alloc: Global,
    table: &Table<'_>,
    partition: &[u8],
    key: &[u8],
) -> Result<Printed, ReaderError> {
    match listed_value(alloc, table, partition, key) {
        Ok(value) => {
            let mut text = Vec::new(alloc);
            put_found(alloc, value, &mut text)?;
            ended(alloc, text, None)
        }
        Err(Wrong::Damaged(fault)) => ended(alloc, Vec::new(alloc), Some(fault)),
        Err(Wrong::Unsound(clash)) => clash_printed(alloc, clash),
        Err(Wrong::Stopped(e)) => Err(e),
    }
}

fn put_spelled(alloc: Global, spelled: Spelled, out: &mut Vec<u8>) -> Result<(), ReaderError> {
    let text = match spelled {
        Spelled::Plain(n) => format!(in alloc; "{n}")?,
        Spelled::Complement(n) => {
            let size = n.saturating_add(1);
            format!(in alloc; "-{size}")?
        }
    };
    out.extend_from_slice(text.as_bytes())?;
    Ok(())
}

fn put_other(alloc: Global, other: Other, out: &mut Vec<u8>) -> Result<(), ReaderError> {
    match other {
        Other::Order => Ok(out.extend_from_slice(b"order")?),
        Other::Path => Ok(out.extend_from_slice(b"path")?),
        Other::Key => Ok(out.extend_from_slice(b"key")?),
        Other::Number { found, wanted } => {
            out.extend_from_slice(b"number ")?;
            put_spelled(alloc, found, out)?;
            out.extend_from_slice(b" not ")?;
            put_spelled(alloc, wanted, out)
        }
    }
}

fn clash_printed(alloc: Global, clash: Clash) -> Result<Printed, ReaderError> {
    let Clash {
        part,
        position,
        other,
    } = clash;
    let mut text = Vec::new(alloc);
    let start = format!(in alloc; "error: unsound {part} at {position}: ")?;
    text.extend_from_slice(start.as_bytes())?;
    put_other(alloc, other, &mut text)?;
    text.push(b'\n')?;
    Ok(Printed {
        text,
        status: UNSOUND,
    })
}

fn check_printed(alloc: Global, table: &Table<'_>) -> Result<Printed, ReaderError> {
    match check(alloc, table) {
        Ok(Counts { partitions, rows }) => {
            let line = format!(in alloc; "sound partitions {partitions} rows {rows}\n")?;
            ended(alloc, line.as_bytes().to_vec(alloc)?, None)
        }
        Err(Wrong::Damaged(fault)) => ended(alloc, Vec::new(alloc), Some(fault)),
        Err(Wrong::Unsound(clash)) => clash_printed(alloc, clash),
        Err(Wrong::Stopped(e)) => Err(e),
    }
}

fn put_key(alloc: Global, kind: Kind, string: &[u8], out: &mut Vec<u8>) -> Result<(), ReaderError> {
    if let Some(text) = text_of(alloc, kind, string)? {
        out.extend_from_slice(text.as_slice())?;
    }
    Ok(())
}

/// Puts the lines of the rows of one partition, and answers where the next one begins.
fn put_rows(
    alloc: Global,
    table: &Table<'_>,
    at: u64,
    rows: &mut u32,
    out: &mut Vec<u8>,
) -> Read<u64> {
    let head = match table.head(alloc, at)? {
        Ok(head) => head,
        Err(fault) => return Ok(Err(fault)),
    };
    let mut at = head.end;
    for _ in 0..table.data.len() {
        let row = match table.row(alloc, at)? {
            Ok(Some(row)) => row,
            Ok(None) => break,
            Err(fault) => return Ok(Err(fault)),
        };
        put_key(alloc, Kind::Int, head.partition, out)?;
        out.push(b' ')?;
        put_key(alloc, table.kind, row.clustering, out)?;
        out.extend_from_slice(b" = ")?;
        put_value(alloc, row.value, out)?;
        *rows = rows.saturating_add(1);
        at = row.end;
    }
    Ok(Ok(at.saturating_add(1)))
}

fn scan_printed(alloc: Global, table: &Table<'_>) -> Result<Printed, ReaderError> {
    let mut text = Vec::new(alloc);
    let fault = table.footer_fault(alloc)?;
    if fault.is_some() {
        return ended(alloc, text, fault);
    }
    let mut at = 0u64;
    let mut rows = 0u32;
    for _ in 0..table.data.len() {
        if at >= table.data.len() as u64 {
            break;
        }
        match put_rows(alloc, table, at, &mut rows, &mut text)? {
            Ok(end) => at = end,
            Err(fault) => return ended(alloc, text, Some(fault)),
        }
    }
    let line = format!(in alloc; "rows {rows}\n")?;
    text.extend_from_slice(line.as_bytes())?;
    ended(alloc, text, None)
}

/// What a query is to print.
pub fn expected(
    alloc: Global,
    table: &Table<'_>,
    query: Query<'_>,
) -> Result<Printed, ReaderError> {
    match query {
        Query::Get {
            partition,
            clustering,
        } => get_printed(alloc, table, partition, clustering),
        Query::Listed {
            partition,
            clustering,
        } => listed_printed(alloc, table, partition, clustering),
        Query::Scan => scan_printed(alloc, table),
        Query::Check => check_printed(alloc, table),
    }
}
