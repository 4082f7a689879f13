//! The line that a refusal ends with.
ghost use Rattle.std.specs.Prelude.{◌≡◌, ◌++◌, OnOk, IfOk};
ghost use Rattle.std.specs.Fmt.{signed_decimal};
ghost use Rattle.table_tool.specs.FaultLine.{cause_text, clash_text, damage_text, fault_line, part_text, place_text};

use crate::status::Status;
use bti_nodes::{Cause, Damage};
use data_walk::{Clash, Mismatch};
use itoa::Buffer;
use key_types::{ByteList, NoMemory};
use outside::Part;
use row_text::put_number;
use script_text::LineCause;
use std::alloc::Global;

/// Appends why a line isn't accepted.
fn put_cause(out: &mut ByteList, cause: LineCause) -> Result<(), NoMemory>
    ensures { OnOk result (out.new ≡ out.old ++ cause_text cause) }
{
    match cause {
        LineCause::NotUtf8 => out.extend(b"not utf-8"),
        LineCause::BadText(at) => put_number(out, b"bad text at ", at as u64),
        LineCause::OutOfRange(at) => put_number(out, b"out of range at ", at as u64),
        LineCause::KeyTooLong(count) => put_number(out, b"key too long ", count as u64),
        LineCause::ValueTooLong(count) => put_number(out, b"value too long ", count as u64),
    }
}

/// The name of a part.
fn part_name(part: Part) -> &'static [u8]
    ensures { result.now ≡ part_text part }
{
    match part {
        Part::Data => b"Data",
        Part::Partitions => b"Partitions",
        Part::Rows => b"Rows",
        Part::Schema => b"Schema",
    }
}

/// What is wrong at a place of a file.
fn damage_name(cause: Cause) -> &'static [u8]
    ensures { result.now ≡ damage_text cause }
{
    match cause {
        Cause::PastPage => b"past page",
        Cause::BadOrder => b"bad order",
        Cause::BadPointer => b"bad pointer",
        Cause::BadPayload => b"bad payload",
        Cause::BadFooter => b"bad footer",
        Cause::BadEntry => b"bad entry",
        Cause::BadHead => b"bad head",
        Cause::BadRow => b"bad row",
    }
}

/// Appends a label, and the place of a file that it speaks of.
fn put_place(out: &mut ByteList, label: &[u8], part: Part, position: u64) -> Result<(), NoMemory>
    ensures { OnOk result (out.new ≡ out.old ++ (label.now ++ place_text part position)) }
{
    out.extend(label)?;
    out.extend(part_name(part))?;
    put_number(out, b" at ", position)?;
    out.extend(b": ")
}

/// Appends the line of damage.
fn put_damage(out: &mut ByteList, damage: Damage) -> Result<(), NoMemory>
    ensures { OnOk result (out.new ≡ out.old ++ fault_line (Status.Damaged damage)) }
{
    put_place(out, b"error: damaged ", damage.part, damage.position)?;
    out.extend(damage_name(damage.cause))?;
    out.push(b'\n')
}

/// Appends a label and a number behind it, which may be below 0.
fn put_signed(out: &mut ByteList, label: &[u8], n: i128) -> Result<(), NoMemory>
    ensures { OnOk result (out.new ≡ out.old ++ (label.now ++ signed_decimal n)) }
{
    let mut digits = Buffer::new();
    out.extend(label)?;
    out.extend(digits.format(n).as_bytes())
}

/// Appends how a file differs from what Data.db gives.
fn put_clash(out: &mut ByteList, clash: Clash) -> Result<(), NoMemory>
    ensures { OnOk result (out.new ≡ out.old ++ clash_text clash) }
{
    match clash {
        Clash::Order => out.extend(b"order"),
        Clash::Path => out.extend(b"path"),
        Clash::Number { found, wanted } => {
            put_signed(out, b"number ", found)?;
            put_signed(out, b" not ", wanted)
        }
        Clash::Key => out.extend(b"key"),
    }
}

/// Appends the line of a clash.
fn put_mismatch(out: &mut ByteList, mismatch: Mismatch) -> Result<(), NoMemory>
    ensures { OnOk result (out.new ≡ out.old ++ fault_line (Status.Unsound mismatch)) }
{
    put_place(out, b"error: unsound ", mismatch.part, mismatch.position)?;
    put_clash(out, mismatch.clash)?;
    out.push(b'\n')
}

/// The fault line of a status, which is empty for Ok, a fault of the sink and want of memory.
pub fn fault_line(alloc: Global, status: Status) -> Result<ByteList, NoMemory>
    ensures { IfOk result (λ line. line ≡ fault_line status) }
{
    let mut out = ByteList::new(alloc);
    match status {
        Status::Ok | Status::SinkFault | Status::NoMemory => {}
        Status::Usage => out.extend(b"error: usage\n")?,
        Status::Key => out.extend(b"error: key\n")?,
        Status::SourceFault => out.extend(b"error: source fault\n")?,
        Status::StoreFault => out.extend(b"error: store fault\n")?,
        Status::Damaged(damage) => put_damage(&mut out, damage)?,
        Status::Unfinished => out.extend(b"error: unfinished\n")?,
        Status::Exists => out.extend(b"error: exists\n")?,
        Status::TooLarge => out.extend(b"error: too large\n")?,
        Status::Unsound(mismatch) => put_mismatch(&mut out, mismatch)?,
        Status::BadLine(line, cause) => {
            put_number(&mut out, b"error: line ", u64::from(line))?;
            out.extend(b": ")?;
            put_cause(&mut out, cause)?;
            out.push(b'\n')?;
        }
        Status::Full(line) => {
            put_number(&mut out, b"error: line ", u64::from(line))?;
            out.extend(b": shard full\n")?;
        }
    }
    Ok(out)
}
