//! The generator: a script of rows and gets from a number, the same for everyone.
//!
//! The command that makes large inputs calls it. It appends to one buffer, and no row takes memory of its own.
ghost use Rattle.std.specs.Prelude.{◌≡◌, ◌≤◌, ◌<◌, ◌+◌, ◌++◌, decimal, IfOk, OnOk};
ghost use Rattle.key_types.specs.Literals.{hex_digit};
ghost use Rattle.script_text.specs.Generator.{next_number, hexadecimal, generated_key, generated_put, generated_get};
ghost use Rattle.script_text.specs.Generator.{has_get, generated_row, most_rows, generated_script};

use itoa::Buffer;
use key_types::{ByteList, NoMemory};
use std::alloc::Global;

/// The multiplier and the addend that lead from one number to the next.
const MULTIPLIER: u64 = 6_364_136_223_846_793_005;

const ADDEND: u64 = 1_442_695_040_888_963_407;

/// The greatest count of rows of a script that is generated.
pub const MOST_ROWS: u32 = 500_000;

/// The number behind another.
fn next(number: u64) -> u64
    ensures { result ≡ next_number number }
{
    number.wrapping_mul(MULTIPLIER).wrapping_add(ADDEND)
}

/// Puts a number in decimal at the end.
fn put_decimal(number: u32, out: &mut ByteList) -> Result<(), NoMemory>
    ensures { OnOk result (out.new ≡ out.old ++ decimal number) }
{
    let mut digits = Buffer::new();
    out.extend(digits.format(number).as_bytes())
}

/// The digit of a number below 16.
fn hex_digit(number: u8) -> u8
    requires { number < 16 }
    ensures { result ≡ hex_digit number }
{
    if number < 10 {
        b'0' + number
    } else {
        b'a' - 10 + number
    }
}

/// Puts the 16 hexadecimal digits of a number at the end.
#[tactic(auto, using(crate::proofs::Digits::next_digit, crate::proofs::Digits::no_digit))]
fn put_hexadecimal(number: u64, out: &mut ByteList) -> Result<(), NoMemory>
    ensures { OnOk result (out.new ≡ out.old ++ hexadecimal 16 number) }
{
    let mut left = 16u32;
    'digits: while left > 0 {
        left -= 1;
        out.push(hex_digit(((number >> (4 * left)) % 16) as u8))?;
    }
    Ok(())
}

/// Puts the key of a row at the end.
#[tactic(auto, unfolding(crate::specs::Generator::generated_key))]
fn put_key(row: u32, out: &mut ByteList) -> Result<(), NoMemory>
    ensures { OnOk result (out.new ≡ out.old ++ generated_key row) }
{
    out.extend(b"('u")?;
    put_decimal(row % 10, out)?;
    out.extend(b"', ")?;
    put_decimal(row / 10 % 2, out)?;
    out.extend(b") (")?;
    put_decimal(row, out)?;
    out.extend(b")")
}

/// Puts the line that puts a row at the end; its value is this number.
#[tactic(auto, unfolding(crate::specs::Generator::generated_put))]
fn put_put(row: u32, number: u64, out: &mut ByteList) -> Result<(), NoMemory>
    ensures { OnOk result (out.new ≡ out.old ++ generated_put row number) }
{
    out.extend(b"put ")?;
    put_key(row, out)?;
    out.extend(b" = '")?;
    put_hexadecimal(number, out)?;
    out.extend(b"'\n")
}

/// Puts the line that asks for a row at the end.
#[tactic(auto, unfolding(crate::specs::Generator::generated_get))]
fn put_get(row: u32, out: &mut ByteList) -> Result<(), NoMemory>
    ensures { OnOk result (out.new ≡ out.old ++ generated_get row) }
{
    out.extend(b"get ")?;
    put_key(row, out)?;
    out.extend(b"\n")
}

/// Whether a get follows the row.
fn has_get(count: u32, gets: u32, row: u32) -> bool
    requires { row < count }
    ensures { result ≡ has_get count gets row }
{
    let before = u64::from(row) * u64::from(gets) / u64::from(count);
    let after = (u64::from(row) + 1) * u64::from(gets) / u64::from(count);
    before < after
}

/// Puts a row at the end, whose value is this number, and its get, where it has one.
#[tactic(auto, unfolding(crate::specs::Generator::generated_row))]
fn put_row(count: u32, gets: u32, row: u32, number: u64, out: &mut ByteList) -> Result<(), NoMemory>
    requires { row < count }
    ensures { OnOk result (out.new ≡ out.old ++ generated_row count gets row number) }
{
    put_put(row, number, out)?;
    if has_get(count, gets, row) {
        put_get(((number >> 33) % (u64::from(row) + 1)) as u32, out)?;
    }
    Ok(())
}

/// The script of so many rows and gets that the seed generates.
///
/// Row `i` is a put under the schema `(text, int; bigint reversed; text)`, and a get of a row that was put before stands
/// behind some of them, evenly, `gets` in all.
#[tactic(auto, using(crate::proofs::Digits::no_rows, crate::proofs::Digits::next_row, crate::proofs::Digits::number_next))]
pub fn rows_from(alloc: Global, seed: u64, count: u32, gets: u32) -> Result<ByteList, NoMemory>
    requires some { 1 ≤ count }
    requires few { count ≤ most_rows }
    requires gets { gets ≤ count }
    ensures { IfOk result (λ script. script ≡ generated_script seed count gets) }
{
    let mut out = ByteList::new(alloc);
    let mut number = seed;
    let mut row = 0u32;
    'rows: while row < count {
        number = next(number);
        put_row(count, gets, row, number, &mut out)?;
        row += 1;
    }
    Ok(out)
}
