//! Numbers and booleans from the front of bytes, as they stand or complemented.
ghost use Rattle.std.specs.Prelude.{◌≡◌, ◌≤◌, ◌<◌, ◌+◌, ◌*◌, ◌^◌, [], ◌∷◌, length, Ok, IfOk, IfErr, ⊤, not};
ghost use Rattle.grammar.specs.Code.{Gives};
ghost use Rattle.grammar.specs.Reading.{given_at};
ghost use Rattle.grammar.specs.declared.stop.Stop.TheVariants.{At, Memory};
ghost use Rattle.key_decode.specs.Reading.{seen, byte_from, unsigned_at, count_behind, base, least_second, second_at, third_at, nine_at, long_at, big_at, signed_at, truth_byte_at};
ghost use Rattle.key_types.specs.Kinds.{value_of};

use grammar::Stop;
use key_types::Value;

/// A byte as it stands, or its complement.
pub fn seen_byte(complemented: bool, byte: u8) -> u8
    ensures seen { seen complemented (byte ∷ []) ≡ result ∷ [] }
    ensures byte { result < 256 }
{
    if complemented { 255 - byte } else { byte }
}

/// The next byte, as it stands or its complement, and the bytes behind it.
pub fn next_byte(complemented: bool, bytes: &[u8]) -> Result<(u8, &[u8]), Stop>
    ensures ok { IfOk result (λ x. seen complemented bytes.now ≡ x.0 ∷ seen complemented x.1.now) }
    ensures err { IfErr result (λ e. (e ≡ At 0) × (seen complemented bytes.now ≡ [])) }
    ensures shorter { IfOk result (λ x. length x.1.now < length bytes.now) }
    ensures byte { IfOk result (λ x. x.0 < 256) }
{
    match bytes {
        [] => Err(Stop::At(0)),
        [byte, rest @ ..] => Ok((seen_byte(complemented, *byte), rest)),
    }
}

/// The other of bytes as they stand and their complements.
pub fn flipped(complemented: bool) -> bool
    ensures { result ≡ not complemented }
{
    !complemented
}

/// A byte from a bound on.
fn read_byte_from(complemented: bool, low: u8, bytes: &[u8]) -> Result<(u8, &[u8]), Stop>
    ensures from { IfOk result (λ x. low ≤ x.0) }
    ensures byte { IfOk result (λ x. x.0 < 256) }
    ensures gives { Gives (λ x. (x.0, seen complemented x.1.now)) result (byte_from low (seen complemented bytes.now)) }
    ensures memory { IfErr result (λ e. ¬ (e ≡ Memory)) }
{
    let (byte, rest) = next_byte(complemented, bytes)?;
    if byte < low {
        return Err(Stop::At(bytes.len()));
    }
    Ok((byte, rest))
}

/// This byte.
pub fn read_sign(complemented: bool, sign: u8, bytes: &[u8]) -> Result<&[u8], Stop>
    ensures gives { Gives (λ x. (tt, seen complemented x.now)) result (given_at (sign ∷ []) (seen complemented bytes.now)) }
    ensures shorter { IfOk result (λ x. length x.now < length bytes.now) }
    ensures memory { IfErr result (λ e. ¬ (e ≡ Memory)) }
{
    let (byte, rest) = next_byte(complemented, bytes)?;
    if byte != sign {
        return Err(Stop::At(bytes.len()));
    }
    Ok(rest)
}

/// The number that these bytes make as the further digits of another.
fn with_digits(complemented: bool, number: u64, digits: &[u8]) -> u64
    requires { (number + 1) * 256 ^ length digits.now ≤ 2 ^ 64 }
    ensures value { unsigned_at (length digits.now) number (seen complemented digits.now) ≡ Ok (result, []) }
    ensures below { result < (number + 1) * 256 ^ length digits.now }
{
    let mut number = number;
    for digit in digits {
        number = number * 256 + u64::from(seen_byte(complemented, *digit));
    }
    number
}

/// A number of so many bytes behind those that were read.
pub fn read_number(
    complemented: bool,
    count: u8,
    number: u64,
    bytes: &[u8],
) -> Result<(u64, &[u8]), Stop>
    requires { (number + 1) * 256 ^ count ≤ 2 ^ 64 }
    ensures gives { Gives (λ x. (x.0, seen complemented x.1.now)) result (unsigned_at count number (seen complemented bytes.now)) }
    ensures below { IfOk result (λ x. x.0 < (number + 1) * 256 ^ count) }
    ensures memory { IfErr result (λ e. ¬ (e ≡ Memory)) }
{
    match bytes.split_at_checked(usize::from(count)) {
        Some((digits, rest)) => Ok((with_digits(complemented, number, digits), rest)),
        None => Err(Stop::At(0)),
    }
}

/// How many bytes stand behind the first one of a bigint, where they aren't eight.
fn count_of(first: u8) -> u8
    ensures { result ≡ count_behind first }
{
    if first < 0xC0 {
        0
    } else if first < 0xE0 {
        1
    } else if first < 0xF0 {
        2
    } else if first < 0xF8 {
        3
    } else if first < 0xFC {
        4
    } else if first < 0xFE {
        5
    } else if first < 0xFF {
        6
    } else {
        7
    }
}

/// The least first byte with so many behind it.
fn base_of(count: u8) -> u8
    requires { count ≤ 7 }
    ensures { result ≡ base count }
{
    match count {
        0 => 0x80,
        1 => 0xC0,
        2 => 0xE0,
        3 => 0xF0,
        4 => 0xF8,
        5 => 0xFC,
        6 => 0xFE,
        _ => 0xFF,
    }
}

/// A bigint of nine bytes, behind its second byte.
fn read_nine(complemented: bool, second: u8, bytes: &[u8]) -> Result<(u64, &[u8]), Stop>
    requires { 128 ≤ second }
    ensures gives { Gives (λ x. (x.0, seen complemented x.1.now)) result (nine_at second (seen complemented bytes.now)) }
    ensures memory { IfErr result (λ e. ¬ (e ≡ Memory)) }
{
    let low = if second == 0x80 { 0x80 } else { 0 };
    let (third, rest) = read_byte_from(complemented, low, bytes)?;
    read_number(
        complemented,
        6,
        u64::from(second - 0x80) * 256 + u64::from(third),
        rest,
    )
}

/// A bigint behind its second byte, where so many bytes more stand behind it if they aren't seven.
fn read_third(
    complemented: bool,
    more: u8,
    first: u8,
    second: u8,
    bytes: &[u8],
) -> Result<(u64, &[u8]), Stop>
    requires few { more ≤ 6 }
    requires base { base (more + 1) ≤ first }
    requires near { first < base (more + 1) + 64 }
    ensures gives { Gives (λ x. (x.0, seen complemented x.1.now)) result (third_at more first second (seen complemented bytes.now)) }
    ensures memory { IfErr result (λ e. ¬ (e ≡ Memory)) }
{
    if more == 6 && second >= 0x80 {
        return read_nine(complemented, second, bytes);
    }
    let high = first - base_of(more + 1);
    read_number(
        complemented,
        more,
        u64::from(high) * 256 + u64::from(second),
        bytes,
    )
}

/// The least second byte behind a first one: a number that fewer bytes can hold is none.
fn least_of(count: u8, first: u8) -> u8
    requires some { 1 ≤ count }
    requires few { count ≤ 7 }
    ensures { result ≡ least_second count first }
{
    let base = base_of(count);
    if first == base { 255 - base + 1 } else { 0 }
}

/// A bigint behind its first byte.
fn read_second(complemented: bool, count: u8, first: u8, bytes: &[u8]) -> Result<(u64, &[u8]), Stop>
    requires few { count ≤ 7 }
    requires base { base count ≤ first }
    requires near { first < base count + 64 }
    ensures gives { Gives (λ x. (x.0, seen complemented x.1.now)) result (second_at count first (seen complemented bytes.now)) }
    ensures memory { IfErr result (λ e. ¬ (e ≡ Memory)) }
{
    if count == 0 {
        return read_number(complemented, 0, u64::from(first - 0x80), bytes);
    }
    let (second, rest) = read_byte_from(complemented, least_of(count, first), bytes)?;
    read_third(complemented, count - 1, first, second, rest)
}

/// A bigint from 0 up.
fn read_long(complemented: bool, bytes: &[u8]) -> Result<(u64, &[u8]), Stop>
    ensures gives { Gives (λ x. (x.0, seen complemented x.1.now)) result (long_at (seen complemented bytes.now)) }
    ensures below { IfOk result (λ x. x.0 < 2 ^ 63) }
    ensures memory { IfErr result (λ e. ¬ (e ≡ Memory)) }
{
    let (first, rest) = read_byte_from(complemented, 0x80, bytes)?;
    read_second(complemented, count_of(first), first, rest)
}

/// A bigint: one below zero is the complement of -1 less the number.
pub fn read_big(complemented: bool, bytes: &[u8]) -> Result<(Value, &[u8]), Stop>
    ensures gives { Gives (λ x. (value_of x.0, seen complemented x.1.now)) result (big_at (seen complemented bytes.now)) }
    ensures memory { IfErr result (λ e. ¬ (e ≡ Memory)) }
{
    let (first, _) = next_byte(complemented, bytes)?;
    if first >= 0x80 {
        let (number, rest) = read_long(complemented, bytes)?;
        Ok((Value::Number(number as i64), rest))
    } else {
        match read_long(flipped(complemented), bytes) {
            Ok((number, rest)) => Ok((Value::Number(-1 - number as i64), rest)),
            Err(stop) => Err(stop),
        }
    }
}

/// A signed number of so many bytes, half of whose numbers are below zero.
pub fn read_signed(
    complemented: bool,
    count: u8,
    half: u32,
    bytes: &[u8],
) -> Result<(Value, &[u8]), Stop>
    requires { count ≤ 4 }
    ensures gives { Gives (λ x. (value_of x.0, seen complemented x.1.now)) result (signed_at count half (seen complemented bytes.now)) }
    ensures memory { IfErr result (λ e. ¬ (e ≡ Memory)) }
{
    let (number, rest) = read_number(complemented, count, 0, bytes)?;
    Ok((Value::Number(number as i64 - i64::from(half)), rest))
}

/// A truth: 0 or 1.
pub fn read_truth(complemented: bool, bytes: &[u8]) -> Result<(Value, &[u8]), Stop>
    ensures gives { Gives (λ x. (value_of x.0, seen complemented x.1.now)) result (truth_byte_at (seen complemented bytes.now)) }
    ensures memory { IfErr result (λ e. ¬ (e ≡ Memory)) }
{
    match next_byte(complemented, bytes)? {
        (0, rest) => Ok((Value::Truth(false), rest)),
        (1, rest) => Ok((Value::Truth(true), rest)),
        _ => Err(Stop::At(bytes.len())),
    }
}
