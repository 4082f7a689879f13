//! Numbers as payloads.
ghost use Rattle.std.specs.Prelude.{◌≡◌, ◌<◌, ◌≤◌, ◌^◌, ◌-◌, negsuc, pos, ◌≤ℤ◌, ◌<ℤ◌, length};
ghost use Rattle.byteorder.specs.Endian.{big_bytes};
ghost use Rattle.bti_nodes.specs.Spelling.{bytes_in};
ghost use Rattle.bti_nodes.specs.Payloads.{bytes_for, unsigned_bytes, signed_bytes, unsigned_number, signed_number};

use crate::node::Payload;
use byteorder::{BigEndian, ByteOrder};

/// How many bytes, at least one, a number of at most seven bytes takes.
fn bytes_for(n: u64) -> usize
    requires { n < 2 ^ 56 }
    ensures value { result ≡ bytes_for n }
    ensures some { 0 < result }
    ensures few { result ≤ 7 }
    ensures fits { n < 256 ^ result }
{
    if n < 1 << 8 {
        1
    } else if n < 1 << 16 {
        2
    } else if n < 1 << 24 {
        3
    } else if n < 1 << 32 {
        4
    } else if n < 1 << 40 {
        5
    } else if n < 1 << 48 {
        6
    } else {
        7
    }
}

/// The payload that spells a number in so many bytes.
fn payload_of(n: u64, count: usize) -> Payload
    requires some { 0 < count }
    requires few { count ≤ 7 }
    requires fits { n < 256 ^ count }
    ensures some { 0 < result.count }
    ensures count { result.count ≤ 7 }
    ensures bytes { bytes_in result ≡ big_bytes count n }
{
    let mut bytes = [0u8; 7];
    BigEndian::write_uint(&mut bytes, n, count);
    Payload {
        count: count as u8,
        bytes,
    }
}

/// A number without a sign, with the fewest bytes, at least one.
pub fn unsigned_payload(n: u64) -> Payload
    requires { n < 2 ^ 56 }
    ensures some { 0 < result.count }
    ensures count { result.count ≤ 7 }
    ensures bytes { bytes_in result ≡ unsigned_bytes n }
{
    payload_of(n, bytes_for(n))
}

/// A number with a sign in two's complement, with the fewest bytes, at least one.
pub fn signed_payload(n: i64) -> Payload
    requires low { negsuc (2 ^ 55 - 1) ≤ℤ n }
    requires high { n <ℤ pos (2 ^ 55) }
    ensures some { 0 < result.count }
    ensures count { result.count ≤ 7 }
    ensures bytes { bytes_in result ≡ signed_bytes n }
{
    if n < 0 {
        let below = -(n + 1) as u64;
        let count = bytes_for(below * 2);
        payload_of(((1u64 << (8 * count)) - 1) - below, count)
    } else {
        let count = bytes_for(n as u64 * 2);
        payload_of(n as u64, count)
    }
}

/// The number without a sign that a payload spells.
pub fn read_unsigned(payload: &[u8]) -> u64
    requires some { 0 < length payload.now }
    requires few { length payload.now ≤ 7 }
    ensures number { result ≡ unsigned_number payload.now }
    ensures small { result < 2 ^ 56 }
{
    BigEndian::read_uint(payload, payload.len())
}

/// The number with a sign that a payload spells in two's complement.
pub fn read_signed(payload: &[u8]) -> i64
    requires some { 0 < length payload.now }
    requires few { length payload.now ≤ 7 }
    ensures { result ≡ signed_number payload.now }
{
    BigEndian::read_int(payload, payload.len())
}
