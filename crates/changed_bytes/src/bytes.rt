//! Numbers and strings in the bytes of a file. The plain reader takes each of them by it.

/// So many bytes from a place on; none where they don't all stand there.
pub fn span(bytes: &[u8], at: u64, count: u64) -> Option<&[u8]> {
    let end = at.checked_add(count)?;
    bytes.get(at as usize..end as usize)
}

pub fn byte(bytes: &[u8], at: u64) -> Option<u8> {
    bytes.get(at as usize).copied()
}

/// The number of which these are the bytes, the highest first.
pub fn number(bytes: &[u8]) -> u64 {
    let mut sum = 0u64;
    for byte in bytes {
        sum = sum.wrapping_mul(256).wrapping_add(u64::from(*byte));
    }
    sum
}

/// The number of so many bits, the highest first, behind so many others.
pub fn bits(bytes: &[u8], behind: u64, width: u64) -> u64 {
    let mut sum = 0u64;
    for i in 0..width {
        let place = behind.wrapping_add(i);
        let byte = bytes.get((place / 8) as usize).copied().unwrap_or(0);
        let bit = (byte >> (7 - place % 8)) & 1;
        sum = sum.wrapping_mul(2).wrapping_add(u64::from(bit));
    }
    sum
}

/// The string that stands behind its two-byte length.
pub fn short_string(bytes: &[u8], at: u64) -> Option<&[u8]> {
    let count = number(span(bytes, at, 2)?);
    span(bytes, at.checked_add(2)?, count)
}
