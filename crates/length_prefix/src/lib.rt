//! Byte strings behind their length, which stands in two bytes, the high one first, as it does in each file of a table. The
//! writers and readers of files stand on this crate; what begins with some bytes is said whatever follows them.
#![tactic(auto)]

ghost use Rattle.std.specs.Prelude.{◌≡◌, ◌<◌, ◌++◌, ◌^◌, length, IfSome, IsNone, OnOk};
ghost use Rattle.length_prefix.specs.Counted.{stated_length, counted, IsCutOff};

use byteorder::{BigEndian, ByteOrder};
use key_types::{ByteList, NoMemory};

/// How many bytes a length takes.
const LENGTH: usize = 2;

/// Puts the bytes behind their length at the end of `out`.
///
/// Errors: `NoMemory`, after which part of them may stand there.
pub fn put_counted(out: &mut ByteList, bytes: &[u8]) -> Result<(), NoMemory>
    requires { length bytes.now < 2 ^ 16 }
    ensures { OnOk result (out.new ≡ out.old ++ counted bytes.now) }
{
    let mut count = [0u8; LENGTH];
    BigEndian::write_u16(&mut count, bytes.len() as u16);
    out.extend(&count)?;
    out.extend(bytes)
}

/// The length with which the bytes begin, where both its bytes are there.
pub fn stated_length(bytes: &[u8]) -> Option<usize>
    ensures { result ≡ stated_length bytes.now }
{
    if bytes.len() < LENGTH {
        return None;
    }
    Some(usize::from(BigEndian::read_u16(bytes)))
}

/// The byte string with which the bytes begin, behind its length, and what stands behind it; `None` where they are cut
/// off.
pub fn counted(bytes: &[u8]) -> Option<(&[u8], &[u8])>
    ensures some { IfSome result (λ p. (length p.0.now < 2 ^ 16) × (bytes.now ≡ counted p.0.now ++ p.1.now)) }
    ensures none { IsNone result → IsCutOff bytes.now }
{
    let count = stated_length(bytes)?;
    let (_, rest) = bytes.split_at(LENGTH);
    if count <= rest.len() {
        Some(rest.split_at(count))
    } else {
        None
    }
}

#[cfg(test)]
mod tests;
