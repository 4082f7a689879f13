//! Texts and blobs from the front of bytes, as they stand or complemented.
ghost use Rattle.std.specs.Prelude.{◌≡◌, ◌≢◌, ◌<◌, ◌==◌, Ok, length, IfOk, IfErr, IfSome};
ghost use Rattle.std.specs.List.{position_from};
ghost use Rattle.grammar.specs.Code.{Gives, StopsAs};
ghost use Rattle.grammar.specs.declared.stop.Stop.TheVariants.{Memory};
ghost use Rattle.key_decode.specs.Texts.{at, gone};
ghost use Rattle.key_decode.specs.declared.texts.Move.TheVariants.{End};
ghost use Rattle.key_decode.specs.Reading.{seen, text_at};

use crate::numbers::next_byte;
use grammar::Stop;
use key_types::ByteList;
use std::alloc::Global;

/// Where the reading of a text is: not behind a zero, behind one, or behind a run of zeros that goes on.
#[derive(Clone, Copy, Debug, PartialEq, Eq)]
pub enum Place {
    Plain,
    Behind,
    After,
}

/// What a byte does: the text has ended before it, a run of zeros begins, or a byte of the text is read.
#[derive(Clone, Copy, Debug, PartialEq, Eq)]
pub enum Move {
    End,
    Begin,
    Byte(u8, Place),
}

/// One move of the reading.
pub fn step(place: Place, complemented: bool, bytes: &[u8]) -> Result<(Move, &[u8]), Stop>
    ensures ok { IfOk result (λ x. at place (seen complemented bytes.now) ≡ gone x.0 (seen complemented x.1.now)) }
    ensures err { IfErr result (λ e. StopsAs e (at place (seen complemented bytes.now))) }
    ensures shorter { IfOk result (λ x. x.0 ≢ End → length x.1.now < length bytes.now) }
    ensures memory { IfErr result (λ e. ¬ (e ≡ Memory)) }
{
    match (place, next_byte(complemented, bytes)) {
        (Place::Plain, Ok((0, rest))) => Ok((Move::Begin, rest)),
        (Place::Plain, Ok((byte, rest))) => Ok((Move::Byte(byte, Place::Plain), rest)),
        (Place::Behind, Ok((0xFE, rest))) => Ok((Move::Byte(0, Place::Behind), rest)),
        (Place::Behind, Ok((0xFF, rest))) => Ok((Move::Byte(0, Place::After), rest)),
        (Place::Behind, _) => Ok((Move::End, bytes)),
        (Place::After, Ok((byte, rest))) if byte != 0 => Ok((Move::Byte(byte, Place::Plain), rest)),
        _ => Err(Stop::At(bytes.len())),
    }
}

/// Where the first zero byte is.
fn first_zero(bytes: &[u8]) -> Option<usize>
    ensures first { result ≡ position_from (λ b. b == 0) 0 bytes.now }
    ensures within { IfSome result (λ at. at < length bytes.now) }
{
    bytes.iter().position(|byte| *byte == 0)
}

/// A text that stands as it is, since it has no zero byte, and the bytes behind it; `None` where none is seen.
pub fn plain_text(bytes: &[u8]) -> Option<(&[u8], &[u8])>
    ensures { IfSome result (λ x. text_at bytes.now ≡ Ok (x.0.now, x.1.now)) }
{
    let end = first_zero(bytes)?;
    match step(Place::Behind, false, &bytes[end + 1..]) {
        Ok((Move::End, rest)) => Some((&bytes[..end], rest)),
        _ => None,
    }
}

/// A text or a blob, which is gathered byte by byte, and the bytes behind it.
fn read_bytewise(alloc: Global, complemented: bool, bytes: &[u8]) -> Result<(ByteList, &[u8]), Stop>
    ensures { Gives (λ x. (x.0, seen complemented x.1.now)) result (text_at (seen complemented bytes.now)) }
{
    let mut out = ByteList::new(alloc);
    let mut rest = bytes;
    let mut place = Place::Plain;
    'bytes: loop {
        let (next, after) = step(place, complemented, rest)?;
        match next {
            Move::End => return Ok((out, after)),
            Move::Begin => place = Place::Behind,
            Move::Byte(byte, then) => {
                if out.push(byte).is_err() {
                    return Err(Stop::Memory);
                }
                place = then;
            }
        }
        rest = after;
    }
}

/// A text or a blob, and the bytes behind it.
pub fn read_text(alloc: Global, complemented: bool, bytes: &[u8]) -> Result<(ByteList, &[u8]), Stop>
    ensures { Gives (λ x. (x.0, seen complemented x.1.now)) result (text_at (seen complemented bytes.now)) }
{
    if complemented {
        return read_bytewise(alloc, complemented, bytes);
    }
    match plain_text(bytes) {
        Some((text, rest)) => Ok((ByteList::from_vec(Vec::from_slice(alloc, text)?), rest)),
        None => read_bytewise(alloc, complemented, bytes),
    }
}
