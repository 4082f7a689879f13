//! The lines of a script, as slices of its bytes.
ghost use Rattle.std.specs.Prelude.{◌≡◌, ◌<◌, ◌∷◌, [], length, nat_lt, ◌==◌, ◌≢◌, ◌+◌, take, drop, IfNone, IfSome};
ghost use Rattle.std.specs.List.{position_from};
ghost use Rattle.script_text.specs.Lines.{lines_of};

use memchr::memchr;

/// Where the first line feed is.
fn break_in(bytes: &[u8]) -> Option<usize>
    ensures { result ≡ position_from (λ b. b == 10) 0 bytes.now }
{
    memchr(b'\n', bytes)
}

/// Where the first line break is.
fn first_break(bytes: &[u8]) -> Option<usize>
    requires { bytes.now ≢ [] }
    ensures none { IfNone result (lines_of bytes.now ≡ bytes.now ∷ []) }
    ensures within { IfSome result (λ at. at < length bytes.now) }
    ensures lines { IfSome result (λ at. lines_of bytes.now ≡ take at bytes.now ∷ lines_of (drop (at + 1) bytes.now)) }
{
    match break_in(bytes) {
        Some(at) => Some(at),
        None => None,
    }
}

/// The first line, and the bytes behind it.
pub fn first_line(bytes: &[u8]) -> (&[u8], &[u8])
    requires { bytes.now ≢ [] }
    ensures lines { lines_of bytes.now ≡ result.0.now ∷ lines_of result.1.now }
    ensures shorter { length result.1.now < length bytes.now }
{
    let Some(at) = first_break(bytes) else {
        return (bytes, &[]);
    };
    let (line, _) = bytes.split_at(at);
    let (_, rest) = bytes.split_at(at + 1);
    (line, rest)
}

/// Whether there are over so many lines.
pub fn over(most: usize, bytes: &[u8]) -> bool
    ensures { result ≡ nat_lt most (length (lines_of bytes.now)) }
{
    let mut left = most;
    let mut rest = bytes;
    'lines: while !rest.is_empty() {
        let (_, after) = first_line(rest);
        if left == 0 {
            return true;
        }
        left -= 1;
        rest = after;
    }
    false
}
