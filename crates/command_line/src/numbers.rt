//! Numbers in words: decimal digits alone, judged by their value. `getters` asks for them within their limits.
ghost use Rattle.std.specs.Prelude.{◌≡◌};
ghost use Rattle.command_line.specs.Numbers.{number_of, with_digit};

/// The number with one more decimal digit, where it fits 64 bits.
fn with_digit(number: u64, byte: u8) -> Option<u64>
    ensures { result ≡ with_digit number byte }
{
    if !byte.is_ascii_digit() {
        return None;
    }
    number.checked_mul(10)?.checked_add(u64::from(byte - b'0'))
}

/// The number that decimal digits spell, where it fits 64 bits.
pub fn number_of(text: &str) -> Option<u64>
    ensures { result ≡ number_of text.now }
{
    let mut rest = text.as_bytes();
    if rest.is_empty() {
        return None;
    }
    let mut number = 0;
    'digits: while let [byte, after @ ..] = rest {
        number = with_digit(number, *byte)?;
        rest = after;
    }
    Some(number)
}
