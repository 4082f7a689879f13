//! Bytes split at their quotes.
ghost use Rattle.std.specs.Prelude.{◌≡◌, ◌<◌, ◌++◌, ◌∷◌, ◌==◌, length, Err, IfSome, IfNone};
ghost use Rattle.std.specs.List.{position_from};
ghost use Rattle.key_types.specs.Literals.{quotes_doubled};
ghost use Rattle.key_text.specs.Reading.{quoted_at, behind_quote};
ghost use Rattle.grammar.specs.Reading.{with_front};

/// Where the first quote is.
fn first_quote(bytes: &[u8]) -> Option<usize>
    ensures { result ≡ position_from (λ b. b == 39) 0 bytes.now }
{
    bytes.iter().position(|b| *b == b'\'')
}

/// The bytes in front of the first quote and those behind it, and none where there is no quote.
pub fn split_quote(bytes: &[u8]) -> Option<(&[u8], &[u8])>
    ensures read { IfSome result (λ x. quoted_at bytes.now ≡ with_front x.0.now (behind_quote x.1.now)) }
    ensures written { IfSome result (λ x. quotes_doubled bytes.now ≡ x.0.now ++ 39 ∷ 39 ∷ quotes_doubled x.1.now) }
    ensures shorter { IfSome result (λ x. length x.1.now < length bytes.now) }
    ensures unread { IfNone result (quoted_at bytes.now ≡ Err 0) }
    ensures plain { IfNone result (quotes_doubled bytes.now ≡ bytes.now) }
{
    let at = first_quote(bytes)?;
    let (front, _) = bytes.split_at(at);
    let (_, rest) = bytes.split_at(at + 1);
    Some((front, rest))
}
