//! The order of byte strings, and prefixes. Every crate that compares strings of keys stands on it.
ghost use Rattle.std.specs.Prelude.{◌≡◌, ◌↔◌, IsTrue};
ghost use Rattle.byte_order.specs.Strings.{IsPrefix};
ghost use Rattle.key_types.specs.Table.{string_cmp};

use std::cmp::Ordering;

/// The order of two byte strings.
pub fn compare_bytes(a: &[u8], b: &[u8]) -> Ordering
    ensures { result ≡ string_cmp a.now b.now }
{
    a.cmp(b)
}

/// Whether `a` is a prefix of `b`. Each string is one of itself.
pub fn is_prefix(a: &[u8], b: &[u8]) -> bool
    ensures { IsTrue result ↔ IsPrefix a.now b.now }
{
    b.starts_with(a)
}
