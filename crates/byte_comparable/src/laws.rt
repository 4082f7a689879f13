//! What the strings keep of the values, for the crates that compare strings in place of values.
ghost use Rattle.byte_comparable.specs.Order.{KeepsOrder, AreWeaklyPrefixFree, ArePrefixFree, IsRange, IsKeyRange};

/// The order of the strings of keys is the order of the keys: by partition components, and within a partition the static key first, the others by clustering components.
pub fn law_order()
    ensures { KeepsOrder }
{}

/// Encodings are weakly prefix-free.
pub fn law_weakly_prefix_free()
    ensures { AreWeaklyPrefixFree }
{}

/// Whole strings are prefix-free.
pub fn law_prefix_free()
    ensures { ArePrefixFree }
{}

/// A row is in a range exactly where its strings lie between the bound strings; and a key of any kind, also a static
/// one, exactly where its string lies between the strings from which and up to which the range goes.
pub fn law_range()
    ensures rows { IsRange }
    ensures keys { IsKeyRange }
{}
