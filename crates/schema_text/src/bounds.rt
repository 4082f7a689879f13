//! The bounds on the lists of a schema, as tests.
ghost use Rattle.std.specs.Prelude.{◌≡◌, nat_le};
ghost use Rattle.key_types.specs.Kinds.{kind_of, kinds_of};
ghost use Rattle.key_types.specs.Layout.{count_of};
ghost use Rattle.schema_text.specs.Bounds.{is_few, are_few, is_shallow, are_shallow, is_short};

use key_types::{ColType, TypeList};

/// Whether a list has at most so many types.
fn has_at_most(most: u8, kinds: &TypeList) -> bool
    ensures { result ≡ nat_le (count_of (kinds_of kinds.now)) most }
{
    match kinds {
        TypeList::End => true,
        TypeList::More(_, rest) => most > 0 && has_at_most(most - 1, rest),
    }
}

/// Whether each tuple in the type has at most 8 components.
#[cycle(few)]
fn is_few(kind: &ColType) -> bool
    ensures { result ≡ is_few (kind_of kind.now) }
{
    match kind {
        ColType::Tuple(kinds) => has_at_most(8, kinds) && are_few(kinds),
        ColType::Reversed(inner) => is_few(inner),
        _ => true,
    }
}

/// Whether each tuple in the types has at most 8 components.
#[cycle(few)]
fn are_few(kinds: &TypeList) -> bool
    ensures { result ≡ are_few (kinds_of kinds.now) }
{
    match kinds {
        TypeList::End => true,
        TypeList::More(kind, rest) => is_few(kind) && are_few(rest),
    }
}

/// Whether there are at most 8 types, and each tuple in them has at most 8 components.
pub fn is_short(kinds: &TypeList) -> bool
    ensures { result ≡ is_short (kinds_of kinds.now) }
{
    has_at_most(8, kinds) && are_few(kinds)
}

/// Whether tuples are nested in the type at most so deep.
#[cycle(shallow)]
fn is_shallow(kind: &ColType, depth: u8) -> bool
    ensures { result ≡ is_shallow (kind_of kind.now) depth }
{
    match kind {
        ColType::Tuple(kinds) => depth > 0 && are_shallow(kinds, depth - 1),
        ColType::Reversed(inner) => is_shallow(inner, depth),
        _ => true,
    }
}

/// Whether tuples are nested in the types at most so deep.
#[cycle(shallow)]
pub fn are_shallow(kinds: &TypeList, depth: u8) -> bool
    ensures { result ≡ are_shallow (kinds_of kinds.now) depth }
{
    match kinds {
        TypeList::End => true,
        TypeList::More(kind, rest) => is_shallow(kind, depth) && are_shallow(rest, depth),
    }
}
