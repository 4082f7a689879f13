//! Types and values of key components. Contracts see them without pointers, as `specs/Kinds.antt` has them.
ghost use Rattle.std.specs.Prelude.{◌≡◌, ◌↔◌, IsTrue, pos, negsuc};
ghost use Rattle.std.specs.Str.{is_utf8};
ghost use Rattle.key_types.specs.Kinds.{kind_of, kinds_of, value_of, values_of, Fits, EachFits, fits_by, all_fit_by, AreBytes, all_bytes, within, order_by, orders_by};

use crate::bytes::ByteList;
use std::cmp::Ordering;

/// The type of a component of a key, named as in CQL.
#[cycle(col_type)]
#[derive(Drop)]
pub enum ColType {
    /// A signed number of 8 bits.
    TinyInt,
    /// A signed number of 16 bits.
    SmallInt,
    /// A signed number of 32 bits.
    Int,
    /// A signed number of 64 bits.
    BigInt,
    /// UTF-8.
    Text,
    /// Any bytes.
    Blob,
    Boolean,
    /// As many components as types.
    Tuple(TypeList),
    /// The values of the inner type, in descending order.
    Reversed(Box<ColType>),
}

/// The types of a list of components.
#[cycle(col_type)]
#[derive(Drop)]
pub enum TypeList {
    End,
    More(Box<ColType>, Box<TypeList>),
}

/// A value of a component of a key: numbers of every width are `Number`, texts and blobs are `Bytes`.
#[cycle(value)]
#[derive(Drop)]
pub enum Value {
    Number(i64),
    Bytes(ByteList),
    Truth(bool),
    Tuple(ValueList),
}

/// The values of a list of components.
#[cycle(value)]
#[derive(Drop)]
pub enum ValueList {
    End,
    More(Box<Value>, Box<ValueList>),
}

/// Whether the value is one of the type. A reversed type has the values of its inner type.
#[cycle(fits)]
pub fn fits(kind: &ColType, value: &Value) -> bool
    ensures fits { IsTrue result ↔ Fits (kind_of kind.now) (value_of value.now) }
    ensures by { result ≡ fits_by (kind_of kind.now) (value_of value.now) }
{
    match (kind, value) {
        (ColType::TinyInt, Value::Number(n)) => *n >= -128 && *n < 128,
        (ColType::SmallInt, Value::Number(n)) => *n >= -32768 && *n < 32768,
        (ColType::Int, Value::Number(n)) => *n >= -2147483648 && *n < 2147483648,
        (ColType::BigInt, Value::Number(n)) => is_long(*n),
        (ColType::Text, Value::Bytes(bytes)) => are_bytes(bytes.as_slice())
            && is_text(bytes.as_slice()),
        (ColType::Blob, Value::Bytes(bytes)) => are_bytes(bytes.as_slice()),
        (ColType::Boolean, Value::Truth(_)) => true,
        (ColType::Tuple(kinds), Value::Tuple(values)) => all_fit(kinds, values),
        (ColType::Reversed(inner), _) => fits(inner, value),
        _ => false,
    }
}

/// Whether there are as many values as types, and each fits its own.
#[cycle(fits)]
pub fn all_fit(kinds: &TypeList, values: &ValueList) -> bool
    ensures fits { IsTrue result ↔ EachFits (kinds_of kinds.now) (values_of values.now) }
    ensures by { result ≡ all_fit_by (kinds_of kinds.now) (values_of values.now) }
{
    match (kinds, values) {
        (TypeList::End, ValueList::End) => true,
        (TypeList::More(kind, kinds), ValueList::More(value, values)) => {
            fits(kind, value) && all_fit(kinds, values)
        }
        _ => false,
    }
}

/// The order of two values that fit the type: numbers by size, texts and blobs by unsigned bytes, false before
/// true, tuples component by component, and a reversed type the other way round.
#[cycle(compare)]
pub fn compare(kind: &ColType, a: &Value, b: &Value) -> Ordering
    ensures { result ≡ order_by (kind_of kind.now) (value_of a.now) (value_of b.now) }
{
    match (kind, a, b) {
        (ColType::Reversed(inner), _, _) => compare(inner, a, b).reverse(),
        (ColType::Tuple(kinds), Value::Tuple(xs), Value::Tuple(ys)) => compare_all(kinds, xs, ys),
        (_, Value::Number(x), Value::Number(y)) => x.cmp(y),
        (_, Value::Bytes(x), Value::Bytes(y)) => x.cmp(y),
        (_, Value::Truth(x), Value::Truth(y)) => x.cmp(y),
        _ => Ordering::Equal,
    }
}

/// The order of two lists of components, which the first different one decides.
#[cycle(compare)]
fn compare_all(kinds: &TypeList, a: &ValueList, b: &ValueList) -> Ordering
    ensures { result ≡ orders_by (kinds_of kinds.now) (values_of a.now) (values_of b.now) }
{
    match (kinds, a, b) {
        (TypeList::More(kind, kinds), ValueList::More(x, xs), ValueList::More(y, ys)) => {
            compare(kind, x, y).then(compare_all(kinds, xs, ys))
        }
        _ => Ordering::Equal,
    }
}

/// Whether the bytes are UTF-8.
pub fn is_text(bytes: &[u8]) -> bool
    ensures { result ≡ is_utf8 bytes.now }
{
    match str::from_utf8(bytes) {
        Ok(_) => true,
        Err(_) => false,
    }
}

/// Always: a slice holds bytes.
fn are_bytes(_bytes: &[u8]) -> bool
    ensures result { IsTrue result }
    ensures bytes { AreBytes _bytes.now }
    ensures by { IsTrue (all_bytes _bytes.now) }
{
    true
}

/// Always: the number has 64 bits.
fn is_long(_n: i64) -> bool
    ensures result { IsTrue result }
    ensures within { IsTrue (within (negsuc 9223372036854775807) (pos 9223372036854775808) _n) }
{
    true
}
