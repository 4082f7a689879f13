//! The columns of a table, which always keep the bounds on their lists.
ghost use Rattle.std.specs.Prelude.{IsTrue};
ghost use Rattle.key_types.specs.Layout.{is_layout};

use crate::kinds::TypeList;

/// The greatest length of a value, in bytes.
pub const LONGEST_VALUE: usize = 65_535;

/// The type of the values of a table.
#[derive(Clone, Copy, Debug, PartialEq, Eq)]
pub enum ValueType {
    /// UTF-8.
    Text,
    /// Any bytes.
    Blob,
}

/// The columns of a table: 1 to 8 partition components and 0 to 8 clustering components, tuples of 1 to 8
/// components nested at most 4 deep, and no reversed type right inside a reversed one.
#[derive(Drop)]
pub struct Schema {
    /// The components that say which partition a row is in.
    pub partition: TypeList,
    /// The components by which the rows of a partition go.
    pub clustering: TypeList,
    /// The type of each row's value.
    pub value: ValueType,
    /// The type of the value that a partition has once, where it has one.
    pub static_value: Option<ValueType>,
    ghost layout: { IsTrue (is_layout partition clustering) },
}
