//! Laws over the definitions: no call has more than its clause.
ghost use Rattle.byte_order.specs.Laws.{SeparatorSize, UniqueAmongAll, UniqueSize};

/// In an ascending list the shortest prefix that no neighbour has is the shortest that no other string has.
pub fn law_unique_among_all()
    ensures { UniqueAmongAll }
{}

/// The bytes that tell a key from its neighbours are its shortest prefix that neither has.
pub fn law_unique_size()
    ensures { UniqueSize }
{}

/// The bytes that tell a string from a lesser one are its shortest prefix above that.
pub fn law_separator_size()
    ensures { SeparatorSize }
{}
