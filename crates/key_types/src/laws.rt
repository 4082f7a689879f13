//! What holds of the sorted map that puts leave, for the crates that keep it in another form.
ghost use Rattle.key_types.specs.Table.{GetsLastPut, IsOver};

/// A get of the map that puts leave is the value of the key's last put, and there is none exactly where no put is of the
/// key.
pub fn law_last_put()
    ensures { GetsLastPut }
{}

/// The map of one list of puts behind another is the second's over the first's.
pub fn law_puts_over()
    ensures { IsOver }
{}
