//! What the lines name. The promises of the commands that print them stand on it.
ghost use Rattle.row_text.specs.Printed.{KeysAreNamed};

/// The line of a row names the components of which its key's string is put together, and so does that of a static
/// value.
pub fn law_keys_are_named()
    ensures { KeysAreNamed }
{}
