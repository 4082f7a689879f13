//! Numbers in lines. Each command that counts something prints it so.
ghost use Rattle.std.specs.Prelude.{◌≡◌, ◌++◌, OnOk};
ghost use Rattle.std.specs.Fmt.{decimal};

use itoa::Buffer;
use key_types::{ByteList, NoMemory};

/// Appends a label and a number behind it.
pub fn put_number(out: &mut ByteList, label: &[u8], n: u64) -> Result<(), NoMemory>
    ensures { OnOk result (out.new ≡ out.old ++ (label.now ++ decimal n)) }
{
    let mut digits = Buffer::new();
    out.extend(label)?;
    out.extend(digits.format(n).as_bytes())
}
