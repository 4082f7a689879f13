//! Bytes go to the store, where there are any.
ghost use Rattle.std.specs.Prelude.{◌≡◌, ◌≤◌, Err};
ghost use Rattle.outside.specs.Causes.{Rose};
ghost use Rattle.page_packer.specs.Packing.{AppendsSome};

use bti_nodes::PackError;
use outside::{FileId, Store};

/// Appends bytes to a file; where there are none the store is not called.
///
/// Errors: `StoreFault`.
pub fn append_some<K: Store>(file: FileId, bytes: &[u8], store: &mut K) -> Result<(), PackError>
    ensures written { AppendsSome (K.files store.old) (K.files store.new) file result bytes.now }
    ensures reads { K.reads store.new ≡ K.reads store.old }
    ensures later { K.faults store.old ≤ K.faults store.new }
    ensures fault { result ≡ Err PackError.StoreFault → Rose (K.faults store.old) (K.faults store.new) }
{
    if bytes.is_empty() {
        return Ok(());
    }
    store.append(file, bytes)?;
    Ok(())
}
