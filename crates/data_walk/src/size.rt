//! How many bytes Data.db has. Each step of a check asks it before it begins a walk.
ghost use Rattle.std.specs.Prelude.{◌≡◌, ◌≤◌, ◌<◌, ◌^◌, length, IfErr, IfOk, IfSome};
ghost use Rattle.outside.specs.Causes.{Rose};
ghost use Rattle.outside.specs.Files.{bytes_of};
ghost use Rattle.data_file.specs.declared.reading.DataError.TheVariants.{StoreFault};
ghost use Rattle.table_files.specs.Names.{data_id};
ghost use Rattle.data_walk.specs.declared.refusal.Refusal.TheVariants.{Unread};

use crate::refusal::Refusal;
use outside::Store;
use table_files::data_id;

/// How many bytes the Data.db of a generation has: none where it isn't there.
pub fn data_size<K: Store>(store: &mut K, generation: u32) -> Result<u64, Refusal>
    ensures size { IfSome (K.files store.old) (λ m. IfOk result (λ n. n ≡ length (bytes_of m (data_id generation)))) }
    ensures few { IfOk result (λ n. n < 2 ^ 62) }
    ensures stops { IfErr result (λ e. e ≡ Unread StoreFault) }
    ensures fault { IfErr result (λ _. Rose (K.faults store.old) (K.faults store.new)) }
    ensures files { K.files store.new ≡ K.files store.old }
    ensures later { K.faults store.old ≤ K.faults store.new }
{
    Ok(store.size(data_id(generation))?.unwrap_or(0))
}
