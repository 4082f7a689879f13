//! Why an index file is refused. The checks of index files answer these.
ghost use Rattle.std.specs.Prelude.{◌≡◌};
ghost use Rattle.data_file.specs.declared.reading.DataError.TheVariants.{Damaged};
ghost use Rattle.index_files.specs.Reading.{file_damage};
ghost use Rattle.data_walk.specs.declared.refusal.Refusal.TheVariants.{Unread};
ghost use Rattle.path_check.specs.Paths.{number_clash};

use bti_nodes::{Cause, Damage};
use data_file::DataError;
use data_walk::{Clash, Refusal, clash_at};
use outside::Part;

/// The refusal for a number at a place of a file that isn't the one that Data.db gives.
pub fn number_clash(part: Part, position: u64, found: i128, wanted: i128) -> Refusal
    ensures { result ≡ number_clash part position found wanted }
{
    clash_at(part, position, Clash::Number { found, wanted })
}

/// The refusal for damage at a place of a file.
pub fn damage_at(part: Part, position: u64, cause: Cause) -> Refusal
    ensures { result ≡ Unread (Damaged (file_damage part position cause)) }
{
    Refusal::Unread(DataError::Damaged(Damage {
        part,
        position,
        cause,
    }))
}
