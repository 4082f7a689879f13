//! The lines of a batch, lent to those who do them.
ghost use Rattle.std.specs.Prelude.{◌≡◌, IfOk};
ghost use Rattle.shard_table.specs.Seats.{AreEach};
ghost use Rattle.script_text.specs.Pieces.{LendsGet, LendsPut};

use key_types::NoMemory;
use script_text::{Batch, GetLine, PutLine};
use std::alloc::Global;

/// The puts of a batch.
pub(crate) fn lend_puts(alloc: Global, batch: &Batch) -> Result<Vec<PutLine<'_>>, NoMemory>
    ensures { IfOk result (λ puts. AreEach LendsPut puts.items batch.now.puts) }
{
    let mut puts = Vec::with_capacity(alloc, batch.put_count())?;
    'puts: for i in 0..batch.put_count() {
        puts.push(batch.put(i))?;
    }
    Ok(puts)
}

/// The gets of a batch.
pub(crate) fn lend_gets(alloc: Global, batch: &Batch) -> Result<Vec<GetLine<'_>>, NoMemory>
    ensures { IfOk result (λ gets. AreEach LendsGet gets.items batch.now.gets) }
{
    let mut gets = Vec::with_capacity(alloc, batch.get_count())?;
    'gets: for i in 0..batch.get_count() {
        gets.push(batch.get(i))?;
    }
    Ok(gets)
}
