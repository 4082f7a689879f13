//! What a writer of a partition index holds of the partitions that it was given: the last, and the string before it.
//! The last is packed when the next one is known.
ghost use Rattle.std.specs.Prelude.{◌≡◌, ◌<◌, ◌^◌, [], OnOk, option_copied, pos};
ghost use Rattle.partition_index.specs.Writing.{string_before, newest_with};

use key_types::{ByteList, NoMemory};
use std::alloc::Global;
use std::mem;

/// The last partition, the string before it, and how many there are. Of none all is empty.
#[derive(Debug, Drop)]
pub struct Newest {
    pub before: ByteList,
    pub last: ByteList,
    pub number: i64,
    pub count: u64,
}

impl Newest {
    /// Of no partitions.
    pub fn new(alloc: Global) -> Newest
        ensures { result ≡ record { before = []; last = []; number = pos 0; count = 0 } }
    {
        Newest {
            before: ByteList::new(alloc),
            last: ByteList::new(alloc),
            number: 0,
            count: 0,
        }
    }

    /// The string before the last, where there is one.
    pub fn before(&self) -> Option<&[u8]>
        ensures { option_copied result ≡ string_before self.now }
    {
        if self.count > 1 {
            Some(self.before.as_slice())
        } else {
            None
        }
    }

    /// Takes one partition more.
    ///
    /// Errors: `NoMemory`, after which the last one is lost.
    pub fn take(&mut self, string: &[u8], number: i64) -> Result<(), NoMemory>
        requires { self.old.count < 2 ^ 63 }
        ensures { OnOk result (self.new ≡ newest_with self.old string.now number) }
    {
        mem::swap(&mut self.before, &mut self.last);
        self.last.truncate(0);
        self.last.extend(string)?;
        self.number = number;
        self.count += 1;
        Ok(())
    }
}
