//! The bytes of files by their ids, in order: the stores in memory hold them so.
ghost use Rattle.std.specs.Prelude.{◌≡◌, ◌++◌, IfOk, OnOk, OnErr};

use std::alloc::{AllocError, Global};
use std::marker::Model;

/// The bytes of a file in memory, which contracts see as a list.
#[derive(Debug, Drop)]
pub struct FileBytes {
    items: Vec<u8>,
}

impl Model for FileBytes {
    ghost use Rattle.std.specs.Prelude.{List, ℕ};

    ghost Value = { List ℕ };

    ghost view = { λ b. b.items.items };
}

impl FileBytes {
    pub fn from_vec(items: Vec<u8>) -> FileBytes
        ensures { result ≡ items.items }
    {
        FileBytes { items }
    }

    pub fn from_slice(alloc: Global, bytes: &[u8]) -> Result<FileBytes, AllocError>
        ensures { IfOk result (λ made. made ≡ bytes.now) }
    {
        Ok(FileBytes {
            items: bytes.to_vec(alloc)?,
        })
    }

    pub fn as_slice(&self) -> &[u8]
        ensures { result.now ≡ self.now }
    {
        self.items.as_slice()
    }

    /// Puts the piece at the end.
    pub fn extend(&mut self, piece: &[u8]) -> Result<(), AllocError>
        ensures ok { OnOk result (self.new ≡ self.old ++ piece.now) }
        ensures err { OnErr result (self.new ≡ self.old) }
    {
        self.items.extend_from_slice(piece)
    }
}
