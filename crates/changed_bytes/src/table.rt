//! A plain reader of the files of a table, in the order of places: it keeps nothing, and reads each file where it
//! stands. `main` compares its answers with those of the program.
use crate::bytes::{byte, number, short_string};
use crate::fault::Fault;
use crate::indexes::{entry_at, footer_of, signed};
use crate::keys::{Kind, is_string};
use crate::reader_error::ReaderError;
use crate::trie::Trie;
use crate::wrong::Spelled;
use std::alloc::Global;

/// What is read at a place, or the damage there.
pub type Read<T> = Result<Result<T, Fault>, ReaderError>;

/// The files of a table whose partitions have one `int` and whose rows have one component of this type.
#[derive(Clone, Copy)]
pub struct Table<'f> {
    pub data: &'f [u8],
    pub partitions: &'f [u8],
    pub rows: &'f [u8],
    pub kind: Kind,
}

/// A row, and where it ends.
#[derive(Clone, Copy)]
pub struct Row<'f> {
    pub clustering: &'f [u8],
    pub value: &'f [u8],
    pub end: u64,
}

/// A head, and where it ends.
#[derive(Clone, Copy)]
pub struct Head<'f> {
    pub partition: &'f [u8],
    pub end: u64,
}

/// Damage at a place.
pub fn damage<T>(part: &'static str, position: u64, cause: &'static str) -> Read<T> {
    Ok(Err(Fault {
        part,
        position,
        cause,
    }))
}

/// How many bytes the string takes with its length.
pub fn counted(string: &[u8]) -> u64 {
    (string.len() as u64).saturating_add(2)
}

/// Where a partition begins in Data.db, and where in Rows.db the trie of its blocks has its root, if it has one.
#[derive(Clone, Copy)]
struct Place {
    head: u64,
    root: Option<u64>,
}

impl<'f> Table<'f> {
    /// The root of the partition index; none in a table without partitions.
    fn root(&self, alloc: Global) -> Read<Option<u64>> {
        match footer_of(alloc, self.partitions)? {
            Ok(footer) if footer.partitions > 0 => Ok(Ok(Some(footer.root))),
            Ok(_) => Ok(Ok(None)),
            Err(fault) => Ok(Err(fault)),
        }
    }

    /// Where a payload of Partitions.db leads.
    fn place(&self, alloc: Global, payload: &[u8]) -> Read<Place> {
        match signed(payload) {
            Spelled::Plain(at) => Ok(match entry_at(alloc, self.rows, at)? {
                Ok(entry) => Ok(Place {
                    head: entry.head,
                    root: Some(entry.root),
                }),
                Err(fault) => Err(fault),
            }),
            Spelled::Complement(head) => Ok(Ok(Place { head, root: None })),
        }
    }

    pub fn head(&self, alloc: Global, at: u64) -> Read<Head<'f>> {
        let Some(partition) = short_string(self.data, at) else {
            return damage("Data", at, "bad head");
        };
        if !is_string(alloc, Kind::Int, partition)? {
            return damage("Data", at, "bad head");
        }
        let end = at.saturating_add(counted(partition));
        Ok(Ok(Head { partition, end }))
    }

    /// The row at a position of Data.db; none where the partition ends there.
    pub fn row(&self, alloc: Global, at: u64) -> Read<Option<Row<'f>>> {
        let bad = damage("Data", at, "bad row");
        match byte(self.data, at) {
            Some(0) => return Ok(Ok(None)),
            Some(1) => {}
            _ => return bad,
        }
        let at = at.saturating_add(1);
        let Some(clustering) = short_string(self.data, at) else {
            return bad;
        };
        let at = at.saturating_add(counted(clustering));
        let Some(value) = short_string(self.data, at) else {
            return bad;
        };
        if !is_string(alloc, self.kind, clustering)? {
            return bad;
        }
        let end = at.saturating_add(counted(value));
        Ok(Ok(Some(Row {
            clustering,
            value,
            end,
        })))
    }

    /// Where the rows begin that may have the key, and where their block begins.
    fn block(&self, alloc: Global, place: Place, rows: u64, key: &[u8]) -> Read<(u64, u64)> {
        let Some(root) = place.root else {
            return Ok(Ok((rows, place.head)));
        };
        let trie = Trie {
            part: "Rows",
            file: self.rows,
            root,
        };
        Ok(match trie.floor(alloc, key)? {
            Ok(Some(payload)) => {
                let start = place.head.saturating_add(number(payload));
                Ok((start, start))
            }
            Ok(None) => Ok((rows, place.head)),
            Err(fault) => Err(fault),
        })
    }

    /// The value of the row with this string, among the rows of a block from a place on.
    fn value(&self, alloc: Global, from: u64, block: u64, key: &[u8]) -> Read<Option<&'f [u8]>> {
        let mut at = from;
        for _ in 0..self.data.len() {
            let row = match self.row(alloc, at)? {
                Ok(Some(row)) => row,
                Ok(None) => return Ok(Ok(None)),
                Err(fault) => return Ok(Err(fault)),
            };
            if row.clustering == key {
                return Ok(Ok(Some(row.value)));
            }
            if row.clustering > key || row.end.saturating_sub(block) >= 16_384 {
                return Ok(Ok(None));
            }
            at = row.end;
        }
        Ok(Ok(None))
    }

    /// What the files have at a key.
    pub fn get(&self, alloc: Global, partition: &[u8], key: &[u8]) -> Read<Option<&'f [u8]>> {
        let root = match self.root(alloc)? {
            Ok(Some(root)) => root,
            Ok(None) => return Ok(Ok(None)),
            Err(fault) => return Ok(Err(fault)),
        };
        let trie = Trie {
            part: "Partitions",
            file: self.partitions,
            root,
        };
        let place = match trie.exact(alloc, partition)? {
            Ok(Some(payload)) => self.place(alloc, payload)?,
            Ok(None) => return Ok(Ok(None)),
            Err(fault) => return Ok(Err(fault)),
        };
        match place {
            Ok(place) => self.get_there(alloc, place, partition, key),
            Err(fault) => Ok(Err(fault)),
        }
    }

    /// What the partition at a place has at a key, if it is the key's.
    fn get_there(
        &self,
        alloc: Global,
        place: Place,
        partition: &[u8],
        key: &[u8],
    ) -> Read<Option<&'f [u8]>> {
        let head = match self.head(alloc, place.head)? {
            Ok(head) => head,
            Err(fault) => return Ok(Err(fault)),
        };
        if head.partition != partition {
            return Ok(Ok(None));
        }
        match self.block(alloc, place, head.end, key)? {
            Ok((from, block)) => self.value(alloc, from, block, key),
            Err(fault) => Ok(Err(fault)),
        }
    }

    /// The damage of the footer, which is read before the rows.
    pub fn footer_fault(&self, alloc: Global) -> Result<Option<Fault>, ReaderError> {
        Ok(self.root(alloc)?.err())
    }
}
