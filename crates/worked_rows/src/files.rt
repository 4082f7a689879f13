//! The files of a row's store.
use crate::content::{number, word};
use crate::row_error::RowError;
use outside::{Fail, FileId, MemStore, Part};
use std::alloc::Global;

const PARTS: [Part; 4] = [Part::Data, Part::Partitions, Part::Rows, Part::Schema];

fn file_of(part: Part) -> FileId {
    FileId {
        generation: 1,
        part,
    }
}

/// The file of a part by its name.
pub fn file_named(name: &str) -> Result<FileId, RowError> {
    match name {
        "Data" => Ok(file_of(Part::Data)),
        "Partitions" => Ok(file_of(Part::Partitions)),
        "Rows" => Ok(file_of(Part::Rows)),
        "Schema" => Ok(file_of(Part::Schema)),
        _ => Err(RowError::BadLine),
    }
}

/// The bytes of a file; none where it isn't there.
fn bytes_of(alloc: Global, store: &MemStore, file: FileId) -> Result<Vec<u8>, RowError> {
    Ok(store.contents(file).unwrap_or(b"").to_vec(alloc)?)
}

/// A store with the same files, in which these calls fail, counted from now on.
pub fn with_fails(alloc: Global, store: &MemStore, fails: Vec<Fail>) -> Result<MemStore, RowError> {
    let mut other = MemStore::new(alloc, fails);
    for part in PARTS {
        let file = file_of(part);
        if let Some(bytes) = store.contents(file) {
            other.put_file(file, bytes.to_vec(alloc)?)?;
        }
    }
    Ok(other)
}

/// `PART LENGTH`: cuts a file off.
pub fn cut(alloc: Global, store: &mut MemStore, text: &str) -> Result<(), RowError> {
    let (name, length) = word(text);
    let file = file_named(name)?;
    let mut bytes = bytes_of(alloc, store, file)?;
    bytes.truncate(number(length)? as usize);
    Ok(store.put_file(file, bytes)?)
}

/// `PART PLACE HEX`: sets a byte.
pub fn set_byte(alloc: Global, store: &mut MemStore, text: &str) -> Result<(), RowError> {
    let (name, rest) = word(text);
    let (place, digits) = word(rest);
    let file = file_named(name)?;
    let mut bytes = bytes_of(alloc, store, file)?;
    let given = hex::decode(alloc, digits).map_err(|_| RowError::BadLine)?;
    let [byte] = given.as_slice() else {
        return Err(RowError::BadLine);
    };
    let found = bytes
        .get_mut(number(place)? as usize)
        .ok_or(RowError::BadLine)?;
    *found = *byte;
    Ok(store.put_file(file, bytes)?)
}
