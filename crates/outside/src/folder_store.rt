//! The store over a real folder, which the program makes: it tells no contents, and each failure is counted.
ghost use Rattle.std.specs.Prelude.{◌≤◌, ◌<◌, ◌^◌, IfOk, IfSome, None, length};

use crate::store::{FileId, Part, Store};
use crate::stream::Failed;
use std::fs::{Files, OpenFile, OpenOptions};
use std::io::{ErrorKind, Read, Seek, SeekFrom, Write};
use std::{fs, io};

/// Every file of a call that answers Ok has fewer bytes than this.
const LIMIT: u64 = 0x4000_0000_0000_0000;

/// A file that is held open, with its length and the place at which its handle stands.
#[derive(Drop)]
struct Held<F: Drop> {
    file: FileId,
    handle: F,
    length: u64,
    position: u64,
}

/// The files in the folder in which the program was started. A file's name is its generation in decimal, `-`, and
/// `Data.db`, `Partitions.db`, `Rows.db` or `Schema.txt`. This store tells no content.
///
/// At most one file is held open for reads and one for appends, each the one that was used so last. A file's length is asked for
/// when it is opened, and a read moves its handle only where it stands elsewhere. An append closes the file that is held for reads, so
/// that its length is asked for anew.
#[derive(Drop)]
pub struct FolderStore<'a, R: Files + AllocGlobal> {
    files: &'a R,
    reading: Option<Held<R::File>>,
    appending: Option<Held<R::File>>,
    faults: u64,
    reads: u64,
}

impl<'a, R: Files + AllocGlobal> FolderStore<'a, R> {
    /// The store over these files, which it reaches by their names alone.
    pub fn new(files: &'a R) -> FolderStore<'a, R> {
        FolderStore {
            files,
            reading: None,
            appending: None,
            faults: 0,
            reads: 0,
        }
    }
}

impl<'a, R: Files + AllocGlobal> Store for FolderStore<'a, R> {
    ghost files = { λ _. None };

    ghost faults = { λ s. s.faults };

    ghost reads = { λ s. s.reads };

    fn append(&mut self, file: FileId, piece: &[u8]) -> Result<(), Failed> {
        self.reading = None;
        match append_to(self.files, self.appending.take(), file, piece) {
            Ok(held) => {
                self.appending = Some(held);
                Ok(())
            }
            Err(_) => {
                self.faults = self.faults.saturating_add(1);
                Err(Failed)
            }
        }
    }

    fn read(&mut self, file: FileId, at: u64, into: &mut [u8]) -> Result<usize, Failed> {
        self.reads = self.reads.saturating_add(1);
        match read_from(self.files, self.reading.take(), file, at, into) {
            Ok((held, count)) => {
                self.reading = held;
                Ok(count)
            }
            Err(_) => {
                self.faults = self.faults.saturating_add(1);
                Err(Failed)
            }
        }
    }

    fn size(&mut self, file: FileId) -> Result<Option<u64>, Failed> {
        match size_of(self.files, file) {
            Ok(size) => Ok(size),
            Err(_) => {
                self.faults = self.faults.saturating_add(1);
                Err(Failed)
            }
        }
    }
}

/// The end of the name of a part's file.
fn ending_of(part: Part) -> &'static str {
    match part {
        Part::Data => "Data.db",
        Part::Partitions => "Partitions.db",
        Part::Rows => "Rows.db",
        Part::Schema => "Schema.txt",
    }
}

fn name_of<R: AllocGlobal>(files: &R, file: FileId) -> io::Result<String> {
    let generation = file.generation;
    let ending = ending_of(file.part);
    Ok(format!(in files.alloc(); "{generation}-{ending}")?)
}

/// An error where the file has too many bytes.
fn under_limit(length: u64) -> io::Result<u64>
    ensures { IfOk result (λ n. n < 2 ^ 62) }
{
    if length >= LIMIT {
        return Err(io::Error::from(ErrorKind::FileTooLarge));
    }
    Ok(length)
}

/// The file that was just opened.
fn held_from<F: OpenFile + Drop>(file: FileId, handle: F) -> io::Result<Held<F>> {
    let length = under_limit(handle.metadata()?.len())?;
    Ok(Held {
        file,
        handle,
        length,
        position: 0,
    })
}

/// The file, opened for appends. It is made where it is not there.
fn open_to_append<R: Files + AllocGlobal>(
    files: &R,
    held: Option<Held<R::File>>,
    file: FileId,
) -> io::Result<Held<R::File>> {
    match held {
        Some(held) if held.file == file => Ok(held),
        _ => {
            let name = name_of(files, file)?;
            let mut options = OpenOptions::new();
            options.append(true).create(true);
            let handle = options.open(files, name.as_str())?;
            held_from(file, handle)
        }
    }
}

/// The file, opened for reads, where it is there.
fn open_to_read<R: Files + AllocGlobal>(
    files: &R,
    held: Option<Held<R::File>>,
    file: FileId,
) -> io::Result<Option<Held<R::File>>> {
    match held {
        Some(held) if held.file == file => Ok(Some(held)),
        _ => {
            let name = name_of(files, file)?;
            match fs::File::open(files, name.as_str()) {
                Ok(handle) => Ok(Some(held_from(file, handle)?)),
                Err(e) if e.kind() == ErrorKind::NotFound => Ok(None),
                Err(e) => Err(e),
            }
        }
    }
}

/// Writes the piece at the end of the file, whatever stands before it.
fn append_to<R: Files + AllocGlobal>(
    files: &R,
    held: Option<Held<R::File>>,
    file: FileId,
    piece: &[u8],
) -> io::Result<Held<R::File>> {
    let mut held = open_to_append(files, held, file)?;
    let length = under_limit(held.length.saturating_add(piece.len() as u64))?;
    write_whole(&mut held.handle, piece)?;
    held.length = length;
    Ok(held)
}

fn write_whole<W: Write>(handle: &mut W, piece: &[u8]) -> io::Result<()> {
    let mut rest = piece;
    'pieces: while !rest.is_empty() {
        let count = handle.write(rest)?;
        if count == 0 {
            return Err(io::Error::from(ErrorKind::WriteZero));
        }
        rest = &rest[count..];
    }
    Ok(())
}

/// Fills the front of `into` with the file's bytes from `at`, and answers how many there were.
fn read_from<R: Files + AllocGlobal>(
    files: &R,
    held: Option<Held<R::File>>,
    file: FileId,
    at: u64,
    into: &mut [u8],
) -> io::Result<(Option<Held<R::File>>, usize)>
    ensures { IfOk result (λ p. p.1 ≤ length into.new) }
{
    let Some(mut held) = open_to_read(files, held, file)? else {
        return Ok((None, 0));
    };
    if at >= held.length {
        return Ok((Some(held), 0));
    }
    if held.position != at {
        held.handle.seek(SeekFrom::Start(at))?;
    }
    let count = fill(&mut held.handle, into)?;
    held.position = at.saturating_add(count as u64);
    Ok((Some(held), count))
}

fn fill<S: Read>(handle: &mut S, into: &mut [u8]) -> io::Result<usize>
    ensures { IfOk result (λ n. n ≤ length into.new) }
{
    let mut filled = 0;
    'fills: while filled < into.len() {
        let count = handle.read(&mut into[filled..])?;
        if count == 0 {
            break;
        }
        filled += count;
    }
    Ok(filled)
}

/// The file's length, and `None` where it is not there.
fn size_of<R: Files + AllocGlobal>(files: &R, file: FileId) -> io::Result<Option<u64>>
    ensures { IfOk result (λ size. IfSome size (λ n. n < 2 ^ 62)) }
{
    let name = name_of(files, file)?;
    match fs::metadata(files, name.as_str()) {
        Ok(found) => Ok(Some(under_limit(found.len())?)),
        Err(e) if e.kind() == ErrorKind::NotFound => Ok(None),
        Err(e) => Err(e),
    }
}
