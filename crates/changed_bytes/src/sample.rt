//! A table that the program wrote, held in memory, and what the program prints of its files. `main` makes one a script.
use crate::keys::Kind;
use crate::printed::Query;
use crate::reader_error::ReaderError;
use crate::table::Table;
use outside::{FileId, MemSink, MemSource, MemStore, OpenGate, Part};
use std::alloc::Global;
use std::thread::Threads;
use table_tool::run;

/// A script and the queries that are asked of its table: words of commands, and the strings of the keys in them.
#[derive(Clone, Copy)]
pub struct Script {
    pub name: &'static str,
    pub schema: &'static str,
    pub kind: Kind,
    pub lines: &'static [Repeated],
    pub gets: &'static [Get],
}

/// Lines of puts, one for each number from `first` to `last`: the text before the number, the text behind it, and how
/// many letters its value has.
#[derive(Clone, Copy)]
pub struct Repeated {
    pub first: u32,
    pub last: u32,
    pub before: &'static str,
    pub behind: &'static str,
    pub letters: u32,
}

/// A key, by its text and its two strings.
#[derive(Clone, Copy)]
pub struct Get {
    pub text: &'static str,
    pub partition: &'static [u8],
    pub clustering: &'static [u8],
}

impl Get {
    /// The query of its strings, over files that are sound or not.
    pub fn query(&self, is_sound: bool) -> Query<'static> {
        let partition = self.partition;
        let clustering = self.clustering;
        if is_sound {
            Query::Listed {
                partition,
                clustering,
            }
        } else {
            Query::Get {
                partition,
                clustering,
            }
        }
    }
}

/// What the program printed, and its status.
#[derive(Drop)]
pub struct Answer {
    pub text: Vec<u8>,
    pub status: u8,
}

/// The file of a part of the one generation.
pub fn file_of(part: Part) -> FileId {
    FileId {
        generation: 1,
        part,
    }
}

fn put_line(
    alloc: Global,
    lines: &Repeated,
    n: u32,
    script: &mut Vec<u8>,
) -> Result<(), ReaderError> {
    let number = format!(in alloc; "{n}")?;
    script.extend_from_slice(lines.before.as_bytes())?;
    if lines.first < lines.last {
        script.extend_from_slice(number.as_bytes())?;
    }
    script.extend_from_slice(lines.behind.as_bytes())?;
    for _ in 0..lines.letters {
        script.push(b'a')?;
    }
    script.push(b'\n')?;
    Ok(())
}

fn script_of(alloc: Global, lines: &[Repeated]) -> Result<Vec<u8>, ReaderError> {
    let mut script = Vec::new(alloc);
    for repeated in lines {
        for n in repeated.first..=repeated.last {
            put_line(alloc, repeated, n, &mut script)?;
        }
    }
    Ok(script)
}

fn words_of(alloc: Global, texts: &[&str]) -> Result<Vec<String>, ReaderError> {
    let mut words = Vec::new(alloc);
    for text in texts {
        words.push(String::from_str(alloc, text)?)?;
    }
    Ok(words)
}

/// A store with the files that a `load` of the script writes.
pub fn loaded<R: Threads + Sync>(
    rt: &R,
    alloc: Global,
    script: &Script,
) -> Result<MemStore, ReaderError> {
    let words = words_of(alloc, &["load", "--schema", script.schema])?;
    let mut source = MemSource::new(script_of(alloc, script.lines)?, 4093, Vec::new(alloc));
    let mut sink = MemSink::new(alloc, Vec::new(alloc));
    let mut store = MemStore::new(alloc, Vec::new(alloc));
    let status = run(
        rt,
        alloc,
        &words,
        &mut source,
        &mut sink,
        &mut store,
        &OpenGate,
    );
    if status.number() == 0 {
        Ok(store)
    } else {
        Err(ReaderError::NotLoaded)
    }
}

/// What the program prints of a query's words.
pub fn answer_of<R: Threads + Sync>(
    rt: &R,
    alloc: Global,
    texts: &[&str],
    store: &mut MemStore,
) -> Result<Answer, ReaderError> {
    let words = words_of(alloc, texts)?;
    let mut source = MemSource::new(Vec::new(alloc), 1, Vec::new(alloc));
    let mut sink = MemSink::new(alloc, Vec::new(alloc));
    let status = run(rt, alloc, &words, &mut source, &mut sink, store, &OpenGate);
    Ok(Answer {
        text: sink.written().to_vec(alloc)?,
        status: status.number(),
    })
}

/// The bytes of a part of the table.
pub fn bytes_of(store: &MemStore, part: Part) -> Result<&[u8], ReaderError> {
    store.contents(file_of(part)).ok_or(ReaderError::NotLoaded)
}

/// The table of the store's files.
pub fn table_of<'s>(store: &'s MemStore, kind: Kind) -> Result<Table<'s>, ReaderError> {
    Ok(Table {
        data: bytes_of(store, Part::Data)?,
        partitions: bytes_of(store, Part::Partitions)?,
        rows: bytes_of(store, Part::Rows)?,
        kind,
    })
}
