//! A plain check of the files of a table, in the order in which docs/COMMANDS.md says that `check` looks at them.
//! `main` compares its answer with that of the program.
use crate::bytes::number;
use crate::indexes::{Footer, entry_at, footer_of, footer_place, signed};
use crate::listing::{Partition, partitions_of, row_count};
use crate::paths::Paths;
use crate::reader_error::ReaderError;
use crate::table::Table;
use crate::trie::Trie;
use crate::wrong::{Other, Spelled, Wrong, clash_at, need_number, sound};
use std::alloc::Global;

/// How many partitions and rows there are.
#[derive(Clone, Copy)]
pub struct Counts {
    pub partitions: u64,
    pub rows: u64,
}

fn common(a: &[u8], b: &[u8]) -> usize {
    let mut count = 0usize;
    for (x, y) in a.iter().zip(b.iter()) {
        if x != y {
            break;
        }
        count = count.saturating_add(1);
    }
    count
}

/// So many bytes of a string, or all.
fn prefix(string: &[u8], count: usize) -> &[u8] {
    string.get(..count).unwrap_or(string)
}

/// The string of the partition at a place of the list, or an empty one.
fn string_at<'f>(partitions: &[Partition<'f>], i: Option<usize>) -> &'f [u8] {
    let Some(i) = i else {
        return &[];
    };
    match partitions.get(i) {
        Some(partition) => partition.string,
        None => &[],
    }
}

/// The shortest prefix of a partition's string that neither neighbour has.
fn unique_path<'f>(partitions: &[Partition<'f>], i: usize) -> &'f [u8] {
    let string = string_at(partitions, Some(i));
    let before = common(string_at(partitions, i.checked_sub(1)), string);
    let behind = common(string_at(partitions, i.checked_add(1)), string);
    prefix(string, before.max(behind).saturating_add(1))
}

/// The footer, whose strings are to be those of the first and the last partition.
fn check_footer<'f>(
    alloc: Global,
    table: &Table<'f>,
    partitions: &[Partition<'f>],
) -> Result<Footer<'f>, Wrong> {
    let footer = sound(footer_of(alloc, table.partitions))?;
    let first = string_at(partitions, Some(0));
    let last = string_at(partitions, partitions.len().checked_sub(1));
    if footer.first == first && footer.last == last {
        Ok(footer)
    } else {
        Err(clash_at("Partitions", footer_place(table.partitions), Other::Key))
    }
}

/// Looks at the number of a path of Partitions.db: the place of a partition of one block, or that of an entry.
fn check_number(partition: &Partition<'_>, node: u64, found: Spelled) -> Result<(), Wrong> {
    if partition.blocks.is_empty() {
        return need_number(
            "Partitions",
            node,
            found,
            Spelled::Complement(partition.head),
        );
    }
    match found {
        Spelled::Plain(_) => Ok(()),
        Spelled::Complement(_) => need_number("Partitions", node, found, Spelled::Plain(0)),
    }
}

/// The paths of the trie of Partitions.db from their first one on.
fn partition_paths<'f>(
    alloc: Global,
    table: &Table<'f>,
    root: u64,
) -> Result<Paths<'f>, ReaderError> {
    Paths::new(
        alloc,
        Trie {
            part: "Partitions",
            file: table.partitions,
            root,
        },
    )
}

fn check_partitions<'f>(
    alloc: Global,
    table: &Table<'f>,
    partitions: &[Partition<'f>],
    root: u64,
) -> Result<(), Wrong> {
    let mut paths = partition_paths(alloc, table, root)?;
    let mut i = 0usize;
    for partition in partitions {
        let hit = paths.given(alloc)?;
        if hit.path.as_slice() != unique_path(partitions, i) {
            return Err(clash_at("Partitions", hit.node, Other::Path));
        }
        check_number(partition, hit.node, signed(hit.payload))?;
        i = i.saturating_add(1);
    }
    paths.end(alloc)
}

/// Looks at the paths of the row index at a root: the separators of the partition's blocks, with their offsets.
fn check_blocks<'f>(
    alloc: Global,
    table: &Table<'f>,
    partition: &Partition<'f>,
    root: u64,
) -> Result<(), Wrong> {
    let trie = Trie {
        part: "Rows",
        file: table.rows,
        root,
    };
    let mut paths = Paths::new(alloc, trie)?;
    for block in partition.blocks.as_slice() {
        let hit = paths.given(alloc)?;
        let size = common(block.before, block.first).saturating_add(1);
        if hit.path.as_slice() != prefix(block.first, size) {
            return Err(clash_at("Rows", hit.node, Other::Path));
        }
        let found = Spelled::Plain(number(hit.payload));
        need_number("Rows", hit.node, found, Spelled::Plain(block.offset))?;
    }
    paths.end(alloc)
}

/// Looks at the entry at a place of Rows.db, which is to be the partition's, and answers the root of its row index.
fn check_entry(
    alloc: Global,
    table: &Table<'_>,
    at: u64,
    partition: &Partition<'_>,
) -> Result<u64, Wrong> {
    let entry = sound(entry_at(alloc, table.rows, at))?;
    if entry.partition != partition.string {
        return Err(clash_at("Rows", at, Other::Key));
    }
    let blocks = (partition.blocks.len() as u64).saturating_add(1);
    need_number(
        "Rows",
        at,
        Spelled::Plain(entry.head),
        Spelled::Plain(partition.head),
    )?;
    need_number(
        "Rows",
        at,
        Spelled::Plain(entry.blocks),
        Spelled::Plain(blocks),
    )?;
    Ok(entry.root)
}

fn check_entries<'f>(
    alloc: Global,
    table: &Table<'f>,
    partitions: &[Partition<'f>],
    root: u64,
) -> Result<(), Wrong> {
    let mut paths = partition_paths(alloc, table, root)?;
    for partition in partitions {
        let hit = paths.given(alloc)?;
        if !partition.blocks.is_empty() {
            let index = check_entry(alloc, table, number(hit.payload), partition)?;
            check_blocks(alloc, table, partition, index)?;
        }
    }
    Ok(())
}

/// How many partitions and rows the files have, where they are those of one table; or the first of what is wrong.
pub fn check(alloc: Global, table: &Table<'_>) -> Result<Counts, Wrong> {
    let list = partitions_of(alloc, table)?;
    let partitions = list.as_slice();
    let footer = check_footer(alloc, table, partitions)?;
    if !partitions.is_empty() {
        check_partitions(alloc, table, partitions, footer.root)?;
        check_entries(alloc, table, partitions, footer.root)?;
    }
    let counts = Counts {
        partitions: partitions.len() as u64,
        rows: row_count(partitions),
    };
    let found = Spelled::Plain(footer.partitions);
    need_number(
        "Partitions",
        footer_place(table.partitions),
        found,
        Spelled::Plain(counts.partitions),
    )?;
    Ok(counts)
}
