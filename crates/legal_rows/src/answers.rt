//! What the answers to the gets of a script have to be, by its lines alone.
use crate::lines::{Line, shard_of};
use std::alloc::{AllocFailed, Global};

/// A put of a shard.
#[derive(Clone, Copy, Debug, PartialEq, Eq)]
pub struct Put {
    pub key: u32,
    pub value: u32,
}

/// What is known of a shard while its lines are passed: its puts, how many of them stand in earlier batches, and the numbers that
/// each reader was told last.
#[derive(Drop)]
pub struct Shard {
    pub puts: Vec<Put>,
    pub before: usize,
    pub told: [usize; 3],
}

impl Shard {
    pub fn new(alloc: Global) -> Shard {
        Shard {
            puts: Vec::new(alloc),
            before: 0,
            told: [0; 3],
        }
    }

    /// The value of a key's last put among the first so many.
    fn value_after(&self, count: usize, key: u32) -> Option<u32> {
        let mut value = None;
        for put in self.puts.iter().take(count) {
            if put.key == key {
                value = Some(put.value);
            }
        }
        value
    }

    /// Whether an answer may be given to a reader: its number lies between the puts of earlier batches and those up to its own, is
    /// no less than the reader was told before, and its value is that of the key's last put so far.
    pub fn allows(&mut self, reader: usize, key: u32, value: Option<u32>, count: usize) -> bool {
        let Some(told) = self.told.get_mut(reader) else {
            return false;
        };
        let least = self.before.max(*told);
        *told = count;
        least <= count && count <= self.puts.len() && self.value_after(count, key) == value
    }
}

/// The value and the number of an answer's line, as in `'7' @3` or `none @0`.
pub fn read_answer(line: &str) -> Option<(Option<u32>, usize)> {
    let (value, number) = line.split_once(" @")?;
    let number = number.parse::<u32>().ok()?;
    if value == "none" {
        return Some((None, number as usize));
    }
    let value = value.strip_prefix('\'')?.strip_suffix('\'')?;
    Some((Some(value.parse::<u32>().ok()?), number as usize))
}

/// The shards with the puts of a batch.
pub fn add_puts(shards: &mut [Shard], batch: &[Line]) -> Result<(), AllocFailed<Put>> {
    for line in batch {
        if let Line::Put { key, value } = *line
            && let Some(shard) = shards.get_mut(shard_of(key))
        {
            shard.puts.push(Put { key, value })?;
        }
    }
    Ok(())
}
