//! A pass over the lines of a script, batch by batch, that compares what was printed with what may be. `main` makes it.
use crate::answers::{Put, Shard, add_puts, read_answer};
use crate::lines::{Line, shard_of};
use crate::row_error::RowError;
use std::alloc::{AllocFailed, Global};

/// What stands when a batch is passed: the shards, the answers that were printed, and how many gets were compared with them.
#[derive(Drop)]
pub struct Checker {
    alloc: Global,
    shards: Vec<Shard>,
    answers: Vec<(Option<u32>, usize)>,
    pub gets: usize,
    pub bad: u32,
}

impl Checker {
    /// Over the lines that were printed for the gets, which are all but the last.
    pub fn new(alloc: Global, text: &str) -> Result<Checker, RowError> {
        let mut answers = Vec::new(alloc);
        for line in text.lines() {
            if let Some(answer) = read_answer(line) {
                answers.push(answer)?;
            }
        }
        let mut shards = Vec::new(alloc);
        for _ in 0..4u32 {
            shards.push(Shard::new(alloc))?;
        }
        Ok(Checker {
            alloc,
            shards,
            answers,
            gets: 0,
            bad: 0,
        })
    }

    fn is_legal(&mut self, key: u32) -> bool {
        let reader = self.gets % 3;
        match (
            self.answers.get(self.gets),
            self.shards.get_mut(shard_of(key)),
        ) {
            (Some((value, count)), Some(shard)) => shard.allows(reader, key, *value, *count),
            _ => false,
        }
    }

    fn pass_batch(&mut self, batch: &[Line]) -> Result<(), AllocFailed<Put>> {
        add_puts(self.shards.as_mut_slice(), batch)?;
        for line in batch {
            if let Line::Get { key } = *line {
                if !self.is_legal(key) {
                    self.bad = self.bad.saturating_add(1);
                }
                self.gets = self.gets.saturating_add(1);
            }
        }
        for shard in self.shards.as_mut_slice() {
            shard.before = shard.puts.len();
        }
        Ok(())
    }

    /// Passes all batches, and answers whether there was an answer for each get and no other.
    pub fn pass(&mut self, lines: &[Line]) -> Result<bool, RowError> {
        let mut batch = Vec::new(self.alloc);
        for line in lines {
            if *line == Line::Sync {
                self.pass_batch(batch.as_slice())?;
                batch.clear();
            } else {
                batch.push(*line)?;
            }
        }
        self.pass_batch(batch.as_slice())?;
        Ok(self.gets == self.answers.len())
    }
}
