//! The lines of a script, made from a number, and their text: `main` runs them and compares what is answered with them.
use std::alloc::{AllocFailed, Global};

/// Keys are the ints from 0 up to this, and bounds part them into four shards.
const KEYS: u32 = 64;

/// A line of a script; the value that is put is the number of its line.
#[derive(Clone, Copy, Debug, PartialEq, Eq)]
pub enum Line {
    Put { key: u32, value: u32 },
    Get { key: u32 },
    Sync,
}

/// The shard of a key between the bounds 16, 32 and 48.
pub fn shard_of(key: u32) -> usize {
    (key / 16) as usize
}

fn line_of(number: u32, random: u32) -> Line {
    let key = random % KEYS;
    match random / KEYS % 16 {
        0 => Line::Sync,
        1..=9 => Line::Put { key, value: number },
        _ => Line::Get { key },
    }
}

/// So many lines, by a linear congruential generator.
pub fn make_lines(alloc: Global, count: u32) -> Result<Vec<Line>, AllocFailed<Line>> {
    let mut lines = Vec::new(alloc);
    let mut state = 1u64;
    for number in 1..=count {
        state = state
            .wrapping_mul(6_364_136_223_846_793_005)
            .wrapping_add(1_442_695_040_888_963_407);
        lines.push(line_of(number, (state >> 33) as u32))?;
    }
    Ok(lines)
}
