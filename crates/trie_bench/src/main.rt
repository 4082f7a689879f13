//! Makes an image of many keys, and finds keys in it: the proved side of the comparison in bench/trie.
//!
//! Words: `build COUNT`, or `find COUNT LOOKUPS` to look so many keys up besides.
#![tactic(auto)]

ghost use Rattle.std.specs.Prelude.{◌<◌, ◌≤◌};

use key_types::NoMemory;
use owned_image::Image;
use std::alloc::Global;
use std::process::ExitCode;
use std::{env, io};

/// So many keys at most.
const MOST: u32 = 1_000_000;

/// Key number i: a separator, a scrambled number, a terminator, as a partition string has them.
fn key_of(i: u32) -> [u8; 6] {
    let [a, b, c, d] = i.wrapping_mul(2_654_435_761).to_be_bytes();
    [0x40, a, b, c, d, 0x38]
}

/// The image of so many keys; none where they don't fit into it.
fn build(alloc: Global, count: u32) -> Result<Option<Image>, NoMemory>
    requires { count ≤ 1_000_000 }
{
    let mut image = Image::new(alloc, 3 * count + 32)?;
    for i in 0..count {
        let key = key_of(i);
        let value = i.to_be_bytes();
        if !image.takes(&key, &value) {
            return Ok(None);
        }
        image.put(&key, &value);
    }
    Ok(Some(image))
}

/// How many of so many lookups find a record.
fn count_found(image: &Image, count: u32, lookups: u32) -> u32
    requires { 0 < count }
{
    let mut found = 0u32;
    for i in 0..lookups {
        if image.lookup(&key_of(i % count)).is_some() {
            found = found.saturating_add(1);
        }
    }
    found
}

fn run(rt: &HostRuntime, alloc: Global) -> io::Result<bool> {
    let words: Vec<String> = env::args(rt)?.skip(1).collect(alloc)?;
    let [work, count, rest @ ..] = words.as_slice() else {
        return Ok(false);
    };
    let Ok(count) = count.parse::<u32>() else {
        return Ok(false);
    };
    if count == 0 || count > MOST {
        return Ok(false);
    }
    let Ok(Some(image)) = build(alloc, count) else {
        return Ok(false);
    };
    println!(rt; "cells {}", image.used())?;
    if work.as_str() == "find" {
        let [lookups] = rest else {
            return Ok(false);
        };
        let Ok(lookups) = lookups.parse::<u32>() else {
            return Ok(false);
        };
        println!(rt; "found {}", count_found(&image, count, lookups))?;
    }
    Ok(true)
}

fn main(rt: HostRuntime) -> ExitCode {
    match run(&rt, rt.alloc()) {
        Ok(true) => ExitCode::from(0),
        _ => ExitCode::from(1),
    }
}
