//! Whether a run in which one call failed left what it may, beside the same run in which none did.
use crate::trial::{Failing, Files, Left};

const SOURCE_FAULT: u8 = 4;

const SINK_FAULT: u8 = 5;

const STORE_FAULT: u8 = 6;

/// The bytes of one of the files; an absent one counts as an empty one.
fn bytes_at(files: &Files, i: usize) -> &[u8] {
    match files.bytes.get(i) {
        Some(Some(bytes)) => bytes.as_slice(),
        _ => &[],
    }
}

fn has_none(files: &Files) -> bool {
    for file in files.bytes.as_slice() {
        if file.is_some() {
            return false;
        }
    }
    true
}

/// Whether the bytes of all files are the same.
fn are_same(files: &Files, whole: &Files) -> bool {
    for i in 0..4usize {
        if bytes_at(files, i) != bytes_at(whole, i) {
            return false;
        }
    }
    true
}

/// Whether each file is a prefix of what it was to be, and Schema.txt, the last, has bytes only where all others are
/// whole.
fn are_prefixes(files: &Files, whole: &Files) -> bool {
    let mut others = true;
    for i in 0..3usize {
        let bytes = bytes_at(files, i);
        if !bytes_at(whole, i).starts_with(bytes) {
            return false;
        }
        others = others && bytes.len() == bytes_at(whole, i).len();
    }
    let schema = bytes_at(files, 3);
    bytes_at(whole, 3).starts_with(schema) && (schema.is_empty() || others)
}

/// Whether the files are as a command that may write them leaves them at a fault, or as they were before one that may
/// not.
fn suit_files(left: &Left, whole: &Left, before: &Files) -> bool {
    if has_none(before) {
        are_prefixes(&left.files, &whole.files)
    } else {
        are_same(&left.files, before)
    }
}

/// Whether whole lines of the undisturbed run stand before the line of a fault.
fn ends_with(left: &Left, whole: &Left, line: &str) -> bool {
    let Some(lines) = left.text.as_slice().strip_suffix(line.as_bytes()) else {
        return false;
    };
    let ended = match lines.last() {
        Some(last) => *last == b'\n',
        None => true,
    };
    ended && whole.text.as_slice().starts_with(lines)
}

/// A fault of the source: its line alone, and the files are as before.
fn suits_source(left: &Left, before: &Files) -> bool {
    left.status == SOURCE_FAULT
        && left.text.as_slice() == b"error: source fault\n".as_slice()
        && are_same(&left.files, before)
}

/// A fault of the sink: a proper or whole prefix of the text, and the files as before or whole.
fn suits_sink(left: &Left, whole: &Left, before: &Files) -> bool {
    left.status == SINK_FAULT
        && whole.text.as_slice().starts_with(left.text.as_slice())
        && (are_same(&left.files, before) || are_same(&left.files, &whole.files))
}

/// A fault of the store: its line behind the lines that were printed before, and prefixes of the files.
fn suits_store(left: &Left, whole: &Left, before: &Files) -> bool {
    left.status == STORE_FAULT
        && ends_with(left, whole, "error: store fault\n")
        && suit_files(left, whole, before)
}

/// Whether a run left what it may where this call failed.
pub fn suits(failing: Failing, left: &Left, whole: &Left, before: &Files) -> bool {
    match failing {
        Failing::Nothing => are_undisturbed(left, whole),
        Failing::Source(_) => suits_source(left, before),
        Failing::Sink(_) => suits_sink(left, whole, before),
        Failing::Store(_) => suits_store(left, whole, before),
    }
}

/// Whether a run left what the undisturbed one leaves.
pub fn are_undisturbed(left: &Left, whole: &Left) -> bool {
    left.status == whole.status
        && left.text.as_slice() == whole.text.as_slice()
        && are_same(&left.files, &whole.files)
}
