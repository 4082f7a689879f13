//! Files in memory, by name.
ghost use Rattle.std.specs.Prelude.{◌≡◌, ◌+◌, ◌<◌, ◌≤◌, ◌^◌, ◌++◌, ◌↔◌, ◌⊎◌, length, take, drop, min, Some, IfOk, IfSome, IsErr, IsSome, IsTrue, OnOk, OnErr, option_map};
ghost use Rattle.std.specs.FinMap as map;
ghost use Rattle.outside.specs.Files.{bytes_of, files_of, KeepsFront, LeavesPrefix, ReadsBytes, Sizes};

use crate::file_bytes::FileBytes;
use crate::store::FileId;
use crate::stream::Failed;
use std::alloc::{AllocError, Global};
use std::collections::BTreeMap;

/// Every file of a call that answers Ok has fewer bytes than this.
const LIMIT: usize = 0x4000_0000_0000_0000;

/// The bytes of the file, where it is there.
pub fn contents(files: &BTreeMap<FileId, FileBytes>, file: FileId) -> Option<&[u8]>
    ensures { option_map (λ s. s.now) result ≡ map.get (files_of files.now) file }
{
    match files.get(&file) {
        Some(bytes) => Some(bytes.as_slice()),
        None => None,
    }
}

/// The bytes of the file, none where it is not there.
pub fn bytes_of(files: &BTreeMap<FileId, FileBytes>, file: FileId) -> &[u8]
    ensures { result.now ≡ bytes_of (files_of files.now) file }
{
    match contents(files, file) {
        Some(bytes) => bytes,
        None => &[],
    }
}

/// Sets the file. Where memory runs out the files stay as they were.
pub fn set_file(
    files: &mut BTreeMap<FileId, FileBytes>,
    file: FileId,
    bytes: FileBytes,
) -> Result<(), AllocError>
    ensures ok { OnOk result (files_of files.new ≡ map.insert (files_of files.old) file bytes) }
    ensures err { OnErr result (files_of files.new ≡ files_of files.old) }
{
    files.insert(file, bytes)?;
    Ok(())
}

/// Puts the piece behind the file's bytes. Where memory runs out the files stay as they were.
pub fn extend_file(
    alloc: Global,
    files: &mut BTreeMap<FileId, FileBytes>,
    file: FileId,
    piece: &[u8],
) -> Result<(), AllocError>
    ensures ok { OnOk result (files_of files.new ≡ map.insert (files_of files.old) file (bytes_of (files_of files.old) file ++ piece.now)) }
    ensures err { OnErr result (files_of files.new ≡ files_of files.old) }
{
    match files.get_mut(&file) {
        Some(bytes) => bytes.extend(piece),
        None => set_file(files, file, FileBytes::from_slice(alloc, piece)?),
    }
}

/// Whether the bytes stay under the limit with so many more.
fn has_room(bytes: &[u8], more: usize) -> bool
    ensures { IsTrue result ↔ (length bytes.now + more < 2 ^ 62) }
{
    bytes.len() < LIMIT && more < LIMIT - bytes.len()
}

/// Puts the piece behind the file's bytes. With `keep` it fails, and keeps so many bytes of the piece.
pub fn append(
    alloc: Global,
    files: &mut BTreeMap<FileId, FileBytes>,
    file: FileId,
    piece: &[u8],
    keep: Option<u32>,
) -> Result<(), Failed>
    ensures ok { OnOk result ((files_of files.new ≡ map.insert (files_of files.old) file (bytes_of (files_of files.old) file ++ piece.now))
        × (length (bytes_of (files_of files.old) file ++ piece.now) < 2 ^ 62)) }
    ensures err { OnErr result (LeavesPrefix (files_of files.old) (files_of files.new) file piece.now) }
    ensures scripted { IfSome keep (λ n. IsErr result × KeepsFront (files_of files.old) (files_of files.new) file (take n piece.now)) }
{
    match keep {
        Some(keep) => {
            keep_front(alloc, files, file, piece, keep as usize);
            Err(Failed)
        }
        None => {
            if !has_room(bytes_of(files, file), piece.len()) {
                return Err(Failed);
            }
            match extend_file(alloc, files, file, piece) {
                Ok(()) => Ok(()),
                Err(_) => Err(Failed),
            }
        }
    }
}

/// Puts the first `keep` bytes of the piece behind the file's, where there are any and memory lasts.
fn keep_front(
    alloc: Global,
    files: &mut BTreeMap<FileId, FileBytes>,
    file: FileId,
    piece: &[u8],
    keep: usize,
)
    ensures prefix { LeavesPrefix (files_of files.old) (files_of files.new) file piece.now }
    ensures front { KeepsFront (files_of files.old) (files_of files.new) file (take keep piece.now) }
{
    let kept = keep.min(piece.len());
    let (front, _) = piece.split_at(kept);
    if kept > 0 {
        let _ = extend_file(alloc, files, file, front);
    }
}

/// Fills the front of `into` with the file's bytes from `at`, and answers how many there were. With `fails` it fails.
pub fn read(
    files: &BTreeMap<FileId, FileBytes>,
    file: FileId,
    at: u64,
    into: &mut [u8],
    fails: bool,
) -> Result<usize, Failed>
    ensures bound { IfOk result (λ n. n ≤ length into.new) }
    ensures bytes { ReadsBytes (Some (files_of files.now)) file at result into.new }
    ensures scripted { IsErr result ↔ (IsTrue fails ⊎ (2 ^ 62 ≤ length (bytes_of (files_of files.now) file))) }
{
    let bytes = bytes_of(files, file);
    if fails || !has_room(bytes, 0) {
        return Err(Failed);
    }
    Ok(copy_from(bytes, at as usize, into))
}

/// Fills the front of `into` with the bytes from `at`, and answers how many there were.
fn copy_from(bytes: &[u8], at: usize, into: &mut [u8]) -> usize
    ensures count { result ≡ min (length into.new) (length (drop at bytes.now)) }
    ensures front { take result into.new ≡ take result (drop at bytes.now) }
{
    let (_, rest) = bytes.split_at(at.min(bytes.len()));
    let count = into.len().min(rest.len());
    let (front, _) = rest.split_at(count);
    into[..count].copy_from_slice(front);
    count
}

/// The file's length, and `None` where it is not there. With `fails` it fails.
pub fn size(
    files: &BTreeMap<FileId, FileBytes>,
    file: FileId,
    fails: bool,
) -> Result<Option<u64>, Failed>
    ensures bytes { Sizes (Some (files_of files.now)) file result }
    ensures scripted { IsErr result ↔ (IsTrue fails ⊎ (2 ^ 62 ≤ length (bytes_of (files_of files.now) file))) }
{
    if fails {
        return Err(Failed);
    }
    match contents(files, file) {
        None => Ok(None),
        Some(bytes) => {
            if !has_room(bytes, 0) {
                return Err(Failed);
            }
            Ok(Some(bytes.len() as u64))
        }
    }
}
