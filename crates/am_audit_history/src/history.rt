//! The history that a file is.
ghost use Rattle.std.specs.Prelude.{◌≡◌, ◌<◌, ◌≤◌, IfOk, length, position};
ghost use Rattle.am_history.specs.State.{opening};
ghost use Rattle.am_model.specs.Sound.{IsSound};
ghost use Rattle.am_audit_history.specs.Histories.{IsReadAs, behind, is_newline, last_line, line_in, line_length, lines_in};
ghost use Rattle.am_audit_history.specs.Reading.{TakesLine};

use crate::line::read_line;
use crate::replayed::Replayed;
use am_types::{Device, Entry, List, NoMemory};
use std::alloc::Global;

/// The byte that ends a line.
const NEWLINE: u8 = b'\n';

// Whether the byte ends a line.
fn is_newline(byte: u8) -> bool
    ensures { result ≡ is_newline byte }
{
    byte == NEWLINE
}

// How many lines follow the last newline.
fn last_line(bytes: &[u8]) -> usize
    ensures count { result ≡ last_line bytes.now }
    ensures few { result ≤ 1 }
{
    match bytes.last() {
        Some(byte) => { if is_newline(*byte) { 0 } else { 1 } }
        None => 0,
    }
}

/// How many lines there are. What follows the last newline is a line if it has bytes. Takes no memory.
pub fn lines_in(bytes: &[u8]) -> usize
    ensures { result ≡ lines_in bytes.now }
{
    let ended = bytes.iter().filter(|byte| is_newline(**byte)).count();
    ended + last_line(bytes)
}

// Where the first newline is, if there is one.
fn newline_at(bytes: &[u8]) -> Option<usize>
    ensures { result ≡ position is_newline bytes.now }
{
    bytes.iter().position(|byte| is_newline(*byte))
}

// The length of the first line, with its newline if it has one.
fn line_length(bytes: &[u8]) -> usize
    ensures { result ≡ line_length bytes.now }
{
    match newline_at(bytes) {
        Some(at) => at + 1,
        None => bytes.len(),
    }
}

// The first line, and what follows it.
fn split_line(bytes: &[u8]) -> (&[u8], &[u8])
    ensures line { result.0.now ≡ line_in bytes.now }
    ensures rest { result.1.now ≡ behind bytes.now }
    ensures shorter { 0 < length bytes.now → length result.1.now < length bytes.now }
{
    bytes.split_at(line_length(bytes))
}

// Takes the next line: the history goes on with its entry, or the line is refused.
fn take_line(
    alloc: Global,
    replayed: Replayed,
    line: &[u8],
) -> Result<Option<(Replayed, Entry)>, NoMemory>
    ensures { IfOk result (λ taken. TakesLine replayed line.now taken) }
{
    let entry = match read_line(alloc, replayed.length(), line) {
        Ok(Some(entry)) => entry,
        Ok(None) => {
            drop(replayed);
            return Ok(None);
        }
        Err(error) => {
            drop(replayed);
            return Err(error);
        }
    };
    match replayed.advance(&entry) {
        Ok(Some(after)) => Ok(Some((after, entry))),
        Ok(None) => {
            drop(entry);
            Ok(None)
        }
        Err(error) => {
            drop(entry);
            Err(error)
        }
    }
}

/// The history of a sound device that the bytes of a file are, a line for each entry, or the number of the
/// first line that is refused: it isn't an entry, or its entry wouldn't be stored there.
pub fn read_history(
    alloc: Global,
    device: Device,
    bytes: &[u8],
) -> Result<Result<List<Entry>, u64>, NoMemory>
    requires sound { IsSound device }
    ensures read { IfOk result (λ read. IsReadAs (opening device) bytes.now read) }
{
    let mut replayed = Replayed::begin(alloc, device)?;
    let mut entries = Vec::new(alloc);
    let mut rest = bytes;
    while !rest.is_empty() {
        let (line, behind) = split_line(rest);
        let number = replayed.length();
        match take_line(alloc, replayed, line) {
            Ok(Some((after, entry))) => {
                replayed = after;
                if let Err(error) = entries.push(entry) {
                    drop(entries);
                    drop(replayed);
                    return Err(NoMemory::from(error));
                }
            }
            Ok(None) => {
                drop(entries);
                return Ok(Err(number));
            }
            Err(error) => {
                drop(entries);
                return Err(error);
            }
        }
        rest = behind;
    }
    drop(replayed);
    Ok(Ok(List::new(entries)))
}
