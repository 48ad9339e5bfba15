//! Changes of one line of a file. Lines are counted from 1.

use std::alloc::{AllocError, Global};

/// What is done to a line.
#[derive(Clone, Copy)]
pub enum Change<'a> {
    /// The file ends before the line.
    Cut,
    /// Another text stands in it.
    Text(&'a [u8]),
    /// A line of this text stands before it.
    Before(&'a [u8]),
    TakenOut,
    /// It stands once more behind itself.
    Twice,
    /// This text stands before its first byte.
    Begun(&'a [u8]),
    /// This text stands behind its last byte.
    Ended(&'a [u8]),
}

impl<'a> Change<'a> {
    /// The change that words name.
    pub fn of_words(words: &'a [u8]) -> Option<Change<'a>> {
        if let Some(text) = words.strip_prefix(b"begun by ") {
            return Some(Change::Begun(text));
        }
        if let Some(text) = words.strip_prefix(b"ended by ") {
            return Some(Change::Ended(text));
        }
        match words {
            b"cut" => Some(Change::Cut),
            b"emptied" => Some(Change::Text(&[])),
            b"taken out" => Some(Change::TakenOut),
            b"twice" => Some(Change::Twice),
            _ => None,
        }
    }
}

/// How many lines a file has.
pub fn line_count(file: &[u8]) -> usize {
    let mut count: usize = 0;
    for _line in file.split_inclusive(|byte| *byte == b'\n') {
        count = count.saturating_add(1);
    }
    count
}

/// Adds a line of this text.
pub fn push_line(text: &[u8], file: &mut Vec<u8>) -> Result<(), AllocError> {
    file.extend_from_slice(text)?;
    file.push(b'\n')?;
    Ok(())
}

/// Adds what the change makes of the line.
fn push_changed(line: &[u8], change: Change<'_>, file: &mut Vec<u8>) -> Result<(), AllocError> {
    match change {
        Change::Cut | Change::TakenOut => {}
        Change::Text(text) => push_line(text, file)?,
        Change::Before(text) => {
            push_line(text, file)?;
            file.extend_from_slice(line)?;
        }
        Change::Twice => {
            file.extend_from_slice(line)?;
            file.extend_from_slice(line)?;
        }
        Change::Begun(text) => {
            file.extend_from_slice(text)?;
            file.extend_from_slice(line)?;
        }
        Change::Ended(text) => {
            file.extend_from_slice(line.strip_suffix(b"\n").unwrap_or(line))?;
            push_line(text, file)?;
        }
    }
    Ok(())
}

/// The file with a change of the line with this number.
pub fn with_change(
    alloc: Global,
    file: &[u8],
    number: usize,
    change: Change<'_>,
) -> Result<Vec<u8>, AllocError> {
    let mut changed = Vec::new(alloc);
    let mut place: usize = 0;
    for line in file.split_inclusive(|byte| *byte == b'\n') {
        place = place.saturating_add(1);
        match change {
            _ if place == number => push_changed(line, change, &mut changed)?,
            Change::Cut if place > number => {}
            _ => changed.extend_from_slice(line)?,
        }
    }
    Ok(changed)
}
