//! Edits of a file. Lines are counted from 1.
//!
//! | Edit | Makes |
//! |---|---|
//! | `line N: TEXT` | the text of line N |
//! | `insert N: TEXT` | a line of this text, which is then line N |
//! | `without N`, `without N to M` | a file without these lines |
//! | `only N` | a file that ends behind line N |
//! | `again N to M` | these lines once more behind the last one |
//! | `add TEXT` | a line behind the last one |
//! | `append TEXT` | bytes behind the last one |
//! | `fill N` | so many bytes, of which those behind the last one are `x` |
//! | `open` | a file without its last byte |
//!
//! Several edits stand behind one another, with `; ` between.

use crate::changes::{Change, line_count, push_line, with_change};
use case_text::fault::Fault;
use std::alloc::{AllocError, Global};

/// What is done to a file.
#[derive(Clone, Copy)]
enum Edit<'a> {
    Line(usize, Change<'a>),
    Without(usize, usize),
    /// The lines behind this one are left out.
    Only(usize),
    Again(usize, usize),
    Add(&'a [u8]),
    Append(&'a [u8]),
    Fill(usize),
    Open,
}

/// The two sides of the first such byte.
fn sides(text: &[u8], byte: u8) -> (&[u8], &[u8]) {
    let mut sides = text.splitn(2, |other| *other == byte);
    (sides.next().unwrap_or(&[]), sides.next().unwrap_or(&[]))
}

fn number_of(text: &[u8]) -> Option<usize> {
    str::from_utf8(text).ok()?.parse().ok()
}

/// `N: TEXT`
fn numbered(rest: &[u8]) -> Option<(usize, &[u8])> {
    let (number, text) = sides(rest, b':');
    Some((number_of(number)?, text.strip_prefix(b" ").unwrap_or(text)))
}

/// `N`, or `N to M`
fn range_of(rest: &[u8]) -> Option<(usize, usize)> {
    let (first, rest) = sides(rest, b' ');
    let first = number_of(first)?;
    match rest.strip_prefix(b"to ") {
        Some(last) => Some((first, number_of(last)?)),
        None if rest.is_empty() => Some((first, first)),
        None => None,
    }
}

fn line_edit(rest: &[u8], inserts: bool) -> Option<Edit<'_>> {
    let (number, text) = numbered(rest)?;
    if inserts {
        return Some(Edit::Line(number, Change::Before(text)));
    }
    Some(Edit::Line(number, Change::Text(text)))
}

fn edit_of(text: &[u8]) -> Option<Edit<'_>> {
    let (word, rest) = sides(text, b' ');
    match word {
        b"line" => line_edit(rest, false),
        b"insert" => line_edit(rest, true),
        b"without" => {
            let (first, last) = range_of(rest)?;
            Some(Edit::Without(first, last))
        }
        b"again" => {
            let (first, last) = range_of(rest)?;
            Some(Edit::Again(first, last))
        }
        b"only" => Some(Edit::Only(number_of(rest)?)),
        b"add" => Some(Edit::Add(rest)),
        b"append" => Some(Edit::Append(rest)),
        b"fill" => Some(Edit::Fill(number_of(rest)?)),
        b"open" if rest.is_empty() => Some(Edit::Open),
        _ => None,
    }
}

/// The lines with numbers in a range, or the others.
fn picked(
    alloc: Global,
    file: &[u8],
    first: usize,
    last: usize,
    inside: bool,
) -> Result<Vec<u8>, AllocError> {
    let mut picked = Vec::new(alloc);
    let mut place: usize = 0;
    for line in file.split_inclusive(|byte| *byte == b'\n') {
        place = place.saturating_add(1);
        if (first <= place && place <= last) == inside {
            picked.extend_from_slice(line)?;
        }
    }
    Ok(picked)
}

/// The file with the edit.
fn with_edit(alloc: Global, file: Vec<u8>, edit: Edit<'_>) -> Result<Vec<u8>, AllocError> {
    let mut file = file;
    match edit {
        Edit::Line(number, change) => return with_change(alloc, &file, number, change),
        Edit::Without(first, last) => return picked(alloc, &file, first, last, false),
        Edit::Only(last) => return picked(alloc, &file, 1, last, true),
        Edit::Again(first, last) => {
            let lines = picked(alloc, &file, first, last, true)?;
            file.extend_from_slice(&lines)?;
        }
        Edit::Add(text) => push_line(text, &mut file)?,
        Edit::Append(text) => file.extend_from_slice(text)?,
        Edit::Fill(length) => file.resize(length, b'x')?,
        Edit::Open => file.truncate(file.len().saturating_sub(1)),
    }
    Ok(file)
}

/// Whether the file has the lines from one to another.
fn has_lines(file: &[u8], first: usize, last: usize) -> bool {
    1 <= first && first <= last && last <= line_count(file)
}

/// Whether each line that the edit names is there.
fn fits(file: &[u8], edit: Edit<'_>) -> bool {
    match edit {
        Edit::Line(number, _) => has_lines(file, number, number),
        Edit::Without(first, last) | Edit::Again(first, last) => has_lines(file, first, last),
        Edit::Only(last) => last <= line_count(file),
        _ => true,
    }
}

/// The file with the edits, one after the other.
pub fn edited(alloc: Global, file: &[u8], edits: &[u8]) -> Result<Vec<u8>, Fault> {
    let mut file = file.to_vec(alloc)?;
    for part in edits.split(|byte| *byte == b';') {
        let text = part.strip_prefix(b" ").unwrap_or(part);
        let edit = edit_of(text).ok_or(Fault::Unasked)?;
        if !fits(&file, edit) {
            return Err(Fault::Unasked);
        }
        file = with_edit(alloc, file, edit)?;
    }
    Ok(file)
}
