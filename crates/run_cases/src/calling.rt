//! One call of `run`, over files and a sink in memory.

use crate::case::{Ending, Full};
use bdd_nodes::Held;
use case_text::fault::Fault;
use kripke_model::Name;
use smv_outside::{Entry, MemFiles, MemSink, have_distinct_names};
use smv_session::{Status, run};
use std::alloc::{AllocError, Global};

/// How a call ended.
#[derive(Drop)]
pub struct Found {
    pub status: u8,
    pub put: Vec<u8>,
    pub full: Vec<Full>,
    /// The files that then stand.
    pub files: Vec<Entry>,
}

fn copy(alloc: Global, entry: &Entry) -> Result<Entry, AllocError> {
    Ok(Entry {
        name: Name::new(String::from_str(alloc, entry.name.as_str())?),
        bytes: entry.bytes.clone()?,
    })
}

pub fn copies(alloc: Global, entries: &[Entry]) -> Result<Vec<Entry>, AllocError> {
    let mut copies = Vec::new(alloc);
    for entry in entries {
        copies.push(copy(alloc, entry)?)?;
    }
    Ok(copies)
}

/// The files with those that are given, each in the place of one of its name.
pub fn with_given(
    alloc: Global,
    files: &[Entry],
    given: &[Entry],
) -> Result<Vec<Entry>, AllocError> {
    let mut all = copies(alloc, given)?;
    for entry in files {
        if bytes_under(given, entry.name.as_str()).is_none() {
            all.push(copy(alloc, entry)?)?;
        }
    }
    Ok(all)
}

/// The bytes of the first file with a name.
pub fn bytes_under<'a>(files: &'a [Entry], name: &str) -> Option<&'a [u8]> {
    for entry in files {
        if entry.name.as_str() == name {
            return Some(&entry.bytes);
        }
    }
    None
}

/// The full stores that show that something is unknown. There are none where all is decided.
fn held_of(status: &Status) -> &[Held] {
    match status {
        Status::Undecided { held } => held,
        _ => &[],
    }
}

fn full_stores(alloc: Global, status: &Status) -> Result<Vec<Full>, AllocError> {
    let mut full = Vec::new(alloc);
    for held in held_of(status) {
        full.push(Full {
            levels: held.levels(),
            nodes: held.number(),
        })?;
    }
    Ok(full)
}

/// A call of these words over these files.
pub fn call(
    alloc: Global,
    words: &[String],
    files: &[Entry],
    ending: &Ending,
) -> Result<Found, Fault> {
    let entries = copies(alloc, files)?;
    if !have_distinct_names(&entries) {
        return Err(Fault::OutOfPlace);
    }
    let mut files = MemFiles::new(alloc, entries, ending.file_fails.clone()?);
    let mut out = MemSink::new(alloc, ending.room, ending.sink_fails.clone()?)?;
    let status = run(alloc, words, &mut files, &mut out);
    Ok(Found {
        status: status.code(),
        put: out.written().to_vec(alloc)?,
        full: full_stores(alloc, &status)?,
        files: copies(alloc, files.contents())?,
    })
}
