//! What a case is: calls over files, and how each is expected to end.

use case_text::expected::Expected;
use smv_outside::Entry;
use std::alloc::Global;

/// How many bytes a sink takes where a case does not say it.
const ROOM: usize = 10_000;

/// A call: its words, and the line that they were read from.
#[derive(Drop)]
pub struct Call {
    pub line: String,
    pub words: Vec<String>,
}

/// A file that is expected to stand after a call.
#[derive(Drop)]
pub struct LeftFile {
    pub name: String,
    pub text: Expected,
}

/// A store of so many levels that was full at this number of nodes.
#[derive(Clone, Copy, Debug, PartialEq, Eq)]
pub struct Full {
    pub levels: u32,
    pub nodes: u32,
}

/// Calls that are expected to end alike, each over the files as they stand before the first.
#[derive(Drop)]
pub struct Ending {
    /// Files that come to stand before the calls, each in the place of one of its name.
    pub given: Vec<Entry>,
    pub room: usize,
    pub file_fails: Vec<u64>,
    pub sink_fails: Vec<u64>,
    pub calls: Vec<Call>,
    pub put: Expected,
    /// The files that the calls are expected to make or to change.
    pub left: Vec<LeftFile>,
    /// The full stores that show that something is unknown.
    pub full: Vec<Full>,
    pub status: u8,
}

impl Ending {
    pub fn new(alloc: Global) -> Ending {
        Ending {
            given: Vec::new(alloc),
            room: ROOM,
            file_fails: Vec::new(alloc),
            sink_fails: Vec::new(alloc),
            calls: Vec::new(alloc),
            put: Expected::new(alloc),
            left: Vec::new(alloc),
            full: Vec::new(alloc),
            status: 0,
        }
    }
}
