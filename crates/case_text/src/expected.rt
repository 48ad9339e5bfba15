//! A text that is expected, or how it begins and ends.

use crate::fault::Fault;
use crate::notation::{read_line, show};
use std::alloc::{AllocError, Global};

/// A text that is expected: all of it, or how it begins and how it ends.
#[derive(Drop)]
pub struct Expected {
    first: Vec<u8>,
    last: Option<Vec<u8>>,
}

impl Expected {
    /// No text.
    pub fn new(alloc: Global) -> Expected {
        Expected {
            first: Vec::new(alloc),
            last: None,
        }
    }

    /// The part that a further line belongs to.
    fn end(&mut self) -> &mut Vec<u8> {
        match &mut self.last {
            Some(last) => last,
            None => &mut self.first,
        }
    }

    /// Whether the text is as expected.
    pub fn is_met_by(&self, text: &[u8]) -> bool {
        match &self.last {
            Some(last) => text
                .strip_prefix(self.first.as_slice())
                .is_some_and(|rest| rest.ends_with(last.as_slice())),
            None => text == self.first.as_slice(),
        }
    }

    /// Adds a line, which stands behind so many blank ones. The line `\...` stands for any text.
    pub fn add(&mut self, alloc: Global, blank: usize, line: &str) -> Result<(), Fault> {
        if line == "\\..." {
            self.last = Some(Vec::new(alloc));
            return Ok(());
        }
        add_line(alloc, blank, line, self.end())
    }

    /// Adds the text to a report, in the notation.
    pub fn tell(&self, report: &mut String) -> Result<(), AllocError> {
        show(&self.first, report)?;
        match &self.last {
            Some(last) => {
                report.push_str("    \\...\n")?;
                show(last, report)
            }
            None => Ok(()),
        }
    }
}

/// Adds what the line stands for, and before it the blank lines between it and the one before.
pub fn add_line(alloc: Global, blank: usize, line: &str, text: &mut Vec<u8>) -> Result<(), Fault> {
    if !text.is_empty() {
        for _ in 0..blank {
            text.push(b'\n')?;
        }
    }
    read_line(alloc, line, text)
}
