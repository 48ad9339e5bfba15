//! An answer while it is told.

use crate::fault::Fault;
use std::alloc::Global;
use std::fmt::Display;

/// An answer while it is told. What tells it hands on no faults: the first one is kept here, and `text` gives it.
#[derive(Drop)]
pub struct Telling {
    text: String,
    fault: Option<Fault>,
}

impl Telling {
    /// Nothing yet.
    pub fn new(alloc: Global) -> Telling {
        Telling {
            text: String::new(alloc),
            fault: None,
        }
    }

    /// Whether nothing is told.
    pub fn is_empty(&self) -> bool {
        self.text.is_empty()
    }

    /// Says that there is no answer, and why.
    pub fn fail(&mut self, fault: Fault) {
        if self.fault.is_none() {
            self.fault = Some(fault);
        }
    }

    /// Adds a text.
    pub fn add(&mut self, text: &str) {
        if let Err(error) = self.text.push_str(text) {
            self.fail(Fault::Memory(error));
        }
    }

    /// Adds what `write!` is given.
    pub fn write_fmt<D: Display + Drop>(&mut self, value: D) {
        if let Err(error) = self.text.write_fmt(value) {
            self.fail(Fault::Memory(error));
        }
    }

    /// The answer, or why there is none.
    pub fn text(self) -> Result<String, Fault> {
        match self.fault {
            Some(fault) => Err(fault),
            None => Ok(self.text),
        }
    }
}
