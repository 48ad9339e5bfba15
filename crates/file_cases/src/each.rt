//! Questions about each line, and about each byte.

use crate::changes::{Change, line_count, with_change};
use crate::telling::tell_read;
use case_text::fault::Fault;
use kripke_model::models::Ruled;
use std::alloc::{AllocError, Global};

/// What was told last, where the same is told of neighbours.
#[derive(Drop)]
struct Told {
    alloc: Global,
    last: String,
}

impl Told {
    fn new(alloc: Global) -> Told {
        Told {
            alloc,
            last: String::new(alloc),
        }
    }

    /// Adds what reading gives of the file that was changed at a line, where the place before was
    /// told otherwise.
    fn tell(
        &mut self,
        model: &Ruled,
        file: &[u8],
        line: usize,
        place: usize,
        answer: &mut String,
    ) -> Result<(), AllocError> {
        let mut next = String::new(self.alloc);
        tell_read(self.alloc, model, file, Some(line), &mut next)?;
        if next == self.last {
            return Ok(());
        }
        let between = if answer.is_empty() { "" } else { "; " };
        write!(
            answer,
            "{between}from {place}: {next}",
            next = next.as_str()
        )?;
        self.last = next;
        Ok(())
    }
}

/// Adds what reading gives where the change is made at each line in turn.
pub fn tell_each_line(
    alloc: Global,
    model: &Ruled,
    file: &[u8],
    words: &[u8],
    answer: &mut String,
) -> Result<(), Fault> {
    let change = Change::of_words(words).ok_or(Fault::Unasked)?;
    let mut told = Told::new(alloc);
    for before in 0..line_count(file) {
        let line = before.saturating_add(1);
        let changed = with_change(alloc, file, line, change)?;
        told.tell(model, &changed, line, line, answer)?;
    }
    Ok(())
}

/// Adds what reading gives of the bytes before each byte, counted from 0.
pub fn tell_each_byte(
    alloc: Global,
    model: &Ruled,
    file: &[u8],
    answer: &mut String,
) -> Result<(), AllocError> {
    let mut told = Told::new(alloc);
    let mut front = Vec::new(alloc);
    let mut line: usize = 1;
    for (place, byte) in file.iter().enumerate() {
        told.tell(model, &front, line, place, answer)?;
        front.push(*byte)?;
        if *byte == b'\n' {
            line = line.saturating_add(1);
        }
    }
    Ok(())
}
