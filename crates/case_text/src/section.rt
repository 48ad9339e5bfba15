//! The cases of a text: a heading and the lines below it.
//!
//! | Line | Is |
//! |---|---|
//! | `-- ..`, `# ..` | a remark, which says nothing |
//! | `## NAME` | a heading: a case begins |
//! | a line behind four spaces | a line of a text |
//! | any other | a line that begins with a word |

use crate::fault::Fault;
use std::alloc::{AllocError, Global};

/// A line of a case that is neither blank nor a remark.
#[derive(Drop)]
pub struct Line {
    /// Its number in the file, from 1.
    pub number: usize,
    /// How many blank lines stand right before it.
    pub blank: usize,
    pub text: String,
}

/// What a line is.
pub enum Kind<'a> {
    /// A line of a text, without the four spaces.
    Text(&'a str),
    /// A line that begins with a word.
    Words(&'a str),
}

impl Line {
    pub fn kind(&self) -> Result<Kind<'_>, Fault> {
        let line = self.text.as_str();
        if line.ends_with(' ') {
            return Err(Fault::SpaceAtTheEnd);
        }
        Ok(match line.strip_prefix("    ") {
            Some(text) => Kind::Text(text),
            None => Kind::Words(line),
        })
    }
}

/// A case as it is written: its name, the number of its heading, and its lines.
#[derive(Drop)]
pub struct Section {
    pub name: String,
    pub number: usize,
    pub lines: Vec<Line>,
    /// The blank lines behind the last line.
    blank: usize,
}

impl Section {
    fn new(alloc: Global, name: &str, number: usize) -> Result<Section, AllocError> {
        Ok(Section {
            name: String::from_str(alloc, name)?,
            number,
            lines: Vec::new(alloc),
            blank: 0,
        })
    }

    fn add(&mut self, alloc: Global, number: usize, line: &str) -> Result<(), AllocError> {
        if line.is_empty() {
            self.blank = self.blank.saturating_add(1);
            return Ok(());
        }
        if is_remark(line) {
            return Ok(());
        }
        let text = String::from_str(alloc, line)?;
        let blank = self.blank;
        self.lines.push(Line {
            number,
            blank,
            text,
        })?;
        self.blank = 0;
        Ok(())
    }
}

fn is_remark(line: &str) -> bool {
    line.starts_with("--") || line.starts_with("# ")
}

/// The cases of a text, in their order. What stands before the first heading is a case of its own, unless it is remarks.
pub fn sections(alloc: Global, text: &str) -> Result<Vec<Section>, AllocError> {
    let mut all = Vec::new(alloc);
    for (index, line) in text.split('\n').enumerate() {
        let number = index.saturating_add(1);
        match line.strip_prefix("## ") {
            Some(name) => all.push(Section::new(alloc, name, number)?)?,
            None => add_to_last(alloc, &mut all, number, line)?,
        }
    }
    Ok(all)
}

fn add_to_last(
    alloc: Global,
    all: &mut Vec<Section>,
    number: usize,
    line: &str,
) -> Result<(), AllocError> {
    match all.last_mut() {
        Some(section) => section.add(alloc, number, line),
        None if line.is_empty() || is_remark(line) => Ok(()),
        None => {
            let mut section = Section::new(alloc, "before the first case", number)?;
            section.add(alloc, number, line)?;
            all.push(section)?;
            Ok(())
        }
    }
}
