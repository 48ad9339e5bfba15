//! Reading cases.
//!
//! A line of the file is blank, a remark, a heading, a line of a text behind four spaces, or begins with a word:
//!
//! | Line | Says |
//! |---|---|
//! | `-- ..`, `# ..` | nothing |
//! | `## NAME` | a case begins |
//! | `file NAME` | before calls, that the text below stands in the file; behind them, that it is expected there |
//! | `room N` | how many bytes the sink takes |
//! | `fail files N ..`, `fail sink N ..` | which calls of the files or of the sink fail, counted from 0 |
//! | `run WORD ..` | a call; the text below the last call of several is what each is expected to put |
//! | `full N levels N nodes` | a store that is expected to be full |
//! | `status N` | the status that is expected of the calls above |
//!
//! In an expected text a line `\...` stands for any lines.

use crate::case::{Call, Ending, Full, LeftFile};
use case_text::expected::{Expected, add_line};
use case_text::fault::{Blame, Fault};
use case_text::notation::read_word;
use case_text::section::{Kind, Line, Section};
use kripke_model::Name;
use smv_outside::Entry;
use std::alloc::Global;

/// How far the reading of some calls with their ending has come.
#[derive(Clone, Copy, Debug, PartialEq, Eq)]
enum Stage {
    /// Before the calls.
    Given,
    /// Among the calls.
    Calls,
    /// Behind the calls.
    Expected,
}

/// Where a line of a text belongs.
#[derive(Clone, Copy)]
enum Place {
    Nowhere,
    GivenFile,
    Put,
    LeftFile,
}

/// A case while it is read.
#[derive(Drop)]
struct CaseReader {
    alloc: Global,
    endings: Vec<Ending>,
    /// What is read of the next ending.
    ending: Ending,
    stage: Stage,
    place: Place,
    /// Whether the last line that begins with a word is a status.
    is_complete: bool,
}

impl CaseReader {
    fn new(alloc: Global) -> CaseReader {
        CaseReader {
            alloc,
            endings: Vec::new(alloc),
            ending: Ending::new(alloc),
            stage: Stage::Given,
            place: Place::Nowhere,
            is_complete: false,
        }
    }

    fn read(&mut self, line: &Line) -> Result<(), Fault> {
        match line.kind()? {
            Kind::Text(text) => self.read_text(line.blank, text),
            Kind::Words(words) => self.read_words(words),
        }
    }

    /// Reads a line of a text.
    fn read_text(&mut self, blank: usize, line: &str) -> Result<(), Fault> {
        match self.place {
            Place::Nowhere => Err(Fault::LooseText),
            Place::GivenFile => {
                let entry = self.ending.given.last_mut().ok_or(Fault::LooseText)?;
                add_line(self.alloc, blank, line, &mut entry.bytes)
            }
            Place::Put => {
                self.stage = Stage::Expected;
                self.ending.put.add(self.alloc, blank, line)
            }
            Place::LeftFile => {
                let file = self.ending.left.last_mut().ok_or(Fault::LooseText)?;
                file.text.add(self.alloc, blank, line)
            }
        }
    }

    /// Reads a line that begins with a word.
    fn read_words(&mut self, line: &str) -> Result<(), Fault> {
        let (word, rest) = line.split_once(' ').unwrap_or((line, ""));
        self.place = Place::Nowhere;
        self.is_complete = word == "status";
        match word {
            "file" => self.read_file(rest),
            "room" => self.read_room(rest),
            "fail" => self.read_fails(rest),
            "run" => self.read_call(line, rest),
            "full" => self.read_full(rest),
            "status" => self.read_status(rest),
            _ => Err(Fault::UnknownWord),
        }
    }

    fn read_file(&mut self, name: &str) -> Result<(), Fault> {
        let name = String::from_str(self.alloc, name)?;
        if self.stage == Stage::Given {
            self.place = Place::GivenFile;
            self.ending.given.push(Entry {
                name: Name::new(name),
                bytes: Vec::new(self.alloc),
            })?;
        } else {
            self.place = Place::LeftFile;
            self.stage = Stage::Expected;
            self.ending.left.push(LeftFile {
                name,
                text: Expected::new(self.alloc),
            })?;
        }
        Ok(())
    }

    fn read_room(&mut self, rest: &str) -> Result<(), Fault> {
        if self.stage != Stage::Given {
            return Err(Fault::OutOfPlace);
        }
        self.ending.room = rest.parse().map_err(|_| Fault::NoNumber)?;
        Ok(())
    }

    fn read_fails(&mut self, rest: &str) -> Result<(), Fault> {
        if self.stage != Stage::Given {
            return Err(Fault::OutOfPlace);
        }
        match rest.split_once(' ') {
            Some(("files", numbers)) => read_numbers(numbers, &mut self.ending.file_fails),
            Some(("sink", numbers)) => read_numbers(numbers, &mut self.ending.sink_fails),
            _ => Err(Fault::UnknownWord),
        }
    }

    fn read_call(&mut self, line: &str, rest: &str) -> Result<(), Fault> {
        if self.stage == Stage::Expected {
            return Err(Fault::OutOfPlace);
        }
        self.stage = Stage::Calls;
        self.place = Place::Put;
        let line = String::from_str(self.alloc, line)?;
        let words = call_words(self.alloc, rest)?;
        self.ending.calls.push(Call { line, words })?;
        Ok(())
    }

    fn read_full(&mut self, rest: &str) -> Result<(), Fault> {
        if self.stage == Stage::Given {
            return Err(Fault::OutOfPlace);
        }
        self.stage = Stage::Expected;
        let full = full_of(rest).ok_or(Fault::NoNumber)?;
        self.ending.full.push(full)?;
        Ok(())
    }

    fn read_status(&mut self, rest: &str) -> Result<(), Fault> {
        if self.stage == Stage::Given {
            return Err(Fault::OutOfPlace);
        }
        let mut ending = std::mem::replace(&mut self.ending, Ending::new(self.alloc));
        ending.status = rest.parse().map_err(|_| Fault::NoNumber)?;
        self.endings.push(ending)?;
        self.stage = Stage::Given;
        Ok(())
    }
}

fn read_numbers(words: &str, numbers: &mut Vec<u64>) -> Result<(), Fault> {
    for word in words.split(' ') {
        numbers.push(word.parse().map_err(|_| Fault::NoNumber)?)?;
    }
    Ok(())
}

fn call_words(alloc: Global, rest: &str) -> Result<Vec<String>, Fault> {
    let mut words = Vec::new(alloc);
    if rest.is_empty() {
        return Ok(words);
    }
    for word in rest.split(' ') {
        words.push(read_word(alloc, word)?)?;
    }
    Ok(words)
}

/// The store of `N levels N nodes`.
fn full_of(rest: &str) -> Option<Full> {
    let (levels, nodes) = rest.strip_suffix(" nodes")?.split_once(" levels ")?;
    Some(Full {
        levels: levels.parse().ok()?,
        nodes: nodes.parse().ok()?,
    })
}

/// How the calls of a case are expected to end.
pub fn endings_of(alloc: Global, case: &Section) -> Result<Vec<Ending>, Blame> {
    let mut reader = CaseReader::new(alloc);
    let mut last = case.number;
    for line in case.lines.iter() {
        last = line.number;
        if let Err(fault) = reader.read(line) {
            return Err(Blame { line: last, fault });
        }
    }
    if reader.is_complete {
        return Ok(reader.endings);
    }
    Err(Blame {
        line: last,
        fault: Fault::NoStatus,
    })
}
