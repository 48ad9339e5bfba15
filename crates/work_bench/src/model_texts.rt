//! The texts of the models whose relations are measured.

use std::alloc::{AllocError, Global};

/// A family of models, one for each number of bits.
#[derive(Clone, Copy)]
pub enum Family {
    /// N inverters in a ring, each of which makes a step when it is selected.
    Ring,
    /// N bits of which each takes the value of the one before.
    Shift,
    /// A quarter of N counters of four bits, of which each counts where the one before has a carry.
    Counters,
}

const INVERTER: &str = "MODULE inverter(input)
VAR
  output : boolean;
ASSIGN
  init(output) := 0;
  next(output) := !input;
FAIRNESS running
";

const COUNTER: &str = "MODULE counter(up)
VAR
  value : 0..15;
ASSIGN
  init(value) := 0;
  next(value) := value + up mod 16;
DEFINE
  carry := up & value = 15;
";

/// A ring of so many inverters.
fn ring(alloc: Global, n: u32) -> Result<String, AllocError> {
    let mut text = String::from_str(alloc, "MODULE main\nVAR\n")?;
    for k in 0..n {
        let before = if k == 0 { n - 1 } else { k - 1 };
        text.push_str(format!(in alloc;
            "  g{k} : process inverter(g{before}.output);\n"
        )?.as_str())?;
    }
    text.push_str("SPEC g0.output\n")?;
    text.push_str(INVERTER)?;
    Ok(text)
}

/// Adds the bits that take the value of the one before, after the first.
fn push_shifts(alloc: Global, text: &mut String, n: u32) -> Result<(), AllocError> {
    for k in 1..n {
        text.push_str(format!(in alloc; "  next(b{k}) := b{before};\n", before = k - 1)?.as_str())?;
    }
    Ok(())
}

/// A shift register of so many bits.
fn shift(alloc: Global, n: u32) -> Result<String, AllocError> {
    let mut text = String::from_str(alloc, "MODULE main\nVAR\n")?;
    for k in 0..n {
        text.push_str(format!(in alloc; "  b{k} : boolean;\n")?.as_str())?;
    }
    text.push_str("ASSIGN\n  init(b0) := 0;\n")?;
    push_shifts(alloc, &mut text, n)?;
    text.push_str(format!(in alloc; "SPEC b{last}\n", last = n.saturating_sub(1))?.as_str())?;
    Ok(text)
}

/// A chain of so many counters.
fn counters(alloc: Global, count: u32) -> Result<String, AllocError> {
    let mut text = String::from_str(alloc, "MODULE main\nVAR\n  c0 : counter(1);\n")?;
    for k in 1..count {
        text.push_str(format!(in alloc;
            "  c{k} : counter(c{before}.carry);\n",
            before = k - 1
        )?.as_str())?;
    }
    let last = count.saturating_sub(1);
    text.push_str(format!(in alloc; "SPEC c{last}.carry\n")?.as_str())?;
    text.push_str(COUNTER)?;
    Ok(text)
}

impl Family {
    pub fn name(self) -> &'static str {
        match self {
            Family::Ring => "ring",
            Family::Shift => "shift",
            Family::Counters => "counters",
        }
    }

    pub fn named(word: &str) -> Option<Family> {
        if word == "ring" {
            Some(Family::Ring)
        } else if word == "shift" {
            Some(Family::Shift)
        } else if word == "counters" {
            Some(Family::Counters)
        } else {
            None
        }
    }

    /// The model of so many bits, in the ring beside those of the selector.
    pub fn text(self, alloc: Global, n: u32) -> Result<String, AllocError> {
        match self {
            Family::Ring => ring(alloc, n),
            Family::Shift => shift(alloc, n),
            Family::Counters => counters(alloc, n / 4),
        }
    }
}
