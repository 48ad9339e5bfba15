//! The text of a ring of inverters, as a model of any size.
#![tactic(auto)]

ghost use Rattle.std.specs.Prelude.{◌≡◌, ◌++◌, ◌+◌, ◌<◌, IfOk, OnOk, codes, decimal};
ghost use Rattle.smv_rings.specs.Rings.{line, text_of, process_name, process_line, last_lines, ring_text};

use itoa::Buffer;
use std::alloc::{AllocError, Global};

/// The text of the model of n inverters that are processes in a ring.
///
/// Process 1 takes the output of process n, and each other that of the process before it. The first specification says
/// that the output of process 1 rises again and again, and the second that it falls again and again. The text has
/// n + 11 lines. An `Err` comes for want of memory alone.
pub fn gen_text(alloc: Global, n: u32) -> Result<Vec<u8>, AllocError>
    ensures { IfOk result (λ text. text.items ≡ ring_text n) }
{
    let mut text = Vec::new(alloc);
    push_line(&mut text, "MODULE main")?;
    push_line(&mut text, "VAR")?;
    for before in 0..n {
        push_process(&mut text, n, before)?;
    }
    push_last_lines(&mut text)?;
    Ok(text)
}

// The line of the process before which so many stand.
fn push_process(text: &mut Vec<u8>, n: u32, before: u32) -> Result<(), AllocError>
    requires { before < n }
    ensures { OnOk result (text.new.items ≡ text.old.items ++ line (process_line n (before + 1))) }
{
    let feeder = if before == 0 { n } else { before };
    text.extend_from_slice(b"  ")?;
    push_name(text, before + 1)?;
    text.extend_from_slice(b" : process inverter(")?;
    push_name(text, feeder)?;
    push_line(text, ".output);")
}

fn push_name(text: &mut Vec<u8>, i: u32) -> Result<(), AllocError>
    ensures { OnOk result (text.new.items ≡ text.old.items ++ process_name i) }
{
    let mut buffer = Buffer::new();
    text.extend_from_slice(b"g")?;
    text.extend_from_slice(buffer.format(i).as_bytes())
}

fn push_last_lines(text: &mut Vec<u8>) -> Result<(), AllocError>
    ensures { OnOk result (text.new.items ≡ text.old.items ++ text_of last_lines) }
{
    push_line(text, "SPEC AG AF g1.output")?;
    push_line(text, "SPEC AG AF !g1.output")?;
    push_line(text, "MODULE inverter(input)")?;
    push_line(text, "VAR")?;
    push_line(text, "  output : boolean;")?;
    push_line(text, "ASSIGN")?;
    push_line(text, "  init(output) := 0;")?;
    push_line(text, "  next(output) := !input;")?;
    push_line(text, "FAIRNESS running")
}

fn push_line(text: &mut Vec<u8>, words: &str) -> Result<(), AllocError>
    ensures { OnOk result (text.new.items ≡ text.old.items ++ line words.now) }
{
    text.extend_from_slice(words.as_bytes())?;
    text.extend_from_slice(b"\n")
}
