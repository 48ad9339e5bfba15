//! Reads long proof files, and says how long that takes beside a copy of their bytes.
//!
//! The word is a number of lines. Without a word the files are short, and no time is said.

use crate::file_reading::{Measured, measure};
use crate::long_files::{counted_text, layers_text, nodes_text};
use crate::models::model_of;
use anyhow::{Result, bail};
use kripke_model::models::Ruled;

/// Reads a text, and says what was found.
fn run(rt: &HostRuntime, model: &Ruled, what: &str, text: &[u8], timed: bool) -> Result<()> {
    let Measured {
        found,
        copy_micros,
        read_micros,
    } = measure(rt, model, text)?;
    let bytes = text.len();
    println!(rt; "{what}: {bytes} bytes, {found}")?;
    if timed {
        let ratio = read_micros / copy_micros.max(1);
        println!(rt;
            "read in {read_micros} microseconds, copied in {copy_micros}: {ratio} times as long"
        )?;
    }
    Ok(())
}

/// Reads a text with a count that is the greatest number, behind which nothing stands.
fn run_counted(
    rt: &HostRuntime,
    model: &Ruled,
    what: &str,
    lines: &str,
    timed: bool,
) -> Result<()> {
    let text = counted_text(rt.alloc(), model, lines)?;
    run(rt, model, what, &text, timed)
}

fn run_all(rt: &HostRuntime, model: &Ruled, lines: usize, timed: bool) -> Result<()> {
    let text = nodes_text(rt.alloc(), model, lines)?;
    run(rt, model, "nodes", &text, timed)?;
    let text = layers_text(rt.alloc(), model, lines)?;
    run(rt, model, "layers", &text, timed)?;
    run_counted(rt, model, "many nodes", "nodes 4294967295", timed)?;
    let lines = "nodes 0\nnonfair 4294967295";
    run_counted(rt, model, "many layers", lines, timed)
}

/// A model of five bits and one specification.
const MODEL: &[u8] = b"MODULE main VAR a : array 0..4 of boolean; SPEC AF a[0]";

/// Reads files of as many lines as the word says, or without words short ones.
pub fn measure_files(rt: &HostRuntime, words: &[String]) -> Result<()> {
    let Some(model) = model_of(rt.alloc(), MODEL) else {
        bail!("no model");
    };
    match words.first() {
        Some(word) => run_all(rt, &model, word.as_str().parse::<usize>()?, true),
        None => run_all(rt, &model, 1000, false),
    }
}
