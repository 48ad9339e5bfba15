//! The time that it takes to read a text, and to copy it.

use anyhow::Result;
use kripke_model::models::Ruled;
use proof_text::file::ProofFile;
use proof_text::reading::read_file;
use proof_text::refusals::TextRefusal;
use std::alloc::{AllocError, Global};
use std::time::CpuClock;

/// What was found of a text, and the microseconds of the processor that it took.
#[derive(Drop)]
pub struct Measured {
    pub found: String,
    pub copy_micros: u128,
    pub read_micros: u128,
}

/// How many nodes and layers the first block has, or why there is no file.
fn tell_found(
    alloc: Global,
    read: &std::result::Result<ProofFile, TextRefusal>,
) -> std::result::Result<String, AllocError> {
    let file = match read {
        Ok(file) => file,
        Err(refusal) => return format!(in alloc; "{refusal:?}"),
    };
    match file.blocks.first() {
        Some(block) => {
            let nodes = block.nodes.len();
            let layers = block.proof.nonfair.len();
            format!(in alloc; "{nodes} nodes, {layers} layers")
        }
        None => String::from_str(alloc, "no block"),
    }
}

/// The microseconds of the processor that a copy takes.
fn copy_micros(rt: &HostRuntime, text: &[u8]) -> Result<u128> {
    let start = rt.process_cpu_time()?;
    let _copy = text.to_vec(rt.alloc())?;
    let end = rt.process_cpu_time()?;
    Ok(end.saturating_sub(start).as_micros())
}

/// Copies the text and reads it.
pub fn measure(rt: &HostRuntime, model: &Ruled, text: &[u8]) -> Result<Measured> {
    let copy_micros = copy_micros(rt, text)?;
    let start = rt.process_cpu_time()?;
    let read = read_file(rt.alloc(), model, text);
    let end = rt.process_cpu_time()?;
    Ok(Measured {
        found: tell_found(rt.alloc(), &read)?,
        copy_micros,
        read_micros: end.saturating_sub(start).as_micros(),
    })
}
