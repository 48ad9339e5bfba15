//! Measures the work of the other crates: diagrams, tables of values, the parts of transition relations, the reading of
//! proof files, and the making of proofs.
//!
//! The first word names what is measured, and the other words say of what. Without words each is measured in turn on
//! what is small. Behind the word `all` so are the first four, and the proofs on what the other words say.
#![tactic(auto)]

mod counting;
mod diagrams;
mod file_reading;
mod files;
mod limits;
mod long_files;
mod made_proofs;
mod making;
mod model_texts;
mod models;
mod parts;
mod rechecking;
mod spec_at;
mod tables;
mod times;
mod writing;

use crate::diagrams::measure_diagrams;
use crate::files::measure_files;
use crate::made_proofs::measure_proofs;
use crate::parts::measure_parts;
use crate::tables::measure_tables;
use anyhow::{Result, bail};
use std::env;

/// Measures each in turn, the proofs on what these words say.
fn measure_all(rt: &HostRuntime, words: &[String]) -> Result<()> {
    measure_diagrams(rt, &[])?;
    measure_tables(rt, &[])?;
    measure_parts(rt, &[])?;
    measure_files(rt, &[])?;
    measure_proofs(rt, words)
}

fn main(rt: HostRuntime) -> Result<()> {
    let words: Vec<String> = env::args(&rt)?.skip(1).collect(rt.alloc())?;
    let [first, rest @ ..] = words.as_slice() else {
        return measure_all(&rt, &[]);
    };
    match first.as_str() {
        "diagrams" => measure_diagrams(&rt, rest),
        "tables" => measure_tables(&rt, rest),
        "parts" => measure_parts(&rt, rest),
        "files" => measure_files(&rt, rest),
        "proofs" => measure_proofs(&rt, rest),
        "all" => measure_all(&rt, rest),
        _ => bail!("diagrams, tables, parts, files, proofs or all"),
    }
}
