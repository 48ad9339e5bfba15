//! Long texts of proof files for a small model.

use bdd_nodes::Triple;
use kripke_model::models::Ruled;
use proof_form::form::{FairPart, Layer, Proof};
use proof_text::writing::{write_block, write_header};
use std::alloc::{AllocError, Global};

/// Adds nodes of the level with this low child, and all numbers below `most` but itself as the high
/// one, as long as there are fewer than `count`.
fn add_row(
    nodes: &mut Vec<Triple>,
    level: u32,
    low: u32,
    most: u32,
    count: usize,
) -> Result<(), AllocError> {
    for high in 0..most {
        if nodes.len() >= count {
            return Ok(());
        }
        if high != low {
            nodes.push(Triple { level, low, high })?;
        }
    }
    Ok(())
}

/// Adds nodes of the level over all numbers below `most`, as long as there are fewer than `count`.
fn add_level(
    nodes: &mut Vec<Triple>,
    level: u32,
    most: u32,
    count: usize,
) -> Result<(), AllocError> {
    for low in 0..most {
        if nodes.len() >= count {
            return Ok(());
        }
        add_row(nodes, level, low, most, count)?;
    }
    Ok(())
}

/// So many good nodes, the deepest first. Over the constants there are 2 of a level, then 12, 240
/// and 65,280, and of the highest one more than a file has lines.
fn many_nodes(alloc: Global, count: usize) -> Result<Vec<Triple>, AllocError> {
    let mut nodes = Vec::new(alloc);
    add_level(&mut nodes, 4, 2, count)?;
    add_level(&mut nodes, 3, 4, count)?;
    add_level(&mut nodes, 2, 16, count)?;
    add_level(&mut nodes, 1, 256, count)?;
    add_level(&mut nodes, 0, 65_536, count)?;
    Ok(nodes)
}

/// So many layers, each of which avoids the one constraint.
fn many_layers(alloc: Global, count: usize) -> Result<Vec<Layer<u32>>, AllocError> {
    let mut layers = Vec::new(alloc);
    for _ in 0..count {
        layers.push(Layer { avoid: 1, set: 1 })?;
    }
    Ok(layers)
}

/// The text of a file with one block, of these nodes and layers.
fn text_of(
    alloc: Global,
    model: &Ruled,
    nodes: &[Triple],
    nonfair: Vec<Layer<u32>>,
) -> Result<Vec<u8>, AllocError> {
    let mut reach = Vec::new(alloc);
    reach.push(Vec::new(alloc))?;
    let proof = Proof {
        claim: true,
        free: None,
        nonfair,
        fair: FairPart { inside: 0, reach },
        entries: Vec::new(alloc),
        at: None,
    };
    let mut text = write_header(alloc, model)?;
    text.extend_from_slice(&write_block(alloc, model, 1, &proof, nodes)?)?;
    Ok(text)
}

/// A file with so many nodes.
pub fn nodes_text(alloc: Global, model: &Ruled, count: usize) -> Result<Vec<u8>, AllocError> {
    let nodes = many_nodes(alloc, count)?;
    text_of(alloc, model, &nodes, Vec::new(alloc))
}

/// A file with so many layers.
pub fn layers_text(alloc: Global, model: &Ruled, count: usize) -> Result<Vec<u8>, AllocError> {
    let layers = many_layers(alloc, count)?;
    text_of(alloc, model, &[], layers)
}

/// The beginning of a block that ends behind these lines.
pub fn counted_text(alloc: Global, model: &Ruled, lines: &str) -> Result<Vec<u8>, AllocError> {
    let mut text = write_header(alloc, model)?;
    text.extend_from_slice(b"spec 1 true\n")?;
    text.extend_from_slice(lines.as_bytes())?;
    text.push(b'\n')?;
    Ok(text)
}
