//! From proofs to their text.

ghost use Rattle.std.specs.Prelude.{◌≡◌, ◌++◌, ◌∷◌, [], Option, OnOk, IfOk, IsSomeAnd, All, codes, decimal, length, map, option_map};
ghost use Rattle.std.specs.List.{range_with_len};
ghost use Rattle.bdd_nodes.specs.Table.{Has, IsGood};
ghost use Rattle.bit_encode.specs.Code.{state_bits};
ghost use Rattle.kripke_model.specs.System.{System};
ghost use Rattle.proof_form.specs.Form.{sets_of};
ghost use Rattle.proof_form.specs.Shape.{IsInShape, spec_formula};
ghost use Rattle.proof_text.specs.Lines as lines;
ghost use Rattle.proof_text.specs.Lines.{block_lines, header_lines, text_of};
ghost use Rattle.proof_text.specs.SpacedText.{spaced};

use crate::entry_lines::{push_entries, push_free_entries};
use crate::set_lines::{push_counted, push_fair, push_nonfair, push_spaced};
use bdd_nodes::Triple;
use kripke_model::expressions::Value;
use kripke_model::models::{FlatVar, Ruled};
use kripke_model::states::State;
use proof_form::form::{FreePart, Proof};
use single_states::steps::has_leaf_constraints;
use std::alloc::{AllocError, Global};
use value_texts::text::Text;
use value_texts::values::push_value;

// ---- the header

#[tactic(auto, using(crate::proofs::WrittenLines::second_version))]
fn version(model: &Ruled) -> &'static [u8]
    ensures { result.now ≡ lines.version_word model.now }
{
    if has_leaf_constraints(model) {
        b"1"
    } else {
        b"2"
    }
}

// The names of variables, each behind a space.
fn push_names(text: &mut Text, vars: &[FlatVar]) -> Result<(), AllocError>
    ensures { OnOk result (text.new ≡ text.old ++ spaced (map (λ v. v.name) vars.now)) }
{
    for var in vars {
        text.push(b" ")?;
        text.push(var.name.as_bytes())?;
    }
    Ok(())
}

fn push_version(text: &mut Text, model: &Ruled) -> Result<(), AllocError>
    ensures { OnOk result (text.new ≡ text.old ++ text_of
        (lines.Words (codes "smvproof" ∷ lines.version_word model.now ∷ []) ∷ [])) }
{
    text.push(b"smvproof ")?;
    text.push(version(model))?;
    text.push(b"\n")
}

// The variables in declared order.
#[tactic(auto, using(crate::proofs::WrittenLines::spaced_is))]
fn push_order(text: &mut Text, model: &Ruled) -> Result<(), AllocError>
    ensures { OnOk result (text.new ≡ text.old ++ text_of (lines.Words (codes "order" ∷ map
        (λ v. v.name) model.now.vars) ∷ [])) }
{
    text.push(b"order")?;
    push_names(text, model.vars())?;
    text.push(b"\n")
}

/// The first two lines of a file whose variables stand in declared order.
#[tactic(auto, using(crate::proofs::WrittenLines::header_is))]
pub fn write_header(alloc: Global, model: &Ruled) -> Result<Vec<u8>, AllocError>
    ensures { IfOk result
        (λ text. text.items
        ≡ text_of (header_lines model.now (range_with_len 0 (length model.now.vars)))) }
{
    let mut text = Text::new(alloc);
    push_version(&mut text, model)?;
    push_order(&mut text, model)?;
    Ok(text.into_bytes())
}

// ---- nodes

fn push_node(text: &mut Text, node: &Triple) -> Result<(), AllocError>
    ensures { OnOk result (text.new ≡ text.old ++ text_of (lines.Node [] node.now ∷ [])) }
{
    text.push(b"n")?;
    push_spaced(text, node.level)?;
    push_spaced(text, node.low)?;
    push_spaced(text, node.high)?;
    text.push(b"\n")
}

fn push_nodes(text: &mut Text, nodes: &[Triple]) -> Result<(), AllocError>
    ensures { OnOk result (text.new ≡ text.old ++ text_of (map (lines.Node []) nodes.now)) }
{
    for node in nodes {
        push_node(text, node)?;
    }
    Ok(())
}

// ---- the free part

// The first line of a free part.
fn push_word(text: &mut Text) -> Result<(), AllocError>
    ensures { OnOk result (text.new ≡ text.old ++ text_of (lines.Words (codes "free" ∷ []) ∷ [])) }
{
    text.push(b"free\n")
}

fn push_free_part(text: &mut Text, part: &FreePart<u32>) -> Result<(), AllocError>
    ensures { OnOk result (text.new ≡ text.old ++ text_of (lines.free_lines (Some part.now))) }
{
    push_word(text)?;
    push_nonfair(text, &part.nonfair)?;
    push_fair(text, &part.fair)?;
    push_free_entries(text, &part.entries)
}

fn push_free(text: &mut Text, free: &Option<FreePart<u32>>) -> Result<(), AllocError>
    ensures { OnOk result (text.new ≡ text.old ++ text_of (lines.free_lines free.now)) }
{
    match free {
        None => Ok(()),
        Some(part) => push_free_part(text, part),
    }
}

// ---- the claim

// The values of a state, each behind a space.
fn push_values(text: &mut Text, model: &Ruled, values: &[Value]) -> Result<(), AllocError>
    ensures { OnOk result (text.new ≡ text.old ++ spaced (lines.value_words model.now 0
        values.now)) }
{
    for (x, value) in values.iter().enumerate() {
        text.push(b" ")?;
        push_value(text, model, x, *value)?;
    }
    Ok(())
}

#[tactic(auto, using(crate::proofs::WrittenLines::spaced_is))]
fn push_state(text: &mut Text, model: &Ruled, state: &State) -> Result<(), AllocError>
    ensures { OnOk result (text.new ≡ text.old ++ text_of
        (lines.Words (codes "at" ∷ lines.value_words model.now 0 state.now) ∷ [])) }
{
    text.push(b"at")?;
    push_values(text, model, state.values())?;
    text.push(b"\n")
}

// The last line of a block.
fn push_last(text: &mut Text) -> Result<(), AllocError>
    ensures { OnOk result (text.new ≡ text.old ++ text_of (lines.Words (codes "end" ∷ []) ∷ [])) }
{
    text.push(b"end\n")
}

#[tactic(auto, using(crate::proofs::WrittenLines::two_is))]
fn push_end(text: &mut Text, model: &Ruled, at: &Option<State>) -> Result<(), AllocError>
    ensures { OnOk result (text.new ≡ text.old ++ text_of (lines.end_lines model.now at.now)) }
{
    match at {
        None => push_last(text),
        Some(state) => {
            push_state(text, model, state)?;
            push_last(text)
        }
    }
}

// ---- a block

fn claim_word(claim: bool) -> &'static [u8]
    ensures { result.now ≡ lines.claim_word claim }
{
    if claim { b"true" } else { b"false" }
}

fn push_claim(text: &mut Text, spec: u32, claim: bool) -> Result<(), AllocError>
    ensures { OnOk result (text.new ≡ text.old ++ text_of
        (lines.Words (codes "spec" ∷ decimal spec ∷ lines.claim_word claim ∷ []) ∷ [])) }
{
    text.push(b"spec")?;
    push_spaced(text, spec)?;
    text.push(b" ")?;
    text.push(claim_word(claim))?;
    text.push(b"\n")
}

// The lines of a proof, each of which has something to show.
#[tactic(auto, using(crate::proofs::WrittenLines::proof_is))]
fn push_proof(text: &mut Text, model: &Ruled, proof: &Proof<u32>) -> Result<(), AllocError>
    ensures { OnOk result (text.new ≡ text.old ++ text_of (lines.proof_lines model.now proof.now)) }
{
    push_free(text, &proof.free)?;
    push_nonfair(text, &proof.nonfair)?;
    push_fair(text, &proof.fair)?;
    push_entries(text, &proof.entries)?;
    push_end(text, model, &proof.at)
}

/// The lines of a proof of a specification, counted from 1, whose sets are constants or numbers of these nodes.
pub fn write_block(
    alloc: Global,
    model: &Ruled,
    spec: u32,
    proof: &Proof<u32>,
    nodes: &[Triple],
) -> Result<Vec<u8>, AllocError>
    ensures { IfOk result
        (λ text. text.items
        ≡ text_of
        (block_lines model.now (record {
          spec = spec;
          nodes = nodes.now;
          proof = proof.now;
          first = 0;
        }))) }
{
    let mut text = Text::new(alloc);
    push_claim(&mut text, spec, proof.claim)?;
    push_counted(&mut text, b"nodes", nodes.len())?;
    push_nodes(&mut text, nodes)?;
    push_proof(&mut text, model, proof)?;
    Ok(text.into_bytes())
}
