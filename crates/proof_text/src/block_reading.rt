//! Reads a block.

ghost use Rattle.std.specs.Prelude.{◌≡◌, ◌↔◌, ◌∷◌, ◌+◌, ◌≤◌, ◌<◌, [], ℕ, All, AllPairs, IsSome, Some, codes, flat_map, length};
ghost use Rattle.kripke_model.specs.WellFormed.{ctl_of};
ghost use Rattle.proof_form.specs.Shape.{spec_formula};
ghost use Rattle.proof_text.specs.BlockReading.{FindsFirst, FindsOver, FitsRest, in_rest, rest_lines};
ghost use Rattle.proof_text.specs.Lines.{nodes_lines};
ghost use Rattle.proof_text.specs.File.{Block as Plain};
ghost use Rattle.proof_text.specs.FileParts.{FitsNextBlock, FitsNodes};
ghost use Rattle.proof_text.specs.Lines as lines;
ghost use Rattle.proof_text.specs.SetParts.{Finds, in_list};
ghost use Rattle.proof_text.specs.Spells.{greatest_number};

use crate::block_heads::read_head;
use crate::file::Block;
use crate::node_reading::read_nodes;
use crate::proof_reading::read_proof;
use crate::set_reading::count_in;
use bdd_nodes::Triple;
use kripke_model::expressions::Formula;
use kripke_model::models::Ruled;
use proof_form::form::Proof;
use std::alloc::Global;
use text_lines::cursor::Cursor;
use text_lines::faults::Fault;

/// Reads the number of a block's nodes.
fn read_node_count(cursor: &mut Cursor<'_>) -> Result<u32, Fault>
    requires { cursor.old.line + length cursor.old.left ≤ 4294967295 }
    ensures { Finds (λ n. n ≤ greatest_number) (λ n. lines.counted (codes "nodes") n ∷ [])
        cursor.old result cursor.new }
{
    let line = cursor.line();
    let Some(text) = cursor.next() else {
        return Err(Fault::End);
    };
    count_in(text, b"nodes").ok_or(Fault::Stops { line })
}

/// Reads the nodes of a block behind their number.
fn read_node_part(alloc: Global, cursor: &mut Cursor<'_>, levels: u32) -> Result<Vec<Triple>, Fault>
    requires { cursor.old.line + length cursor.old.left ≤ 4294967295 }
    ensures { FindsOver levels FitsNodes nodes_lines cursor.old (in_list result) cursor.new }
{
    let count = read_node_count(cursor)?;
    let nodes = read_nodes(alloc, cursor, count, levels)?;
    Ok(nodes)
}

/// Reads what stands behind a block's first line.
fn read_rest(
    alloc: Global,
    cursor: &mut Cursor<'_>,
    model: &Ruled,
    formula: &Formula,
    claim: bool,
    levels: u32,
) -> Result<(Vec<Triple>, Proof<u32>), Fault>
    requires room { cursor.old.line + length cursor.old.left ≤ 4294967295 }
    requires spec { (j : ℕ) × (spec_formula model.now j ≡ Some (ctl_of formula.now)) }
    ensures { FindsOver levels (FitsRest model.now (ctl_of formula.now) claim)
        (rest_lines model.now) cursor.old (in_rest result) cursor.new }
{
    model.rules_law();
    let nodes = read_node_part(alloc, cursor, levels)?;
    let most = nodes.len() as u64 + 2;
    let proof = read_proof(alloc, cursor, model, formula, claim, most)?;
    Ok((nodes, proof))
}

/// The formula of a specification.
fn formula_at(model: &Ruled, spec: u32) -> &Formula
    requires { IsSome (spec_formula model.now spec) }
    ensures { spec_formula model.now spec ≡ Some (ctl_of result.now) }
{
    &model.formulas()[spec as usize - 1]
}

/// The specification of the last block, or 0 where there is none. They rise.
fn last_spec(blocks: &[Block]) -> u32
    requires { AllPairs (λ (a b : Plain). a.spec < b.spec) blocks.now }
    ensures { (n : ℕ) → 0 < n → (result < n) ↔ All (λ (a : Plain). a.spec < n) blocks.now }
{
    if blocks.is_empty() {
        return 0;
    }
    let last = &blocks[blocks.len() - 1];
    last.spec
}

/// Reads a block behind the earlier ones.
pub(crate) fn read_block(
    alloc: Global,
    cursor: &mut Cursor<'_>,
    model: &Ruled,
    earlier: &[Block],
    levels: u32,
) -> Result<Block, Fault>
    requires room { cursor.old.line + length cursor.old.left ≤ 4294967295 }
    requires rising { AllPairs (λ (a b : Plain). a.spec < b.spec) earlier.now }
    requires place { cursor.old.line
        ≡ 3 + length (flat_map (lines.block_lines model.now) earlier.now) }
    ensures { FindsFirst levels (FitsNextBlock model.now earlier.now) (lines.block_lines model.now)
        cursor.old result cursor.new }
{
    model.rules_law();
    let first = cursor.line();
    let head = read_head(cursor, model, last_spec(earlier))?;
    let formula = formula_at(model, head.spec);
    let (nodes, proof) = read_rest(alloc, cursor, model, formula, head.claim, levels)?;
    Ok(Block {
        spec: head.spec,
        nodes,
        proof,
        first,
    })
}
