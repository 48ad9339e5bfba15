//! Reads the nodes of a block, one after the other.

ghost use Rattle.std.specs.Prelude.{◌≡◌, ◌+◌, ◌≤◌, ◌++◌, ◌∷◌, [], length, IfOk, MatchOption};
ghost use Rattle.bdd_nodes.specs.declared.triple.Triple.{Triple as Node};
ghost use Rattle.proof_text.specs.FileParts.{FitsNode, one_node};
ghost use Rattle.proof_text.specs.Lines.{Node as node_line, line_text};
ghost use Rattle.proof_text.specs.NodesRead.{IsJudged};
ghost use Rattle.proof_text.specs.SetParts.{in_list};
ghost use Rattle.proof_text.specs.Spells.{IsGoodLine};
ghost use Rattle.text_lines.specs.Formats.{FitMany, lines_of_many};
ghost use Rattle.text_lines.specs.Found.{IsFound};

use crate::line_words::{takes_end, takes_number, takes_word};
use crate::node_tests::{is_good, is_new};
use bdd_nodes::Triple;
use indexmap::IndexSet;
use std::alloc::Global;
use text_lines::cursor::Cursor;
use text_lines::faults::Fault;
use text_lines::words::Words;

/// The node that a line writes.
fn node_in(text: &[u8]) -> Option<Triple>
    ensures { MatchOption result
        ((t : Node) → FitsNode [] t → line_text (node_line [] t) ≡ text.now → ⊥)
        (λ t. FitsNode [] t × (line_text (node_line [] t) ≡ text.now)) }
{
    let mut words = Words::of(text);
    if !takes_word(&mut words, b"n") {
        return None;
    }
    let level = takes_number(&mut words)?;
    let low = takes_number(&mut words)?;
    let high = takes_number(&mut words)?;
    if !takes_end(&mut words) {
        return None;
    }
    Some(Triple { level, low, high })
}

/// Adds a node that keeps the rules behind those of the table.
fn judge(levels: u32, table: &mut IndexSet<Triple>, node: Triple, line: u32) -> Result<(), Fault>
    ensures { IsJudged levels table.old.keys node line result table.new.keys }
{
    if !is_good(levels, table.as_slice(), &node) {
        return Err(Fault::Breaks { line });
    }
    match is_new(table, node) {
        Ok(true) => Ok(()),
        Ok(false) => Err(Fault::Breaks { line }),
        Err(_) => Err(Fault::Memory),
    }
}

/// Reads the next node, and adds it to the table.
fn read_node(
    cursor: &mut Cursor<'_>,
    levels: u32,
    table: &mut IndexSet<Triple>,
) -> Result<Triple, Fault>
    requires { cursor.old.line + length cursor.old.left ≤ 4294967295 }
    ensures found { IsFound line_text (IsGoodLine levels) (FitsNode table.old.keys)
        (one_node table.old.keys) cursor.old result cursor.new }
    ensures table { IfOk result (λ t. table.new.keys ≡ table.old.keys ++ t ∷ []) }
{
    let line = cursor.line();
    let Some(text) = cursor.next() else {
        return Err(Fault::End);
    };
    let Some(node) = node_in(text) else {
        return Err(Fault::Stops { line });
    };
    match judge(levels, table, node, line) {
        Ok(()) => Ok(node),
        Err(fault) => Err(fault),
    }
}

/// Reads so many nodes.
pub(crate) fn read_nodes(
    alloc: Global,
    cursor: &mut Cursor<'_>,
    count: u32,
    levels: u32,
) -> Result<Vec<Triple>, Fault>
    requires { cursor.old.line + length cursor.old.left ≤ 4294967295 }
    ensures { IsFound line_text (IsGoodLine levels) (FitMany FitsNode count [])
        (lines_of_many one_node []) cursor.old (in_list result) cursor.new }
{
    // a count reserves no memory: the table grows as nodes come
    let mut table = IndexSet::new(alloc);
    for _i in 0..count {
        read_node(cursor, levels, &mut table)?;
    }
    match table.as_slice().to_vec(alloc) {
        Ok(nodes) => Ok(nodes),
        Err(_) => Err(Fault::Memory),
    }
}
