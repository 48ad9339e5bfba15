// From lines to entries.

ghost use Rattle.std.specs.Prelude.{◌≡◌, ◌∷◌, ◌≤◌, ◌+◌, [], All, AllPairs, IsTrue, length};
ghost use Rattle.kripke_model.specs.Signs.{node_count};
ghost use Rattle.kripke_model.specs.WellFormed.{ctl_of};
ghost use Rattle.proof_form.specs.Preorder.{node_views, nodes_from};
ghost use Rattle.proof_form.specs.Shape.{ComesBefore, HasRule};
ghost use Rattle.proof_text.specs.EntryHeads.{FitsEntryHead, bare_entry, entry_head_line};
ghost use Rattle.proof_text.specs.Lines as lines;
ghost use Rattle.proof_text.specs.SetParts.{FindsNext, FitsEntry, Judges};
ghost use Rattle.text_lines.specs.WholeLines.{lines_in};

use crate::entry_heads::{EntryHead, comes_last, entry_for, signed_in};
use crate::rule_reading::read_body;
use kripke_model::expressions::Formula;
use proof_form::form::Entry;
use proof_form::preorder::Node;
use proof_form::shapes::has_rule;
use std::alloc::Global;
use text_lines::cursor::Cursor;
use text_lines::faults::Fault;

// Whether the head is one of a temporal node of the formula, whose nodes these are, and comes behind
// the entries.
fn fits_head(
    alloc: Global,
    head: EntryHead,
    formula: &Formula,
    nodes: &[Node<'_>],
    earlier: &[Entry<u32>],
) -> bool
    requires nodes { node_views nodes.now ≡ nodes_from (ctl_of formula.now) 0 }
    requires rising { AllPairs ComesBefore earlier.now }
    ensures rule { IsTrue result → HasRule (ctl_of formula.now) (bare_entry head) }
    ensures last { IsTrue result → All (λ a. ComesBefore a (bare_entry head)) earlier.now }
    ensures fits { HasRule (ctl_of formula.now) (bare_entry head)
        → All (λ a. ComesBefore a (bare_entry head)) earlier.now → IsTrue result }
{
    let entry = entry_for(alloc, head);
    has_rule(formula, nodes, &entry) && comes_last(earlier, &entry)
}

// What the line says, where an entry behind these may begin with it.
fn head_in(
    alloc: Global,
    text: &[u8],
    formula: &Formula,
    nodes: &[Node<'_>],
    earlier: &[Entry<u32>],
) -> Option<EntryHead>
    requires nodes { node_views nodes.now ≡ nodes_from (ctl_of formula.now) 0 }
    requires few_nodes { node_count (ctl_of formula.now) ≤ 4294967295 }
    requires rising { AllPairs ComesBefore earlier.now }
    ensures { Judges (FitsEntryHead (ctl_of formula.now) earlier.now) entry_head_line text.now
        result }
{
    let head = signed_in(text)?;
    if !fits_head(alloc, head, formula, nodes, earlier) {
        return None;
    }
    Some(head)
}

fn read_head(
    alloc: Global,
    cursor: &mut Cursor<'_>,
    formula: &Formula,
    nodes: &[Node<'_>],
    earlier: &[Entry<u32>],
) -> Result<EntryHead, Fault>
    requires room { cursor.old.line + length cursor.old.left ≤ 4294967295 }
    requires line { lines_in cursor.old.left ≡ [] → ⊥ }
    requires nodes { node_views nodes.now ≡ nodes_from (ctl_of formula.now) 0 }
    requires few_nodes { node_count (ctl_of formula.now) ≤ 4294967295 }
    requires rising { AllPairs ComesBefore earlier.now }
    ensures { FindsNext (FitsEntryHead (ctl_of formula.now) earlier.now)
        (λ h. entry_head_line h ∷ []) cursor.old result cursor.new }
{
    let line = cursor.line();
    let Some(text) = cursor.next() else {
        return Err(Fault::End);
    };
    head_in(alloc, text, formula, nodes, earlier).ok_or(Fault::Stops { line })
}

// An entry of the formula, whose nodes these are, behind the earlier ones, which rise. A line is there.
pub(crate) fn read_entry(
    alloc: Global,
    cursor: &mut Cursor<'_>,
    formula: &Formula,
    nodes: &[Node<'_>],
    count: usize,
    most: u64,
    earlier: &[Entry<u32>],
) -> Result<Entry<u32>, Fault>
    requires room { cursor.old.line + length cursor.old.left ≤ 4294967295 }
    requires line { lines_in cursor.old.left ≡ [] → ⊥ }
    requires nodes { node_views nodes.now ≡ nodes_from (ctl_of formula.now) 0 }
    requires few_nodes { node_count (ctl_of formula.now) ≤ 4294967295 }
    requires rising { AllPairs ComesBefore earlier.now }
    requires few { count ≤ 4294967295 }
    requires one { 1 ≤ count }
    requires some { 1 ≤ most }
    ensures { FindsNext (FitsEntry (ctl_of formula.now) count most earlier.now) lines.entry_lines
        cursor.old result cursor.new }
{
    let head = read_head(alloc, cursor, formula, nodes, earlier)?;
    let rule = read_body(alloc, cursor, head.rule, count, most)?;
    Ok(Entry {
        node: head.node,
        plus: head.plus,
        rule,
    })
}
