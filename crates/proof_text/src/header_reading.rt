//! Reads the two lines of a proof file's header.

ghost use Rattle.std.specs.Prelude.{◌≡◌, ◌+◌, ◌≤◌, ◌∷◌, [], length};
ghost use Rattle.proof_text.specs.FileParts.{FitsOrder, version_line};
ghost use Rattle.proof_text.specs.Lines.{header_lines, line_text};
ghost use Rattle.proof_text.specs.SetParts.{Finds, in_list};

use crate::fixed_lines::read_fixed;
use crate::order_reading::read_order;
use kripke_model::models::Ruled;
use single_states::steps::has_leaf_constraints;
use std::alloc::Global;
use text_lines::cursor::Cursor;
use text_lines::faults::Fault;

/// The first line of a file.
#[tactic(auto, using(crate::proofs::WrittenLines::second_version))]
fn version_text(model: &Ruled) -> &'static [u8]
    ensures { result.now ≡ line_text (version_line model.now) }
{
    if has_leaf_constraints(model) {
        b"smvproof 1"
    } else {
        b"smvproof 2"
    }
}

/// Reads the line that names the version of the model's files.
fn read_version(cursor: &mut Cursor<'_>, model: &Ruled) -> Result<(), Fault>
    requires { cursor.old.line + length cursor.old.left ≤ 4294967295 }
    ensures { Finds (λ (x : Unit {0}). Unit {0}) (λ x. version_line model.now ∷ [])
        cursor.old result cursor.new }
{
    read_fixed(cursor, version_text(model))
}

/// Reads the lines of the version and of the order, in which the variables are given.
pub(crate) fn read_header(
    alloc: Global,
    cursor: &mut Cursor<'_>,
    model: &Ruled,
) -> Result<Vec<u32>, Fault>
    requires { cursor.old.line + length cursor.old.left ≤ 4294967295 }
    ensures { Finds (FitsOrder model.now) (header_lines model.now)
        cursor.old (in_list result) cursor.new }
{
    read_version(cursor, model)?;
    read_order(alloc, cursor, model)
}
