// Reads the lines of a word and a number: the first line, that of a state, and the last line.

ghost use Rattle.std.specs.Prelude.{◌≡◌, ◌+◌, ◌≤◌, ◌<◌, ◌∷◌, [], ℕ, length, MatchOption};
ghost use Rattle.trace_files.specs.Parts.{Finds, FitsLoop, one_loop};
ghost use Rattle.trace_files.specs.Spells.{IsSpec};
ghost use Rattle.trace_files.specs.Trace.{loop_line, spec_line, state_line};

use crate::numbered::{is_numbered, number_behind};
use kripke_model::models::Ruled;
use kripke_model::states::State;
use text_lines::cursor::Cursor;
use text_lines::faults::Fault;

/// The specification that a line names.
fn spec_in(model: &Ruled, text: &[u8]) -> Option<u32>
    ensures { MatchOption result ((j : ℕ) → IsSpec model.now j → spec_line j ≡ text.now → ⊥)
        (λ j. IsSpec model.now j × (spec_line j ≡ text.now)) }
{
    model.rules_law();
    let spec = number_behind(text, b"trace ")?;
    if spec >= 1 && spec as usize <= model.specs().len() {
        Some(spec)
    } else {
        None
    }
}

/// Reads the line that names the specification. There is one at least.
pub(crate) fn read_spec(cursor: &mut Cursor<'_>, model: &Ruled) -> Result<u32, Fault>
    requires room { cursor.old.line + length cursor.old.left ≤ 4294967295 }
    requires some { 0 < length model.now.specs }
    ensures { Finds (IsSpec model.now) (λ j. spec_line j ∷ []) cursor.old result cursor.new }
{
    let line = cursor.line();
    let Some(text) = cursor.next() else {
        return Err(Fault::End);
    };
    match spec_in(model, text) {
        Some(spec) => Ok(spec),
        None => Err(Fault::Stops { line }),
    }
}

/// Reads the line that begins state number k.
pub(crate) fn read_head(cursor: &mut Cursor<'_>, k: usize) -> Result<(), Fault>
    requires { cursor.old.line + length cursor.old.left ≤ 4294967295 }
    ensures { Finds (λ (u : Unit {0}). Unit {0}) (λ u. state_line k ∷ []) cursor.old result
        cursor.new }
{
    let line = cursor.line();
    let Some(text) = cursor.next() else {
        return Err(Fault::End);
    };
    if is_numbered(text, b"state ", k) {
        Ok(())
    } else {
        Err(Fault::Stops { line })
    }
}

/// The state at which the path goes on, by the last line. It is the first one, or one of so many
/// others.
fn place_in(text: &[u8], others: usize) -> Option<u32>
    requires { others ≤ 4294967295 }
    ensures { MatchOption result ((i : ℕ) → i ≤ others → loop_line i ≡ text.now → ⊥)
        (λ i. (i ≤ others) × (loop_line i ≡ text.now)) }
{
    let place = number_behind(text, b"loop ")?;
    if place as usize <= others {
        Some(place)
    } else {
        None
    }
}

/// Reads the last line, behind the first state and the others.
pub(crate) fn read_loop(cursor: &mut Cursor<'_>, others: &[State]) -> Result<u32, Fault>
    requires room { cursor.old.line + length cursor.old.left ≤ 4294967295 }
    requires few { length others.now ≤ 4294967295 }
    ensures { Finds (FitsLoop others.now) (one_loop others.now) cursor.old result cursor.new }
{
    let line = cursor.line();
    let Some(text) = cursor.next() else {
        return Err(Fault::End);
    };
    match place_in(text, others.len()) {
        Some(place) => Ok(place),
        None => Err(Fault::Stops { line }),
    }
}
