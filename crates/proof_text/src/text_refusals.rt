//! The refusal of a text whose reading stopped.

ghost use Rattle.std.specs.Prelude.{◌≡◌, ◌⊎◌, ◌≤◌, ◌↔◌, length, IsTrue};
ghost use Rattle.proof_text.specs.FileFault.{IsFileFault};
ghost use Rattle.proof_text.specs.Refuses.{IsOrderLine, Refuses};
ghost use Rattle.proof_text.specs.declared.refusals.TextRefusal.TheVariants.{Memory as out_of_memory};
ghost use Rattle.text_lines.specs.WholeLines.{lines_in};

use crate::line_words::takes_word;
use crate::refusals::TextRefusal;
use kripke_model::models::Ruled;
use text_lines::cursor::Cursor;
use text_lines::faults::Fault;
use text_lines::words::Words;

/// Whether the second line's first word is `order`.
fn has_order_line(bytes: &[u8]) -> bool
    requires { length bytes.now ≤ 67108864 }
    ensures { IsTrue result ↔ IsOrderLine (lines_in bytes.now) 1 }
{
    let mut cursor = Cursor::new(bytes);
    let Some(_) = cursor.next() else {
        return false;
    };
    let Some(text) = cursor.peek() else {
        return false;
    };
    let mut words = Words::of(text);
    takes_word(&mut words, b"order")
}

/// The refusal of a text whose reading stopped at line n.
#[tactic(auto, using(crate::proofs::RefusedTexts::bad_order, crate::proofs::RefusedTexts::bad_line, crate::proofs::RefusedTexts::bad_node, crate::proofs::RefusedTexts::truncated))]
pub(crate) fn refusal_of(_model: &Ruled, bytes: &[u8], fault: Fault, n: u32) -> TextRefusal
    requires short { length bytes.now ≤ 67108864 }
    requires fault { IsFileFault _model.now bytes.now n fault }
    ensures { (result ≡ out_of_memory) ⊎ Refuses _model.now bytes.now result }
{
    match fault {
        Fault::Stops { line } => {
            if line == 2 && has_order_line(bytes) {
                TextRefusal::BadOrder
            } else {
                TextRefusal::BadLine { line }
            }
        }
        Fault::Breaks { line } => TextRefusal::BadNode { line },
        Fault::End => TextRefusal::Truncated { line: n },
        Fault::Memory => TextRefusal::Memory,
    }
}
