//! From texts to proof files.

ghost use Rattle.std.specs.Prelude.{◌≡◌, ◌⊎◌, IfErr, IfOk};
ghost use Rattle.proof_text.specs.Refuses.{Refuses};
ghost use Rattle.proof_text.specs.Spells.{Spells};
ghost use Rattle.proof_text.specs.declared.refusals.TextRefusal.TheVariants.{Memory as out_of_memory};

use crate::file::ProofFile;
use crate::file_reading::read_all;
use crate::refusals::TextRefusal;
use crate::text_refusals::refusal_of;
use kripke_model::models::Ruled;
use std::alloc::Global;
use text_lines::cursor::Cursor;

/// The most bytes that a proof file has.
pub const MAX_BYTES: usize = 67_108_864;

/// Reads the text of a proof file of the model, of at most 67,108,864 bytes. A text is one file at
/// most, or it is refused for one reason (`laws::refusal_law`); beside that memory may run out. The
/// numbers in the text reserve no memory, and the time is linear in its length.
pub fn read_file(alloc: Global, model: &Ruled, bytes: &[u8]) -> Result<ProofFile, TextRefusal>
    ensures file { IfOk result (λ f. Spells model.now f bytes.now) }
    ensures refused { IfErr result
        (λ refusal. (refusal ≡ out_of_memory) ⊎ Refuses model.now bytes.now refusal) }
{
    if bytes.len() > MAX_BYTES {
        return Err(TextRefusal::TooLong);
    }
    let mut cursor = Cursor::new(bytes);
    match read_all(alloc, &mut cursor, model) {
        Ok(file) => Ok(file),
        Err(fault) => Err(refusal_of(model, bytes, fault, cursor.line())),
    }
}
