//! Reads a file up to its end.

ghost use Rattle.std.specs.Prelude.{◌≡◌, ◌≤◌, length};
ghost use Rattle.proof_text.specs.FileFault.{ReadsAll};

use crate::block_reading::read_block;
use crate::file::ProofFile;
use crate::header_reading::read_header;
use crate::laws::variables_law;
use crate::state_bits::state_bits;
use kripke_model::models::Ruled;
use std::alloc::Global;
use text_lines::cursor::Cursor;
use text_lines::faults::Fault;

/// Reads the file that the whole text is.
pub(crate) fn read_all(
    alloc: Global,
    cursor: &mut Cursor<'_>,
    model: &Ruled,
) -> Result<ProofFile, Fault>
    requires line { cursor.old.line ≡ 1 }
    requires short { length cursor.old.left ≤ 67108864 }
    ensures { ReadsAll model.now cursor.old result cursor.new }
{
    model.rules_law();
    variables_law(model.vars());
    let levels = state_bits(model);
    let order = read_header(alloc, cursor, model)?;
    let mut blocks = Vec::new(alloc);
    while !cursor.is_done() {
        let block = read_block(alloc, cursor, model, &blocks, levels)?;
        let Ok(()) = blocks.push(block) else {
            return Err(Fault::Memory);
        };
    }
    Ok(ProofFile { order, blocks })
}
