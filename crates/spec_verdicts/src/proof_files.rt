// The file of the proofs of what is found, block by block.
ghost use Rattle.std.specs.Prelude.{◌≡◌, IfOk, OnOk, map, option_map};
ghost use Rattle.proof_text.specs.Lines.{header_lines, text_of};
ghost use Rattle.proof_text.specs.Written.{own_order};
ghost use Rattle.smv_texts.specs.Replies.{saved_of};
ghost use Rattle.spec_verdicts.specs.Added.{AddsText, AddsToSaved};

use kripke_model::models::Ruled;
use proof_text::writing::write_header;
use smv_texts::Saving;
use std::alloc::{AllocError, Global};

/// The greatest number of bytes of a proof file.
const MOST_PROOF_BYTES: usize = 1 << 26;

/// The file without a block, to be saved under the name, if there is one.
pub(crate) fn header<'a>(
    alloc: Global,
    model: &Ruled,
    proofs: Option<&'a str>,
) -> Result<Option<Saving<'a>>, AllocError>
    ensures { IfOk result (λ saves. saved_of saves ≡ option_map
        (λ name. (name.now, text_of (header_lines model.now (own_order model.now)))) proofs.entry) }
{
    match proofs {
        None => Ok(None),
        Some(name) => Ok(Some(Saving {
            name,
            bytes: write_header(alloc, model)?,
        })),
    }
}

/// Adds the block behind the bytes, unless they would be too many with it: then so many.
fn add_text(bytes: &mut Vec<u8>, block: &[u8]) -> Result<Option<usize>, AllocError>
    ensures { IfOk result (AddsText bytes.old.items block.now bytes.new.items) }
{
    let size = bytes.len() + block.len();
    if size > MOST_PROOF_BYTES {
        return Ok(Some(size));
    }
    bytes.extend_from_slice(block)?;
    Ok(None)
}

/// Adds the block to the file, if there is one, unless it would be too long with it: then its length.
pub(crate) fn add_block(
    saves: &mut Option<Saving<'_>>,
    block: &[u8],
) -> Result<Option<usize>, AllocError>
    ensures { IfOk result (AddsToSaved (saved_of saves.old) block.now (saved_of saves.new)) }
{
    match saves {
        None => Ok(None),
        Some(saving) => add_text(&mut saving.bytes, block),
    }
}
