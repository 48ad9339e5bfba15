//! The file with one proof.

ghost use Rattle.std.specs.Prelude.{◌≡◌, [], length};
ghost use Rattle.region_sets.specs.Sets.{IsCall};
ghost use Rattle.region_sets.specs.Ranks.{AreLive};
ghost use Rattle.proof_form.specs.Form.{sets_of};
ghost use Rattle.proof_form.specs.Meaning.{ProvesSpec};
ghost use Rattle.proof_form.specs.Pinned.{over_states, proof_slots};
ghost use Rattle.proof_text.specs.Written.{own_order};

use diagram_sets::DiagramSets;
use kripke_model::models::Ruled;
use proof_export::writing::block_text;
use proof_form::form::Proof;
use proof_text::writing::write_header;
use region_sets::{Pin, SetRefusal, StateSets};
use std::alloc::Global;

/// The file with the proof of the specification.
pub fn file_of(
    alloc: Global,
    sets: &mut DiagramSets,
    model: &Ruled,
    spec: u32,
    proof: &Proof<Pin>,
) -> Result<Vec<u8>, SetRefusal>
    requires over { (⟦<DiagramSets as StateSets>⟧.seen sets.old).over ≡ model.now }
    requires order { (⟦<DiagramSets as StateSets>⟧.seen sets.old).gauge.order
        ≡ own_order model.now }
    requires live { AreLive (⟦<DiagramSets as StateSets>⟧.seen sets.old) (proof_slots proof.now) }
    requires proves { ProvesSpec model.now spec
        (over_states (⟦<DiagramSets as StateSets>⟧.seen sets.old) proof.now) }
    ensures { IsCall (length (sets_of proof.now)) (⟦<DiagramSets as StateSets>⟧.seen sets.old)
        (⟦<DiagramSets as StateSets>⟧.seen sets.new) [] result }
{
    let block = block_text(alloc, sets, model, spec, proof)?;
    let mut text = write_header(alloc, model)?;
    text.extend_from_slice(&block)?;
    Ok(text)
}
