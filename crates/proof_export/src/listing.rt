//! The sets of a proof as one list of nodes.

ghost use Rattle.std.specs.Prelude.{[], IfOk, length};
ghost use Rattle.region_sets.specs.Sets.{IsCall};
ghost use Rattle.region_sets.specs.Ranks.{AreLive};
ghost use Rattle.proof_form.specs.Form.{sets_of};
ghost use Rattle.proof_form.specs.Pinned.{proof_slots};
ghost use Rattle.proof_export.specs.Listed.{HasSets};

use bdd_walk::NodeList;
use diagram_sets::DiagramSets;
use proof_form::form::Proof;
use proof_form::gathering::gather;
use region_sets::{Pin, SetRefusal, StateSets, release_all};
use std::alloc::Global;

/// The diagrams of the proof's sets, with a root for each set in the order of the lines.
pub(crate) fn list_sets(
    alloc: Global,
    sets: &mut DiagramSets,
    proof: &Proof<Pin>,
) -> Result<NodeList, SetRefusal>
    requires { AreLive (⟦<DiagramSets as StateSets>⟧.seen sets.old) (proof_slots proof.now) }
    ensures call { IsCall (length (sets_of proof.now)) (⟦<DiagramSets as StateSets>⟧.seen sets.old)
        (⟦<DiagramSets as StateSets>⟧.seen sets.new) [] result }
    ensures sets { IfOk result (HasSets (⟦<DiagramSets as StateSets>⟧.seen sets.old) proof.now) }
{
    let copies = gather(alloc, sets, proof)?;
    sets.coding_law();
    let list = sets.export_pins(&copies);
    release_all(sets, copies);
    Ok(list?)
}
