//! A certificate over the nodes of one list.

ghost use Rattle.std.specs.Prelude.{◌≡◌, IfOk, List};
ghost use Rattle.kripke_model.specs.System.{System};
ghost use Rattle.proof_text.specs.Written.{own_order};
ghost use Rattle.region_sets.specs.Sets.{Adds, AreDistinct};
ghost use Rattle.region_sets.specs.Ranks.{AreLive, slots};
ghost use Rattle.command_replies.specs.SeenRows.{certificate_of};
ghost use Rattle.command_replies.specs.Strong.{IsShownBy};
ghost use Rattle.strong_export.specs.Numbered.{HasSets};
ghost use Rattle.strong_fair.specs.Pinned.{certificate_slots, over_states};
ghost use Rattle.strong_fair.specs.Shows.{IsCertificate};
ghost use Rattle.strong_fair.specs.Strong.{Pair};

use crate::numbering::numbered;
use crate::parting::{Room, move_sets, room_for};
use bdd_walk::NodeList;
use command_replies::NodeCertificate;
use diagram_sets::DiagramSets;
use region_sets::{Pin, StateSets, release_all};
use std::alloc::{AllocError, Global};
use strong_fair::certificate::Certificate;

/// The diagrams of the sets in one list, with a root for each set in order. The pins are released.
fn list_sets(sets: &mut DiagramSets, pins: Vec<Pin>) -> Result<NodeList, AllocError>
    requires live { AreLive (⟦<DiagramSets as StateSets>⟧.seen sets.old) (slots pins.items) }
    requires once { AreDistinct (slots pins.items) }
    ensures pins { Adds (⟦<DiagramSets as StateSets>⟧.seen sets.new)
        (⟦<DiagramSets as StateSets>⟧.seen sets.old) (slots pins.items) }
    ensures fulls { (⟦<DiagramSets as StateSets>⟧.seen sets.new).fulls
        ≡ (⟦<DiagramSets as StateSets>⟧.seen sets.old).fulls }
    ensures listed { IfOk result (HasSets (⟦<DiagramSets as StateSets>⟧.seen sets.old) pins.items) }
{
    sets.coding_law();
    let list = sets.export_pins(&pins);
    release_all(sets, pins);
    list
}

/// The certificate over the nodes of one list, with the variables in declared order. Its pins are released, whatever the
/// answer.
pub fn export_certificate(
    alloc: Global,
    sets: &mut DiagramSets,
    certificate: Certificate,
) -> Result<NodeCertificate, AllocError>
    requires live { AreLive (⟦<DiagramSets as StateSets>⟧.seen sets.old)
        (certificate_slots certificate) }
    requires once { AreDistinct (certificate_slots certificate) }
    ensures pins { Adds (⟦<DiagramSets as StateSets>⟧.seen sets.new)
        (⟦<DiagramSets as StateSets>⟧.seen sets.old) (certificate_slots certificate) }
    ensures fulls { (⟦<DiagramSets as StateSets>⟧.seen sets.new).fulls
        ≡ (⟦<DiagramSets as StateSets>⟧.seen sets.old).fulls }
    ensures shown { (m : System) (pairs : List Pair)
        → (⟦<DiagramSets as StateSets>⟧.seen sets.old).over ≡ m
        → (⟦<DiagramSets as StateSets>⟧.seen sets.old).gauge.order ≡ own_order m
        → IsCertificate m pairs
        (over_states (⟦<DiagramSets as StateSets>⟧.seen sets.old) certificate)
        → IfOk result (λ over. IsShownBy m pairs over.nodes.items (certificate_of over)) }
{
    match room_for(alloc, &certificate) {
        Ok(Room { mut pins, reasons }) => {
            move_sets(certificate, &mut pins);
            let list = list_sets(sets, pins)?;
            numbered(alloc, list, &reasons)
        }
        Err(failed) => {
            certificate.release(sets);
            Err(failed)
        }
    }
}
