//! Laws of the definitions. The functions compute nothing.

ghost use Rattle.rank_extract.specs.Laws.{FreePartsProve, LeafRunsProve, RunsProve};

use kripke_model::models::Ruled;

/// What is written of a run is a proof of what the run shows.
pub fn written_law(model: &Ruled)
    ensures runs { RunsProve model.now }
    ensures leaves { LeafRunsProve model.now }
    ensures free { FreePartsProve model.now }
{}
