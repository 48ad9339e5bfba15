// What is found of a model's specifications.
ghost use Rattle.std.specs.Prelude.{◌≡◌, ◌+◌, ◌++◌, ◌∷◌, [], ℕ, All, IfOk, List, None, OnOk, Option};
ghost use Rattle.std.specs.Prelude.{Some, count_by, length, map, option_map};
ghost use Rattle.kripke_model.specs.Ctl.{formula_of};
ghost use Rattle.kripke_model.specs.System.{Condition, System};
ghost use Rattle.proof_text.specs.File.{Block};
ghost use Rattle.proof_text.specs.Lines.{block_lines, text_of};
ghost use Rattle.smv_texts.specs.Evidence.{IsMet};
ghost use Rattle.smv_texts.specs.Outcomes.{finding_of, outcome_of};
ghost use Rattle.smv_texts.specs.Report.{is_unknown};
ghost use Rattle.spec_verdicts.specs.Checked.{EndsWith};
ghost use Rattle.spec_verdicts.specs.Exports.{ProvesOutcome};
ghost use Rattle.spec_verdicts.specs.Found.{AreFound};
ghost use Rattle.spec_verdicts.specs.Verdicts.{IsDecided};

use crate::proof_files::{add_block, header};
use bdd_nodes::Held;
use kripke_model::models::Ruled;
use proof_text::laws::written_law;
use smv_texts::{Ending, Finding, Outcome, Saving, false_count};
use std::alloc::{AllocError, Global};

/// What is found of each specification so far, in order.
#[derive(Drop)]
pub struct Findings<'a> {
    pub findings: Vec<Finding>,
    /// A full store for each specification that is unknown.
    pub held: Vec<Held>,
    /// The file of the proofs of what is found, if they are asked for.
    pub saves: Option<Saving<'a>>,
}

impl<'a> Findings<'a> {
    /// Nothing is found yet. With a name, the proofs are asked for, to be saved under it.
    pub fn new(
        alloc: Global,
        model: &Ruled,
        proofs: Option<&'a str>,
    ) -> Result<Findings<'a>, AllocError>
        ensures { (limit : ℕ) → IfOk result
            (AreFound model.now limit (option_map (λ name. name.now) proofs.entry) []) }
    {
        written_law(model);
        Ok(Findings {
            findings: Vec::new(alloc),
            held: Vec::new(alloc),
            saves: header(alloc, model, proofs)?,
        })
    }

    /// The next specification is decided. No proofs are asked for.
    pub fn decide(&mut self, outcome: Outcome) -> Result<(), AllocError>
        ensures { (m : System) (limit : ℕ) (cs : List Condition) (c : Condition)
            → AreFound m limit None cs self.old
            → IsDecided m (formula_of c.expr) (outcome_of outcome)
            → OnOk result (AreFound m limit None (cs ++ c ∷ []) self.new) }
    {
        self.findings.push(Finding {
            outcome,
            left_out: None,
        })?;
        Ok(())
    }

    /// The next specification is decided, and this is the text of its proof's block.
    pub fn prove(&mut self, model: &Ruled, outcome: Outcome, block: &[u8]) -> Result<(), AllocError>
        ensures { (limit : ℕ) (name : List ℕ) (cs : List Condition) (c : Condition) (b : Block)
            → AreFound model.now limit (Some name) cs self.old
            → IsDecided model.now (formula_of c.expr) (outcome_of outcome)
            → ProvesOutcome model.now (1 + length cs) (outcome_of outcome) b
            → block.now ≡ text_of (block_lines model.now b)
            → OnOk result (AreFound model.now limit (Some name) (cs ++ c ∷ []) self.new) }
    {
        written_law(model);
        let left_out = add_block(&mut self.saves, block)?;
        self.findings.push(Finding { outcome, left_out })?;
        Ok(())
    }

    /// The next specification met the node limit.
    pub fn leave(&mut self, limit: u32, held: Held) -> Result<(), AllocError>
        ensures { (m : System) (proofs : Option (List ℕ)) (cs : List Condition) (c : Condition)
            → AreFound m limit proofs cs self.old → IsMet m limit held
            → OnOk result (AreFound m limit proofs (cs ++ c ∷ []) self.new) }
    {
        self.findings.push(Finding {
            outcome: Outcome::Unknown(limit),
            left_out: None,
        })?;
        self.held.push(held)?;
        Ok(())
    }
}

/// The greatest ending that applies.
pub(crate) fn ending_of(findings: &[Finding], held: Vec<Held>) -> Ending
    ensures { (m : System) (limit : ℕ) → All (IsMet m limit) held.items
        → length held.items ≡ count_by is_unknown (map finding_of findings.now)
        → EndsWith m limit (map finding_of findings.now) result }
{
    if !held.is_empty() {
        Ending::Undecided { held }
    } else if false_count(findings) > 0 {
        Ending::Failed
    } else {
        Ending::Clear
    }
}
