// The report of what is found.
ghost use Rattle.std.specs.Prelude.{◌≡◌, ◌≤◌, ℕ, IfOk, List, Option, length, map, option_map};
ghost use Rattle.smv_texts.specs.Evidence.{IsMet};
ghost use Rattle.smv_texts.specs.Outcomes.{finding_of};
ghost use Rattle.smv_texts.specs.Replies.{IsReply};
ghost use Rattle.spec_verdicts.specs.Checked.{IsChecked, LeavesUnknown, all_unknown as all_are_unknown};
ghost use Rattle.spec_verdicts.specs.Found.{AreFound};

use crate::Findings;
use crate::findings::ending_of;
use crate::proof_files::header;
use bdd_nodes::Held;
use kripke_model::models::Ruled;
use proof_text::laws::written_law;
use smv_texts::{Ending, Finding, Outcome, Reply, report_text};
use std::alloc::{AllocError, Global};

/// The reply where each specification was tried.
pub fn checked<'a>(
    alloc: Global,
    model: &Ruled,
    found: Findings<'a>,
) -> Result<Reply<'a>, AllocError>
    requires { length found.findings.items ≤ length model.now.specs }
    ensures { (limit : ℕ) (proofs : Option (List ℕ))
        → AreFound model.now limit proofs model.now.specs found.entry
        → IfOk result (IsReply (IsChecked model.now limit proofs)) }
{
    let text = report_text(alloc, model, &found.findings)?;
    let Findings {
        findings,
        held,
        saves,
    } = found;
    Ok(Reply {
        text,
        ending: ending_of(&findings, held),
        saves,
    })
}

/// Each specification is unknown.
fn unknown_findings(alloc: Global, model: &Ruled, limit: u32) -> Result<Vec<Finding>, AllocError>
    ensures { IfOk result (λ findings.
        map finding_of findings.items ≡ all_are_unknown model.now limit) }
{
    let specs = model.specs();
    let mut findings = Vec::new(alloc);
    for _ in specs {
        findings.push(Finding {
            outcome: Outcome::Unknown(limit),
            left_out: None,
        })?;
    }
    Ok(findings)
}

/// The reply where the limit was met before any specification was tried. With a name, the proofs are
/// asked for, to be saved under it.
pub fn all_unknown<'a>(
    alloc: Global,
    model: &Ruled,
    limit: u32,
    held: Held,
    proofs: Option<&'a str>,
) -> Result<Reply<'a>, AllocError>
    requires { IsMet model.now limit held }
    ensures { IfOk result
        (IsReply (LeavesUnknown model.now limit (option_map (λ name. name.now) proofs.entry))) }
{
    written_law(model);
    let findings = unknown_findings(alloc, model, limit)?;
    let saves = header(alloc, model, proofs)?;
    let text = report_text(alloc, model, &findings)?;
    Ok(Reply {
        text,
        ending: Ending::Undecided {
            held: vec![in alloc; held]?,
        },
        saves,
    })
}
