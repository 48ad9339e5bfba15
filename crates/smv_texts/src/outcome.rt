// What is found of a specification.
ghost use Rattle.std.specs.Prelude.{◌≡◌, count_by, map};
ghost use Rattle.smv_texts.specs.Outcomes.{finding_of};
ghost use Rattle.smv_texts.specs.Report as lines;

use kripke_model::states::{Lasso, State};

/// What is found of a specification.
#[derive(Drop)]
pub enum Outcome {
    True,
    False {
        /// The least initial state at which it is false.
        state: State,
        /// A path that begins there and shows it.
        path: Option<Lasso>,
    },
    /// The node limit that was met.
    Unknown(u32),
}

/// What is found of a specification, and what became of its proof.
#[derive(Drop)]
pub struct Finding {
    pub outcome: Outcome,
    /// The bytes that the proof file would have with the proof, where the proof was left out.
    pub left_out: Option<usize>,
}

impl Finding {
    pub(crate) fn is_true(&self) -> bool
        ensures { result ≡ lines.is_true (finding_of self.now) }
    {
        matches!(self.outcome, Outcome::True)
    }

    pub(crate) fn is_false(&self) -> bool
        ensures { result ≡ lines.is_false (finding_of self.now) }
    {
        matches!(self.outcome, Outcome::False { .. })
    }

    pub(crate) fn is_unknown(&self) -> bool
        ensures { result ≡ lines.is_unknown (finding_of self.now) }
    {
        matches!(self.outcome, Outcome::Unknown(_))
    }
}

/// How many are true.
pub(crate) fn true_count(findings: &[Finding]) -> usize
    ensures { result ≡ count_by lines.is_true (map finding_of findings.now) }
{
    findings.iter().filter(|finding| finding.is_true()).count()
}

/// How many are false.
pub fn false_count(findings: &[Finding]) -> usize
    ensures { result ≡ count_by lines.is_false (map finding_of findings.now) }
{
    findings.iter().filter(|finding| finding.is_false()).count()
}

/// How many are unknown.
pub(crate) fn unknown_count(findings: &[Finding]) -> usize
    ensures { result ≡ count_by lines.is_unknown (map finding_of findings.now) }
{
    findings
        .iter()
        .filter(|finding| finding.is_unknown())
        .count()
}
