// What is answered to the blocks of a proof file.
ghost use Rattle.std.specs.Prelude.{◌≡◌, ◌++◌, ◌∷◌, ◌*◌, ◌<◌, [], ℕ, List, OnOk, count_by, length, map};
ghost use Rattle.bit_encode.specs.Enough.{enough};
ghost use Rattle.kripke_model.specs.System.{System};
ghost use Rattle.command_replies.specs.Answered.{AreAnswered, answer_of};
ghost use Rattle.command_replies.specs.Rechecked.{EndsAnswers};
ghost use Rattle.command_replies.specs.ProofReport as lines;
ghost use Rattle.proof_form.specs.Meaning.{ClaimHolds};
ghost use Rattle.proof_text.specs.File.{Block};
ghost use Rattle.proof_text.specs.Lines.{block_lines};
ghost use Rattle.proof_text.specs.Meaning.{IsFirstBadLine, IsProved};
ghost use Rattle.smv_texts.specs.Evidence.{IsOfLimit};

use bdd_nodes::Held;
use smv_texts::Ending;
use std::alloc::{AllocError, Global};

/// What is answered to a block.
#[derive(Clone, Copy, Debug, PartialEq, Eq)]
pub enum Answer {
    /// Each line shows what it has to, so the claim is true.
    Accepted,
    /// The first line that doesn't show what it has to, counted from 1 in the file.
    Rejected(u32),
    /// The node limit that was met.
    Unanswered(u32),
}

impl Answer {
    fn is_accepted(self) -> bool
        ensures { result ≡ lines.is_accepted (answer_of self) }
    {
        matches!(self, Answer::Accepted)
    }

    fn is_rejected(self) -> bool
        ensures { result ≡ lines.is_rejected (answer_of self) }
    {
        matches!(self, Answer::Rejected(_))
    }

    fn is_unanswered(self) -> bool
        ensures { result ≡ lines.is_unanswered (answer_of self) }
    {
        matches!(self, Answer::Unanswered(_))
    }
}

/// How many blocks are accepted.
pub(crate) fn accepted_count(answers: &[Answer]) -> usize
    ensures { result ≡ count_by lines.is_accepted (map answer_of answers.now) }
{
    answers.iter().filter(|answer| answer.is_accepted()).count()
}

/// How many blocks are rejected.
pub(crate) fn rejected_count(answers: &[Answer]) -> usize
    ensures { result ≡ count_by lines.is_rejected (map answer_of answers.now) }
{
    answers.iter().filter(|answer| answer.is_rejected()).count()
}

/// How many blocks are unanswered.
pub(crate) fn unanswered_count(answers: &[Answer]) -> usize
    ensures { result ≡ count_by lines.is_unanswered (map answer_of answers.now) }
{
    answers
        .iter()
        .filter(|answer| answer.is_unanswered())
        .count()
}

/// What is answered to each block so far, in order.
#[derive(Drop)]
pub struct Answers {
    pub answers: Vec<Answer>,
    /// A full store for each block that is unanswered.
    pub held: Vec<Held>,
}

impl Answers {
    /// Nothing is answered yet.
    pub fn new(alloc: Global) -> Answers
        ensures { (m : System) (limit : ℕ) (order : List ℕ) → AreAnswered m limit order [] result }
    {
        Answers {
            answers: Vec::new(alloc),
            held: Vec::new(alloc),
        }
    }

    /// The next block is accepted: each of its lines shows what it has to, and its claim is true.
    pub fn accept(&mut self) -> Result<(), AllocError>
        ensures { (m : System) (limit : ℕ) (order : List ℕ) (blocks : List Block) (b : Block)
            → AreAnswered m limit order blocks self.old
            → IsProved m order b × ClaimHolds m b.spec b.proof.claim
            → OnOk result (AreAnswered m limit order (blocks ++ b ∷ []) self.new) }
    {
        self.answers.push(Answer::Accepted)?;
        Ok(())
    }

    /// The next block is rejected: this line, counted from 1 in the file, is the first one that
    /// doesn't show what it has to.
    pub fn reject(&mut self, line: u32) -> Result<(), AllocError>
        ensures { (m : System) (limit : ℕ) (order : List ℕ) (blocks : List Block) (b : Block)
            → AreAnswered m limit order blocks self.old
            → IsFirstBadLine m order b line
            → OnOk result (AreAnswered m limit order (blocks ++ b ∷ []) self.new) }
    {
        self.answers.push(Answer::Rejected(line))?;
        Ok(())
    }

    /// The next block met the node limit, which is below what is enough for each of its lines.
    pub fn leave(&mut self, limit: u32, held: Held) -> Result<(), AllocError>
        ensures { (m : System) (order : List ℕ) (blocks : List Block) (b : Block)
            → AreAnswered m limit order blocks self.old
            → IsOfLimit m limit held
            → limit < enough m * length (block_lines m b)
            → OnOk result (AreAnswered m limit order (blocks ++ b ∷ []) self.new) }
    {
        self.answers.push(Answer::Unanswered(limit))?;
        self.held.push(held)?;
        Ok(())
    }

    /// The greatest ending that applies.
    pub(crate) fn into_ending(self) -> Ending
        ensures { (m : System) (limit : ℕ) (order : List ℕ) (blocks : List Block)
            → AreAnswered m limit order blocks self
            → EndsAnswers m limit (map answer_of self.answers.items) result }
    {
        let Answers { answers, held } = self;
        if !held.is_empty() {
            Ending::Undecided { held }
        } else if rejected_count(&answers) > 0 {
            Ending::Failed
        } else {
            Ending::Clear
        }
    }
}
