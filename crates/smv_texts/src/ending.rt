// How an answer ends.
ghost use Rattle.std.specs.Prelude.{◌≡◌};
ghost use Rattle.smv_texts.specs.Statuses.{status_of};

use crate::Status;
use bdd_nodes::Held;

/// How an answer ends where nothing fails.
#[derive(Debug, Drop)]
pub enum Ending {
    /// Every specification is true, every block is accepted, or a text was asked for.
    Clear,
    /// Some specification is false, or some block is rejected, and none is unknown or unanswered.
    Failed,
    /// Some specification is unknown, some block is unanswered, or the model is undecided, since
    /// the node limit was met.
    Undecided {
        /// A full store for each unknown specification or unanswered block, or a single one where
        /// the model is undecided.
        held: Vec<Held>,
    },
    /// The model's text is refused.
    ModelRefused,
    /// The proof file's text is refused.
    ProofRefused,
    /// The words are no command.
    Usage,
}

impl Ending {
    /// The status of a call that ends so.
    pub fn into_status(self) -> Status
        ensures { result ≡ status_of self }
    {
        match self {
            Ending::Clear => Status::Clear,
            Ending::Failed => Status::Failed,
            Ending::Undecided { held } => Status::Undecided { held },
            Ending::ModelRefused => Status::ModelRefused,
            Ending::ProofRefused => Status::ProofRefused,
            Ending::Usage => Status::Usage,
        }
    }
}
