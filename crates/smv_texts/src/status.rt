// How a call of the program ended.
ghost use Rattle.std.specs.Prelude.{◌≡◌};

use bdd_nodes::Held;

/// How a call of the program ended.
#[derive(Debug, Drop)]
pub enum Status {
    /// Every specification is true, every block is accepted, or a text was asked for.
    Clear,
    /// Some specification is false, or some block is rejected, and none is unknown or unanswered.
    Failed,
    /// Some specification is unknown, some block is unanswered, or the model is undecided, since
    /// the node limit was met.
    Undecided {
        /// A full store for each unknown specification or unanswered block, or a single one where
        /// the model is undecided.
        held: Vec<Held>,
    },
    /// The model's text is refused.
    ModelRefused,
    /// A file was not read or not saved, or the text was not put.
    OutsideFault,
    /// The words are no command.
    Usage,
    /// Memory ran out.
    Memory,
    /// The proof file's text is refused.
    ProofRefused,
}

impl Status {
    ghost use Rattle.smv_texts.specs.Statuses.{code_of};

    /// The exit status of the process.
    pub fn code(&self) -> u8
        ensures { result ≡ code_of self.now }
    {
        match self {
            Status::Clear => 0,
            Status::Failed => 1,
            Status::Undecided { .. } => 2,
            Status::ModelRefused => 3,
            Status::OutsideFault => 4,
            Status::Usage => 5,
            Status::Memory => 6,
            Status::ProofRefused => 7,
        }
    }
}
