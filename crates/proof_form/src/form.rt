//! Proofs that a formula is true at all initial states, or that it isn't, as they are written. `T` is what stands for a
//! set of states: a pin, or the number of a node.

use kripke_model::states::State;
use std::marker::Model;

/// States that avoid a constraint until they leave for an earlier layer.
#[derive(Drop)]
pub struct Layer<T> {
    /// The constraint, counted from 1.
    pub avoid: u32,
    pub set: T,
}

impl<T> Model for Layer<T> {
    ghost use Rattle.proof_form.specs.Form as plain;

    ghost Value = { plain.Layer T };

    ghost view = { λ l. record { avoid = l.avoid; set = l.set } };
}

/// A set of states from which fair paths stay in it.
#[derive(Drop)]
pub struct FairPart<T> {
    pub inside: T,
    /// For each constraint the sets that lead to it in `inside`.
    pub reach: Vec<Vec<T>>,
}

impl<T> Model for FairPart<T> {
    ghost use Rattle.std.specs.Prelude.{map};
    ghost use Rattle.proof_form.specs.Form as plain;

    ghost Value = { plain.FairPart T };

    ghost view = { λ p. record {
      inside = p.inside;
      reach = map (λ sets. sets.items) p.reach.items;
    } };
}

/// What is given for one sign of a temporal node, by the rule of its operator and sign.
#[derive(Drop)]
pub enum Rule<T> {
    /// Some next state is in the argument's set and has a fair path.
    EX(T),
    /// Each next state is in the argument's set or has no fair path.
    AX(T),
    /// Each state is in the first set, or each next state stays or has no fair path.
    AR(T),
    /// Each set leads to an earlier one, and the first lies in the last argument's set.
    EU(Vec<T>),
    /// Each layer is led out of, into the last argument's set or an earlier layer.
    AU(Vec<Layer<T>>),
    /// A fair set, and sets that lead to where the first argument lets go.
    ER(FairPart<T>, Vec<T>),
}

/// What is given for one sign of a temporal node.
#[derive(Drop)]
pub struct Entry<T> {
    /// The node's number in preorder, from 1.
    pub node: u32,
    /// Whether its states are claimed to be some where the node is true.
    pub plus: bool,
    pub rule: Rule<T>,
}

impl<T> Model for Entry<T> {
    ghost use Rattle.proof_form.specs.Form as plain;

    ghost Value = { plain.Entry T };

    ghost use Rattle.proof_form.specs.Seen.{seen_rule};

    ghost view = { λ e. record { node = e.node; plus = e.plus; rule = seen_rule e.rule } };
}

/// What is given for one sign of a temporal node of a constraint's formula.
#[derive(Drop)]
pub struct FreeEntry<T> {
    /// The constraint, counted from 1.
    pub constraint: u32,
    pub entry: Entry<T>,
}

impl<T> Model for FreeEntry<T> {
    ghost use Rattle.proof_form.specs.Form as plain;

    ghost Value = { plain.FreeEntry T };

    ghost view = { λ e. record { constraint = e.constraint; entry = e.entry } };
}

/// What is given for constraints that hold a path operator. It speaks of all infinite paths, where no constraint is asked:
/// one that every state meets stands in its place.
#[derive(Drop)]
pub struct FreePart<T> {
    pub nonfair: Vec<Layer<T>>,
    pub fair: FairPart<T>,
    pub entries: Vec<FreeEntry<T>>,
}

impl<T> Model for FreePart<T> {
    ghost use Rattle.proof_form.specs.Form as plain;

    ghost Value = { plain.FreePart T };

    ghost view = { λ p. record {
      nonfair = p.nonfair.items;
      fair = p.fair;
      entries = p.entries.items;
    } };
}

/// A proof of a specification, or that it fails.
#[derive(Drop)]
pub struct Proof<T> {
    /// Whether the specification is claimed true at every initial state.
    pub claim: bool,
    /// There exactly where some constraint holds a path operator.
    pub free: Option<FreePart<T>>,
    /// Layers of states where no fair path begins.
    pub nonfair: Vec<Layer<T>>,
    /// States where fair paths begin.
    pub fair: FairPart<T>,
    pub entries: Vec<Entry<T>>,
    /// An initial state at which the specification is false, where that is claimed.
    pub at: Option<State>,
}

impl<T> Model for Proof<T> {
    ghost use Rattle.proof_form.specs.Form as plain;

    ghost Value = { plain.Proof T };

    ghost view = { λ p. record {
      claim = p.claim;
      free = p.free;
      nonfair = p.nonfair.items;
      fair = p.fair;
      entries = p.entries.items;
      at = p.at;
    } };
}
