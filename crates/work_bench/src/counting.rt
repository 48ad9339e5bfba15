//! How many entries, layers and sets a proof has, and how many pins a run.

use fair_fixpoint::runs::{NodeRun, Ranks, Run};
use proof_form::form::{Entry, FairPart, FreePart, Layer, Proof, Rule};
use region_sets::Pin;

/// What a proof has. A number that is too great is the greatest.
#[derive(Clone, Copy)]
pub struct Counts {
    pub entries: usize,
    /// The layers of nonfair states, and those of entries by the rule of `AU`.
    pub layers: usize,
    pub sets: usize,
}

impl Counts {
    pub fn zero() -> Counts {
        Counts {
            entries: 0,
            layers: 0,
            sets: 0,
        }
    }

    pub fn plus(self, other: Counts) -> Counts {
        Counts {
            entries: self.entries.saturating_add(other.entries),
            layers: self.layers.saturating_add(other.layers),
            sets: self.sets.saturating_add(other.sets),
        }
    }

    fn of_sets(sets: usize) -> Counts {
        Counts {
            entries: 0,
            layers: 0,
            sets,
        }
    }

    fn of_layers(layers: &[Layer<Pin>]) -> Counts {
        Counts {
            entries: 0,
            layers: layers.len(),
            sets: layers.len(),
        }
    }

    fn of_fair_part(part: &FairPart<Pin>) -> Counts {
        Counts::of_sets(count_in_lists(&part.reach).saturating_add(1))
    }

    fn of_rule(rule: &Rule<Pin>) -> Counts {
        match rule {
            Rule::EX(_) | Rule::AX(_) | Rule::AR(_) => Counts::of_sets(1),
            Rule::EU(list) => Counts::of_sets(list.len()),
            Rule::AU(layers) => Counts::of_layers(layers),
            Rule::ER(fair, untils) => {
                Counts::of_fair_part(fair).plus(Counts::of_sets(untils.len()))
            }
        }
    }

    fn of_entry(entry: &Entry<Pin>) -> Counts {
        let one = Counts {
            entries: 1,
            layers: 0,
            sets: 0,
        };
        one.plus(Counts::of_rule(&entry.rule))
    }

    fn of_entries(entries: &[Entry<Pin>]) -> Counts {
        let mut sum = Counts::zero();
        for entry in entries {
            sum = sum.plus(Counts::of_entry(entry));
        }
        sum
    }

    fn of_free_part(part: &FreePart<Pin>) -> Counts {
        let mut sum = Counts::of_layers(&part.nonfair).plus(Counts::of_fair_part(&part.fair));
        for free in part.entries.iter() {
            sum = sum.plus(Counts::of_entry(&free.entry));
        }
        sum
    }

    /// Those of the proof, with its free part.
    pub fn of_proof(proof: &Proof<Pin>) -> Counts {
        let free = match &proof.free {
            None => Counts::zero(),
            Some(part) => Counts::of_free_part(part),
        };
        let own = Counts::of_layers(&proof.nonfair).plus(Counts::of_fair_part(&proof.fair));
        free.plus(own).plus(Counts::of_entries(&proof.entries))
    }
}

/// How many pins the lists have.
fn count_in_lists(lists: &[Vec<Pin>]) -> usize {
    let mut count: usize = 0;
    for list in lists {
        count = count.saturating_add(list.len());
    }
    count
}

/// How many pins a node has.
fn node_pins(node: &NodeRun) -> usize {
    let ranks = match &node.ranks {
        Ranks::Plain => 0,
        Ranks::Reach(list) => list.len(),
        Ranks::Layered(layered) => layered
            .layers
            .len()
            .saturating_add(1)
            .saturating_add(count_in_lists(&layered.reach))
            .saturating_add(layered.until.len()),
    };
    ranks.saturating_add(2)
}

/// How many pins a run has.
pub fn run_pins(run: &Run) -> usize {
    let mut count = run.nonfair.len().saturating_add(1);
    count = count.saturating_add(count_in_lists(&run.reach));
    for node in run.nodes.iter() {
        count = count.saturating_add(node_pins(node));
    }
    count
}
