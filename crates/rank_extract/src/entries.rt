//! The entries that a claim needs, from a formula's root down.

ghost use Rattle.std.specs.Prelude.{◌≡◌, ◌<◌, ◌≤◌, ◌+◌, [], ◌∷◌, ◌||◌, length, IfOk, if◌then◌else◌};
ghost use Rattle.kripke_model.specs.Signs.{node_count};
ghost use Rattle.kripke_model.specs.WellFormed.{ctl_of};
ghost use Rattle.region_sets.specs.Sets.{IsLive, region};
ghost use Rattle.region_sets.specs.Ranks.{AreLive};
ghost use Rattle.fair_rules.specs.Block.{same_sign};
ghost use Rattle.fair_fixpoint.specs.Runs.{node_slots, nodes_slots};
ghost use Rattle.fair_fixpoint.specs.SatSets.{node_of};
ghost use Rattle.rank_extract.specs.Added.{AddsEntries, wanted_of};
ghost use Rattle.rank_extract.specs.Given.{entry_at, own_entries};
ghost use Rattle.rank_extract.specs.Made.{IsMade, entries_own, entries_seen, entry_size, total};
ghost use Rattle.rank_extract.specs.Signs.{first_minus, first_plus, kind_entries, last_minus, last_plus, sign_entry};

use crate::rules::node_rule;
use fair_fixpoint::formulas::{Connective, Kind, is_true_there};
use fair_fixpoint::runs::NodeRun;
use fair_fixpoint::walk::{Shape, shape_of};
use kripke_model::expressions::Formula;
use proof_form::form::Entry;
use proof_form::releasing::release_entries;
use region_sets::{Pin, SetRefusal, StateSets};
use std::alloc::{AllocFailed, Global};

/// The signs that are wanted of a node: that its states are some where it is true, and that they are some where it is
/// false.
#[derive(Clone, Copy)]
struct Signs {
    plus: bool,
    minus: bool,
}

impl Signs {
    /// Both where one is wanted.
    fn both(self) -> Signs
        ensures plus { result.plus ≡ (self.plus || self.minus) }
        ensures minus { result.minus ≡ (self.plus || self.minus) }
    {
        let some = self.plus || self.minus;
        Signs {
            plus: some,
            minus: some,
        }
    }

    /// One for the other.
    fn turned(self) -> Signs
        ensures plus { result.plus ≡ self.minus }
        ensures minus { result.minus ≡ self.plus }
    {
        Signs {
            plus: self.minus,
            minus: self.plus,
        }
    }

    /// Those of a node's first part.
    fn of_first(self, kind: Kind) -> Signs
        ensures plus { result.plus ≡ first_plus kind self.plus self.minus }
        ensures minus { result.minus ≡ first_minus kind self.plus self.minus }
    {
        match kind {
            Kind::Connected(connective) => match connective {
                Connective::Not | Connective::Implies => self.turned(),
                Connective::And | Connective::Or => self,
                Connective::Iff => self.both(),
            },
            Kind::Quantified(_) => self,
            Kind::Between(_) => self,
        }
    }

    /// Those of its last part.
    fn of_last(self, kind: Kind) -> Signs
        ensures plus { result.plus ≡ last_plus kind self.plus self.minus }
        ensures minus { result.minus ≡ last_minus kind self.plus self.minus }
    {
        match kind {
            Kind::Connected(connective) => match connective {
                Connective::Not | Connective::Implies => self,
                Connective::And | Connective::Or => self,
                Connective::Iff => self.both(),
            },
            Kind::Quantified(_) => self,
            Kind::Between(_) => self,
        }
    }
}

/// Whether an operator that speaks of some path where it is true does so on the sign, or one of every path.
fn is_some_there(some: bool, plus: bool) -> bool
    ensures { result ≡ same_sign some plus }
{
    if some { plus } else { !plus }
}

/// Adds the entry of a sign of a node. `some` says whether the operator speaks of some path where it is true.
fn add_entry<S: StateSets>(
    alloc: Global,
    sets: &mut S,
    fair: &Pin,
    node: &NodeRun,
    number: u32,
    some: bool,
    plus: bool,
    entries: &mut Vec<Entry<Pin>>,
) -> Result<(), SetRefusal>
    requires fair { IsLive (S.seen sets.old) fair.now.slot }
    requires node { AreLive (S.seen sets.old) (node_slots node.now) }
    ensures { AddsEntries (S.seen sets.old) (S.seen sets.new) (sign_entry (S.seen sets.old) fair.now
        node.now number some plus ∷ []) entries.old.items entries.new.items result }
{
    let rule = node_rule(alloc, sets, fair, node, is_some_there(some, plus), plus)?;
    match entries.push(Entry {
        node: number,
        plus,
        rule,
    }) {
        Ok(()) => Ok(()),
        Err(failed) => {
            let AllocFailed { value } = failed;
            value.release(sets);
            Err(SetRefusal::Memory)
        }
    }
}

/// The same where it is wanted. Nodes are counted from 1.
fn add_if<S: StateSets>(
    alloc: Global,
    sets: &mut S,
    fair: &Pin,
    nodes: &[NodeRun],
    number: u32,
    some: bool,
    plus: bool,
    wanted: bool,
    entries: &mut Vec<Entry<Pin>>,
) -> Result<(), SetRefusal>
    requires fair { IsLive (S.seen sets.old) fair.now.slot }
    requires nodes { AreLive (S.seen sets.old) (nodes_slots nodes.now) }
    requires first { 1 ≤ number }
    requires there { number ≤ length nodes.now }
    ensures { AddsEntries (S.seen sets.old) (S.seen sets.new) (if wanted then entry_at
        (region (S.seen sets.old) fair.now) (node_of (S.seen sets.old) nodes.now) number some plus
        ∷ [] else []) entries.old.items entries.new.items result }
{
    if wanted {
        let node = &nodes[number as usize - 1];
        add_entry(alloc, sets, fair, node, number, some, plus, entries)
    } else {
        Ok(())
    }
}

/// Adds the entries of a temporal node.
fn add_own<S: StateSets>(
    alloc: Global,
    sets: &mut S,
    fair: &Pin,
    nodes: &[NodeRun],
    number: u32,
    some: bool,
    signs: Signs,
    entries: &mut Vec<Entry<Pin>>,
) -> Result<(), SetRefusal>
    requires fair { IsLive (S.seen sets.old) fair.now.slot }
    requires nodes { AreLive (S.seen sets.old) (nodes_slots nodes.now) }
    requires first { 1 ≤ number }
    requires there { number ≤ length nodes.now }
    ensures { AddsEntries (S.seen sets.old) (S.seen sets.new) (own_entries
        (region (S.seen sets.old) fair.now) (node_of (S.seen sets.old) nodes.now) number some
        signs.plus signs.minus) entries.old.items entries.new.items result }
{
    add_if(
        alloc, sets, fair, nodes, number, some, true, signs.plus, entries,
    )?;
    add_if(
        alloc,
        sets,
        fair,
        nodes,
        number,
        some,
        false,
        signs.minus,
        entries,
    )
}

/// Adds the entries of a node of the kind.
fn add_node<S: StateSets>(
    alloc: Global,
    sets: &mut S,
    fair: &Pin,
    nodes: &[NodeRun],
    number: u32,
    kind: Kind,
    signs: Signs,
    entries: &mut Vec<Entry<Pin>>,
) -> Result<(), SetRefusal>
    requires fair { IsLive (S.seen sets.old) fair.now.slot }
    requires nodes { AreLive (S.seen sets.old) (nodes_slots nodes.now) }
    requires first { 1 ≤ number }
    requires there { number ≤ length nodes.now }
    ensures { AddsEntries (S.seen sets.old) (S.seen sets.new) (kind_entries
        (region (S.seen sets.old) fair.now) (node_of (S.seen sets.old) nodes.now) number kind
        signs.plus signs.minus) entries.old.items entries.new.items result }
{
    match kind {
        Kind::Connected(_) => Ok(()),
        Kind::Quantified(_) => {
            let some = is_true_there(kind);
            add_own(alloc, sets, fair, nodes, number, some, signs, entries)
        }
        Kind::Between(all) => add_own(alloc, sets, fair, nodes, number, !all, signs, entries),
    }
}

/// Adds the entries of the formula whose first node has the number, and gives the number after that of its last node.
fn add_from<S: StateSets>(
    alloc: Global,
    sets: &mut S,
    fair: &Pin,
    nodes: &[NodeRun],
    number: u32,
    formula: &Formula,
    signs: Signs,
    entries: &mut Vec<Entry<Pin>>,
) -> Result<u32, SetRefusal>
    requires fair { IsLive (S.seen sets.old) fair.now.slot }
    requires nodes { AreLive (S.seen sets.old) (nodes_slots nodes.now) }
    requires first { 1 ≤ number }
    requires there { number + node_count (ctl_of formula.now) ≤ length nodes.now + 1 }
    requires few { length nodes.now < 4294967295 }
    ensures added { AddsEntries (S.seen sets.old) (S.seen sets.new) (wanted_of (S.seen sets.old)
        fair.now nodes.now (ctl_of formula.now) number signs.plus signs.minus) entries.old.items
        entries.new.items result }
    ensures next { IfOk result (λ next. next ≡ number + node_count (ctl_of formula.now)) }
{
    match shape_of(formula) {
        Shape::Leaf(_) => Ok(number + 1),
        Shape::One(kind, f) => {
            add_node(alloc, sets, fair, nodes, number, kind, signs, entries)?;
            let signs = signs.of_first(kind);
            add_from(alloc, sets, fair, nodes, number + 1, f, signs, entries)
        }
        Shape::Two(kind, f, g) => {
            add_node(alloc, sets, fair, nodes, number, kind, signs, entries)?;
            let first = signs.of_first(kind);
            let next = add_from(alloc, sets, fair, nodes, number + 1, f, first, entries)?;
            let last = signs.of_last(kind);
            add_from(alloc, sets, fair, nodes, next, g, last, entries)
        }
    }
}

/// Adds what is written for the signs that are wanted of a formula's nodes. The nodes are the formula's, in preorder. On
/// a refusal the entries that were added are in the list.
pub fn add_entries<S: StateSets>(
    alloc: Global,
    sets: &mut S,
    fair: &Pin,
    nodes: &[NodeRun],
    formula: &Formula,
    plus: bool,
    minus: bool,
    entries: &mut Vec<Entry<Pin>>,
) -> Result<(), SetRefusal>
    requires fair { IsLive (S.seen sets.old) fair.now.slot }
    requires nodes { AreLive (S.seen sets.old) (nodes_slots nodes.now) }
    requires count { length nodes.now ≡ node_count (ctl_of formula.now) }
    requires few { length nodes.now < 4294967295 }
    ensures { AddsEntries (S.seen sets.old) (S.seen sets.new) (wanted_of (S.seen sets.old) fair.now
        nodes.now (ctl_of formula.now) 1 plus minus) entries.old.items entries.new.items result }
{
    match add_from(
        alloc,
        sets,
        fair,
        nodes,
        1,
        formula,
        Signs { plus, minus },
        entries,
    ) {
        Ok(_) => Ok(()),
        Err(refusal) => Err(refusal),
    }
}

/// What is written for the signs that are wanted of a formula's nodes, which are in preorder.
pub fn all_entries<S: StateSets>(
    alloc: Global,
    sets: &mut S,
    fair: &Pin,
    nodes: &[NodeRun],
    formula: &Formula,
    plus: bool,
    minus: bool,
) -> Result<Vec<Entry<Pin>>, SetRefusal>
    requires fair { IsLive (S.seen sets.old) fair.now.slot }
    requires nodes { AreLive (S.seen sets.old) (nodes_slots nodes.now) }
    requires count { length nodes.now ≡ node_count (ctl_of formula.now) }
    requires few { length nodes.now < 4294967295 }
    ensures { IsMade entries_own entries_seen (total entry_size) (S.seen sets.old) (S.seen sets.new)
        (wanted_of (S.seen sets.old) fair.now nodes.now (ctl_of formula.now) 1 plus minus) result }
{
    let mut entries = Vec::new(alloc);
    match add_entries(alloc, sets, fair, nodes, formula, plus, minus, &mut entries) {
        Ok(()) => Ok(entries),
        Err(refusal) => {
            release_entries(sets, entries);
            Err(refusal)
        }
    }
}
