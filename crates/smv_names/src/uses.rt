//! The order in which abbreviations can be worked off, and those that are circular.

ghost use Rattle.std.specs.Prelude.{◌≡◌, ◌++◌, ◌∷◌, ◌+◌, ◌<◌, [], List, Some, None, IfOk, OnOk, length, map, slice_get};
ghost use Rattle.smv_instances.specs.Program.{Path as Written, Program as Plain};
ghost use Rattle.smv_instances.specs.Plain.{plain_expr};
ghost use Rattle.smv_instances.specs.Entries.{Entry, entries};
ghost use Rattle.smv_instances.specs.Instances.{Scope, all_entries, module_of};
ghost use Rattle.smv_instances.specs.Numbered.{scope_at};
ghost use Rattle.smv_names.specs.Abbreviations.{Mention as PlainMention, mentions as mentions_of};
ghost use Rattle.smv_names.specs.Mentions.{first_mention, plain_mention};
ghost use Rattle.smv_names.specs.Written.{extended};
ghost use Rattle.graph_order.specs.Graphs.{IsGraph, IsStarted};
ghost use Rattle.smv_names.specs.Nodes.{entries_before};
ghost use Rattle.smv_names.specs.Passed.{Walking};
ghost use Rattle.smv_names.specs.Ready.{AreTargets, HasTargets, NamesNode};
ghost use Rattle.smv_names.specs.Ordered.{AreOrdered};
ghost use Rattle.smv_names.specs.Uses.{AreNamed, AreUsed, AreUses, IsPushed};

use crate::mentions::{Mention, push_mentions};
use crate::resolving::Targets;
use crate::texts::text_at_entry;
use crate::walk::{Outcome, entry_node, first, follow, instance_number};
use graph_order::{Graph, Order, order_of};
use smv_instances::Instances;
use smv_parser::{Expr, PathPart};
use std::alloc::{AllocError, Global};

/// The number of the abbreviation that a path names which ends in the part, behind a front of which
/// it is known what it denotes.
fn named_next(
    instances: &Instances<'_>,
    targets: &Targets<'_>,
    front: &Outcome<'_>,
    part: &PathPart,
) -> Option<usize>
    requires { (p : Plain) × (s : Scope) × (q : Written) × AreTargets p instances.now targets.now
        × Walking p targets.now.states s q front.now }
    ensures { (p : Plain) (s : Scope) (q : Written) → AreTargets p instances.now targets.now
        → Walking p targets.now.states s q front.now → NamesNode p s (extended q part.now) result }
{
    let PathPart::Field(name) = part else {
        return None;
    };
    let Outcome::Found(target) = front else {
        return None;
    };
    match instance_number(target) {
        Some(number) => entry_node(instances, targets, number, name),
        None => None,
    }
}

fn push_number(number: Option<usize>, numbers: &mut Vec<usize>) -> Result<(), AllocError>
    ensures { OnOk result (IsPushed number numbers.old.items numbers.new.items) }
{
    if let Some(n) = number {
        numbers.push(n)?;
    }
    Ok(())
}

/// Adds the numbers of the abbreviations that the fronts of a path with more than one part name, and
/// that the path itself names. It goes along the path once.
fn push_longer<'p>(
    alloc: Global,
    instances: &Instances<'p>,
    targets: &Targets<'p>,
    i: usize,
    mention: &Mention<'p>,
    numbers: &mut Vec<usize>,
) -> Result<(), AllocError>
    requires { HasTargets instances.now targets.now i }
    ensures { (p : Plain) (s : Scope) (ms : List PlainMention)
        → AreTargets p instances.now targets.now → scope_at p i ≡ Some s
        → AreNamed p s (ms ++ first_mention mention.now ∷ []) numbers.old.items
        → OnOk result (AreNamed p s (ms ++ plain_mention mention.now ∷ []) numbers.new.items) }
{
    let path = mention.path;
    let mut front = first(alloc, instances, targets, i, &path.first)?;
    for part in &path.parts {
        push_number(named_next(instances, targets, &front, part), numbers)?;
        front = follow(alloc, instances, targets, i, front, part)?;
    }
    Ok(())
}

/// Adds the numbers of the abbreviations that a path and its fronts name.
fn push_fronts<'p>(
    alloc: Global,
    instances: &Instances<'p>,
    targets: &Targets<'p>,
    i: usize,
    mention: &Mention<'p>,
    numbers: &mut Vec<usize>,
) -> Result<(), AllocError>
    requires { HasTargets instances.now targets.now i }
    ensures { (p : Plain) (s : Scope) (ms : List PlainMention)
        → AreTargets p instances.now targets.now → scope_at p i ≡ Some s
        → AreNamed p s ms numbers.old.items
        → OnOk result (AreNamed p s (ms ++ plain_mention mention.now ∷ []) numbers.new.items) }
{
    let path = mention.path;
    push_number(entry_node(instances, targets, i, &path.first), numbers)?;
    if path.parts.is_empty() {
        return Ok(());
    }
    push_longer(alloc, instances, targets, i, mention, numbers)
}

/// Adds the numbers of the abbreviations that some paths name.
fn push_named<'p>(
    alloc: Global,
    instances: &Instances<'p>,
    targets: &Targets<'p>,
    i: usize,
    mentions: &[Mention<'p>],
    numbers: &mut Vec<usize>,
) -> Result<(), AllocError>
    requires ready { HasTargets instances.now targets.now i }
    requires empty { numbers.old.items ≡ [] }
    ensures { (p : Plain) (s : Scope) → AreTargets p instances.now targets.now
        → scope_at p i ≡ Some s
        → OnOk result (AreNamed p s (map plain_mention mentions.now) numbers.new.items) }
{
    for mention in mentions {
        push_fronts(alloc, instances, targets, i, mention, numbers)?;
    }
    Ok(())
}

/// What is found of one abbreviation, in vectors that are used again for the next one.
#[derive(Drop)]
struct Found<'p> {
    /// The paths of its expression.
    mentions: Vec<Mention<'p>>,
    /// The numbers of the abbreviations that they name.
    numbers: Vec<usize>,
}

/// Finds the numbers of the abbreviations that the paths of an expression name, which is read in the
/// instance i.
fn find_named<'p>(
    alloc: Global,
    instances: &Instances<'p>,
    targets: &Targets<'p>,
    i: usize,
    expr: &'p Expr,
    found: &mut Found<'p>,
) -> Result<(), AllocError>
    requires { HasTargets instances.now targets.now i }
    ensures { (p : Plain) (s : Scope) → AreTargets p instances.now targets.now
        → scope_at p i ≡ Some s
        → OnOk result (AreNamed p s (mentions_of (plain_expr expr.now)) found.new.numbers.items) }
{
    found.mentions.clear();
    push_mentions(expr, &mut found.mentions)?;
    found.numbers.clear();
    push_named(
        alloc,
        instances,
        targets,
        i,
        &found.mentions,
        &mut found.numbers,
    )
}

/// Finds the numbers of the abbreviations that the expression of the one of an entry names.
fn find_used<'p>(
    alloc: Global,
    instances: &Instances<'p>,
    targets: &Targets<'p>,
    i: usize,
    place: usize,
    found: &mut Found<'p>,
) -> Result<(), AllocError>
    requires { (p : Plain) × (s : Scope) × AreTargets p instances.now targets.now
        × (scope_at p i ≡ Some s) × (place < length (entries (module_of s))) }
    ensures { (p : Plain) (s : Scope) (e : Entry) → AreTargets p instances.now targets.now
        → scope_at p i ≡ Some s → slice_get (entries (module_of s)) place ≡ Some e
        → OnOk result (AreUsed p (record { scope = s; name = e.name }) found.new.numbers.items) }
{
    match text_at_entry(instances, i, place) {
        Some((home, right)) => find_named(alloc, instances, targets, home, right, found),
        None => {
            found.numbers.clear();
            Ok(())
        }
    }
}

/// Adds a node with edges to the targets.
fn push_node(graph: &mut Graph, targets: &[usize]) -> Result<(), AllocError>
    requires { IsStarted graph.old.firsts.items graph.old.targets.items }
    ensures started { OnOk result (IsStarted graph.new.firsts.items graph.new.targets.items) }
    ensures firsts { OnOk result (graph.new.firsts.items ≡ graph.old.firsts.items
        ++ length graph.new.targets.items ∷ []) }
    ensures targets { OnOk result (graph.new.targets.items ≡ graph.old.targets.items
        ++ targets.now) }
{
    for target in targets {
        graph.add_edge(*target)?;
    }
    graph.end_node()
}

/// Adds a node for each entry of an instance, with edges to the abbreviations that it uses.
fn push_entries<'p>(
    alloc: Global,
    instances: &Instances<'p>,
    targets: &Targets<'p>,
    i: usize,
    found: &mut Found<'p>,
    graph: &mut Graph,
) -> Result<(), AllocError>
    requires ready { HasTargets instances.now targets.now i }
    requires started { IsStarted graph.old.firsts.items graph.old.targets.items }
    ensures started { OnOk result (IsStarted graph.new.firsts.items graph.new.targets.items) }
    ensures uses { (p : Plain) → AreTargets p instances.now targets.now
        → AreUses p graph.old.firsts.items graph.old.targets.items (entries_before p i)
        → OnOk result (AreUses p graph.new.firsts.items graph.new.targets.items
        (entries_before p (i + 1))) }
{
    for place in 0..instances.entries(i).len() {
        find_used(alloc, instances, targets, i, place, found)?;
        push_node(graph, &found.numbers)?;
    }
    Ok(())
}

/// The graph of uses: a node for each number of an abbreviation, and edges to those that its
/// expression names.
fn graph_of<'p>(
    alloc: Global,
    instances: &Instances<'p>,
    targets: &Targets<'p>,
) -> Result<Graph, AllocError>
    requires { (p : Plain) × AreTargets p instances.now targets.now }
    ensures graph { (p : Plain) → AreTargets p instances.now targets.now
        → IfOk result (λ g. IsGraph g.firsts.items g.targets.items) }
    ensures uses { (p : Plain) → AreTargets p instances.now targets.now
        → IfOk result (λ g. AreUses p g.firsts.items g.targets.items (length (all_entries p))) }
{
    let mut graph = Graph::new(alloc)?;
    let mut found = Found {
        mentions: Vec::new(alloc),
        numbers: Vec::new(alloc),
    };
    for i in 0..instances.len() {
        push_entries(alloc, instances, targets, i, &mut found, &mut graph)?;
    }
    Ok(graph)
}

/// An order in which the abbreviations can be worked off, and which of them are circular.
pub fn order_of_uses<'p>(
    alloc: Global,
    instances: &Instances<'p>,
    targets: &Targets<'p>,
) -> Result<Order, AllocError>
    requires { (p : Plain) × AreTargets p instances.now targets.now }
    ensures { (p : Plain) → AreTargets p instances.now targets.now
        → IfOk result (λ o. AreOrdered p o.order.items o.circular.items) }
{
    let graph = graph_of(alloc, instances, targets)?;
    order_of(alloc, &graph)
}
