//! What definitions and actual parameters are refused for.

ghost use Rattle.std.specs.Prelude.{◌≡◌, ◌+◌, ◌<◌, ◌⊎◌, Bool, Some, IfErr, MatchResult, OnOk, flat_map, length, map, slice_get};
ghost use Rattle.kripke_model.specs.Refusing.{Silent, first_of};
ghost use Rattle.smv_instances.specs.Program.{Name, Program as Plain};
ghost use Rattle.smv_instances.specs.Plain.{plain_expr};
ghost use Rattle.smv_instances.specs.Entries.{Entity as Stood, Entry as Line, entries};
ghost use Rattle.smv_instances.specs.Instances.{Scope, all_entries, child, instances as all_instances, module_of};
ghost use Rattle.smv_instances.specs.Numbered.{scope_at};
ghost use Rattle.smv_instances.specs.Answers.{Refused};
ghost use Rattle.smv_instances.specs.Built.{AreInstances, HasInstance};
ghost use Rattle.smv_names.specs.Abbreviations.{actual_mentions, definition, mentions as mentions_of, path_rows};
ghost use Rattle.smv_names.specs.Nodes.{AreNodes, entries_before};
ghost use Rattle.smv_names.specs.Ordered.{AreOrdered};
ghost use Rattle.smv_names.specs.Ready.{AreTargets};
ghost use Rattle.smv_names.specs.Known.{AreNumbers};
ghost use Rattle.smv_names.specs.Sound.{AreDefined, AreSound};
ghost use Rattle.smv_names.specs.Asking.{CanAsk};
ghost use Rattle.smv_names.specs.Definitions.{AreDefinedUpTo, AreReady, HasCircles, HasCircularBy, HasPlace, IsCircularBy, IsDefined};

use crate::checks::check_paths;
use crate::mentions::{Mention, push_actuals, push_mentions};
use crate::resolving::Targets;
use graph_order::Order;
use kripke_model::refusals::FlatRefusal;
use smv_instances::{Entity, Found, Instances};
use smv_parser::Expr;
use std::alloc::Global;

// ---- circular abbreviations

/// Whether the name of an entry of the instance i is circular.
fn is_circular(targets: &Targets<'_>, order: &Order, i: usize, k: usize) -> bool
    requires { (p : Plain) × (s : Scope) × (e : Line) × AreNodes p targets.now.nodes
        × AreOrdered p order.now.order.items order.now.circular.items × (scope_at p i ≡ Some s)
        × (slice_get (entries (module_of s)) k ≡ Some e) }
    ensures { (p : Plain) (s : Scope) (e : Line) → AreNodes p targets.now.nodes
        → AreOrdered p order.now.order.items order.now.circular.items → scope_at p i ≡ Some s
        → slice_get (entries (module_of s)) k ≡ Some e → IsCircularBy p s e.name result }
{
    let node = targets.nodes.node(i, k);
    order.circular[node]
}

/// How many formal parameters the instance has.
fn formal_count(instances: &Instances<'_>, number: usize) -> usize
    requires { HasInstance instances.now number }
    ensures { (p : Plain) (c : Scope) → AreInstances p instances.now → scope_at p number ≡ Some c
        → result ≡ length (module_of c).formals }
{
    instances.module(number).formals.len()
}

/// Whether a formal parameter of the instance is circular.
fn has_circular(
    instances: &Instances<'_>,
    targets: &Targets<'_>,
    order: &Order,
    number: usize,
) -> bool
    requires { HasCircles instances.now targets.now order.now number }
    ensures { (p : Plain) (c : Scope) → AreTargets p instances.now targets.now
        → AreOrdered p order.now.order.items order.now.circular.items → scope_at p number ≡ Some c
        → HasCircularBy p c result }
{
    for place in 0..formal_count(instances, number) {
        if is_circular(targets, order, number, place) {
            return true;
        }
    }
    false
}

/// Whether a formal parameter of the instance that an entry declares is circular.
fn declares_circular(
    instances: &Instances<'_>,
    targets: &Targets<'_>,
    order: &Order,
    i: usize,
    k: usize,
) -> bool
    requires { (p : Plain) × (s : Scope) × (e : Line) × AreTargets p instances.now targets.now
        × AreOrdered p order.now.order.items order.now.circular.items × (scope_at p i ≡ Some s)
        × (slice_get (entries (module_of s)) k ≡ Some e) }
    ensures { (p : Plain) (s : Scope) (e : Line) (c : Scope)
        → AreTargets p instances.now targets.now
        → AreOrdered p order.now.order.items order.now.circular.items → scope_at p i ≡ Some s
        → slice_get (entries (module_of s)) k ≡ Some e → child p s e ≡ Some c
        → HasCircularBy p c result }
{
    match instances.found_at(i, k) {
        Found::Instance(number) => has_circular(instances, targets, order, number),
        Found::Parameter(_) => false,
        Found::Stored(_) => false,
        Found::Defined(_) => false,
    }
}

// ---- one entry

/// Refuses the first path of an expression, read in the instance i, for what paths are refused for.
fn check_right<'p>(
    alloc: Global,
    instances: &Instances<'p>,
    targets: &Targets<'p>,
    numbers: &[Option<i64>],
    i: usize,
    right: &'p Expr,
    mentions: &mut Vec<Mention<'p>>,
) -> Result<(), FlatRefusal>
    requires { CanAsk instances.now targets.now (length numbers.now) i }
    ensures { (p : Plain) (s : Scope) → AreTargets p instances.now targets.now
        → scope_at p i ≡ Some s → AreNumbers p numbers.now
        → MatchResult result (λ _. AreSound p s (mentions_of (plain_expr right.now)))
        (Refused (path_rows p s (mentions_of (plain_expr right.now)))) }
{
    mentions.clear();
    push_mentions(right, mentions)?;
    check_paths(alloc, instances, targets, numbers, i, mentions)
}

/// The same for actual parameters.
fn check_actuals<'p>(
    alloc: Global,
    instances: &Instances<'p>,
    targets: &Targets<'p>,
    numbers: &[Option<i64>],
    i: usize,
    actuals: &'p [Expr],
    mentions: &mut Vec<Mention<'p>>,
) -> Result<(), FlatRefusal>
    requires { CanAsk instances.now targets.now (length numbers.now) i }
    ensures { (p : Plain) (s : Scope) → AreTargets p instances.now targets.now
        → scope_at p i ≡ Some s → AreNumbers p numbers.now
        → MatchResult result
        (λ _. AreSound p s (flat_map actual_mentions (map plain_expr actuals.now)))
        (Refused (path_rows p s (flat_map actual_mentions (map plain_expr actuals.now)))) }
{
    mentions.clear();
    push_actuals(actuals, mentions)?;
    check_paths(alloc, instances, targets, numbers, i, mentions)
}

/// Refuses a defined symbol that is circular, then its paths.
fn check_defined<'p>(
    alloc: Global,
    instances: &Instances<'p>,
    targets: &Targets<'p>,
    order: &Order,
    numbers: &[Option<i64>],
    i: usize,
    k: usize,
    line: u32,
    right: &'p Expr,
    mentions: &mut Vec<Mention<'p>>,
) -> Result<(), FlatRefusal>
    requires { HasPlace instances.now targets.now order.now numbers.now i k }
    ensures { (p : Plain) (s : Scope) (e : Line)
        → AreReady p instances.now targets.now order.now numbers.now → scope_at p i ≡ Some s
        → slice_get (entries (module_of s)) k ≡ Some e → e.line ≡ line
        → e.entity ≡ Stood.Defined (plain_expr right.now)
        → MatchResult result (λ _. IsDefined p s e e.entity) (Refused (definition p (s, e))) }
{
    if is_circular(targets, order, i, k) {
        return Err(FlatRefusal::CircularDefine { line });
    }
    check_right(alloc, instances, targets, numbers, i, right, mentions)
}

/// Refuses the declaration of an instance with a circular formal parameter, then the paths of its actual
/// parameters.
fn check_declared<'p>(
    alloc: Global,
    instances: &Instances<'p>,
    targets: &Targets<'p>,
    order: &Order,
    numbers: &[Option<i64>],
    i: usize,
    k: usize,
    line: u32,
    actuals: &'p [Expr],
    mentions: &mut Vec<Mention<'p>>,
) -> Result<(), FlatRefusal>
    requires { HasPlace instances.now targets.now order.now numbers.now i k }
    ensures { (p : Plain) (s : Scope) (e : Line) (process : Bool) (module_name : Name)
        → AreReady p instances.now targets.now order.now numbers.now → scope_at p i ≡ Some s
        → slice_get (entries (module_of s)) k ≡ Some e → e.line ≡ line
        → e.entity ≡ Stood.Instance process module_name (map plain_expr actuals.now)
        → MatchResult result (λ _. IsDefined p s e e.entity) (Refused (definition p (s, e))) }
{
    if declares_circular(instances, targets, order, i, k) {
        return Err(FlatRefusal::CircularDefine { line });
    }
    check_actuals(alloc, instances, targets, numbers, i, actuals, mentions)
}

/// Refuses an entry of the instance i.
fn check_entry<'p>(
    alloc: Global,
    instances: &Instances<'p>,
    targets: &Targets<'p>,
    order: &Order,
    numbers: &[Option<i64>],
    i: usize,
    k: usize,
    mentions: &mut Vec<Mention<'p>>,
) -> Result<(), FlatRefusal>
    requires { HasPlace instances.now targets.now order.now numbers.now i k }
    ensures { (p : Plain) (s : Scope) (e : Line)
        → AreReady p instances.now targets.now order.now numbers.now → scope_at p i ≡ Some s
        → slice_get (entries (module_of s)) k ≡ Some e
        → MatchResult result (λ _. IsDefined p s e e.entity) (Refused (definition p (s, e))) }
{
    let entry = &instances.entries(i)[k];
    let line = entry.line;
    match entry.entity {
        Entity::Defined(right) => {
            check_defined(
                alloc, instances, targets, order, numbers, i, k, line, right, mentions,
            )
        }
        Entity::Instance { actuals, .. } => {
            check_declared(
                alloc, instances, targets, order, numbers, i, k, line, actuals, mentions,
            )
        }
        Entity::Parameter => Ok(()),
        Entity::Stored(_) => Ok(()),
    }
}

// ---- all entries

/// How many entries the module of the instance has.
fn entry_count(instances: &Instances<'_>, i: usize) -> usize
    requires { HasInstance instances.now i }
    ensures { (p : Plain) (s : Scope) → AreInstances p instances.now → scope_at p i ≡ Some s
        → result ≡ length (entries (module_of s)) }
{
    instances.entries(i).len()
}

/// Refuses the first entry of the instance i.
fn check_body<'p>(
    alloc: Global,
    instances: &Instances<'p>,
    targets: &Targets<'p>,
    order: &Order,
    numbers: &[Option<i64>],
    i: usize,
    mentions: &mut Vec<Mention<'p>>,
) -> Result<(), FlatRefusal>
    requires { (p : Plain) × AreReady p instances.now targets.now order.now numbers.now
        × (i < length (all_instances p)) }
    ensures { (p : Plain) → AreReady p instances.now targets.now order.now numbers.now
        → AreDefinedUpTo p (entries_before p i)
        → MatchResult result (λ _. AreDefinedUpTo p (entries_before p (i + 1)))
        (Refused (first_of (all_entries p) (definition p))) }
{
    for k in 0..entry_count(instances, i) {
        check_entry(alloc, instances, targets, order, numbers, i, k, mentions)?;
    }
    Ok(())
}

/// Refuses the first definition or declaration that is circular or has a path that is refused.
pub fn check_definitions<'p>(
    alloc: Global,
    instances: &Instances<'p>,
    targets: &Targets<'p>,
    order: &Order,
    numbers: &[Option<i64>],
) -> Result<(), FlatRefusal>
    requires { (p : Plain) × AreReady p instances.now targets.now order.now numbers.now }
    ensures silent { (p : Plain) → AreReady p instances.now targets.now order.now numbers.now
        → OnOk result (Silent (first_of (all_entries p) (definition p))) }
    ensures defined { (p : Plain) → AreReady p instances.now targets.now order.now numbers.now
        → OnOk result (AreDefined p) }
    ensures refused { (p : Plain) → AreReady p instances.now targets.now order.now numbers.now
        → IfErr result (λ r. (r ≡ FlatRefusal.Memory) ⊎ first_of (all_entries p) (definition p) r) }
{
    let mut mentions = Vec::new(alloc);
    for i in 0..instances.len() {
        check_body(alloc, instances, targets, order, numbers, i, &mut mentions)?;
    }
    Ok(())
}
