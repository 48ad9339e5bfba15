//! Whether paths denote something, and whether their indexes have values within the bounds.

ghost use Rattle.std.specs.Prelude.{◌≡◌, ℕ, ◌≤◌, ◌||◌, List, All, IfOk, IfSome, IfNone, OnOk, IfErr, MatchOption, MatchResult, Some, length, map, not, pos, reverse, take, ◌⊎◌};
ghost use Rattle.kripke_model.specs.Refusing.{Silent, first_of};
ghost use Rattle.smv_instances.specs.Program.{Program as Plain};
ghost use Rattle.smv_instances.specs.Plain.{plain_type};
ghost use Rattle.smv_instances.specs.Instances.{Scope, all_entries};
ghost use Rattle.smv_instances.specs.Declarations.{one_if};
ghost use Rattle.smv_instances.specs.Numbered.{scope_at};
ghost use Rattle.smv_instances.specs.Answers.{Refused};
ghost use Rattle.smv_names.specs.Denotes as denotes;
ghost use Rattle.smv_names.specs.Expands.{AreIndexes, is_array};
ghost use Rattle.smv_names.specs.Abbreviations.{bad_index, is_value, path_rows, unknown_path};
ghost use Rattle.smv_names.specs.Mentions.{plain_mention};
ghost use Rattle.smv_names.specs.Written.{is_index, plain_path};
ghost use Rattle.smv_names.specs.Targets.{AreBrackets, IsBracket, IsTarget};
ghost use Rattle.smv_names.specs.Ready.{AreTargets, HasTargets};
ghost use Rattle.smv_names.specs.Known.{AreIndexedBy, AreNumbers, IndexedBy, IsIndexValue, IsKnown, KnownBy, SomeBad, brackets_of, index_count};
ghost use Rattle.smv_names.specs.Sound.{AreSound, HasIndexes};
ghost use Rattle.smv_names.specs.Asking.{CanAsk, CanIndex};

use crate::mentions::Mention;
use crate::numbers::number;
use crate::resolving::Targets;
use crate::targets::{Bracket, Target};
use kripke_model::refusals::FlatRefusal;
use smv_instances::Instances;
use smv_parser::{Path, PathPart, Plain as Type, PlainKind};
use std::alloc::{AllocError, Global};

// ---- what a path denotes

/// Whether the type is no array.
fn is_plain(plain: &Type) -> bool
    ensures { result ≡ not (is_array (plain_type plain.now)) }
{
    match &plain.kind {
        PlainKind::Boolean | PlainKind::Enumeration(_) | PlainKind::Range(_, _) => true,
        PlainKind::Array(_, _, _) => false,
    }
}

/// Whether the target has a value.
fn has_value(target: &Target<'_>) -> bool
    ensures { (p : Plain) (t : denotes.Target) → IsTarget p target.now t → result ≡ is_value t }
{
    match target {
        Target::Stored { plain, .. } => is_plain(*plain),
        Target::Reading { .. } => true,
        Target::Instance(_) => false,
        Target::Constant(_) => true,
    }
}

/// Whether a path to the target suits where a value may be wanted.
fn suits(target: &Target<'_>, wanted: bool) -> bool
    ensures { (p : Plain) (t : denotes.Target) → IsTarget p target.now t
        → result ≡ (not wanted || is_value t) }
{
    !wanted || has_value(target)
}

/// Whether the path denotes something suitable.
fn is_known<'p>(
    alloc: Global,
    instances: &Instances<'p>,
    targets: &Targets<'p>,
    i: usize,
    mention: &Mention<'p>,
) -> Result<bool, AllocError>
    requires { HasTargets instances.now targets.now i }
    ensures { (p : Plain) (s : Scope) → AreTargets p instances.now targets.now
        → scope_at p i ≡ Some s → IfOk result (KnownBy p s (plain_mention mention.now)) }
{
    match targets.resolve(alloc, instances, i, mention.path)? {
        Some(target) => Ok(suits(&target, mention.wanted)),
        None => Ok(false),
    }
}

/// Refuses the first path that denotes nothing suitable.
fn check_known<'p>(
    alloc: Global,
    instances: &Instances<'p>,
    targets: &Targets<'p>,
    i: usize,
    mentions: &[Mention<'p>],
) -> Result<(), FlatRefusal>
    requires { HasTargets instances.now targets.now i }
    ensures { (p : Plain) (s : Scope) → AreTargets p instances.now targets.now
        → scope_at p i ≡ Some s
        → MatchResult result (λ _. All (IsKnown p s) (map plain_mention mentions.now))
        (Refused (first_of (map plain_mention mentions.now) (unknown_path p s))) }
{
    for mention in mentions {
        if !is_known(alloc, instances, targets, i, mention)? {
            return Err(FlatRefusal::UnknownName {
                line: mention.path.line,
            });
        }
    }
    Ok(())
}

// ---- indexes

/// The number, if it lies within the bounds.
fn within(n: i64, low: u32, high: u32) -> Option<u32>
    ensures some { IfSome result (λ k. (n ≡ pos k) × (low ≤ k) × (k ≤ high)) }
    ensures none { IfNone result ((k : ℕ) → n ≡ pos k → low ≤ k → k ≤ high → ⊥) }
{
    match u32::try_from(n) {
        Ok(k) => { if low <= k && k <= high { Some(k) } else { None } }
        Err(_) => None,
    }
}

/// The value of an index, if it has one within its bounds.
fn index_value<'p>(
    alloc: Global,
    instances: &Instances<'p>,
    targets: &Targets<'p>,
    numbers: &[Option<i64>],
    bracket: &Bracket<'p>,
) -> Result<Option<u32>, AllocError>
    requires { CanAsk instances.now targets.now (length numbers.now) bracket.now.scope }
    ensures { (p : Plain) (b : denotes.Bracket) → AreTargets p instances.now targets.now
        → AreNumbers p numbers.now → IsBracket p bracket.now b → IfOk result (IsIndexValue p b) }
{
    match number(
        alloc,
        instances,
        targets,
        numbers,
        bracket.scope,
        bracket.index,
    )? {
        Some(n) => Ok(within(n, bracket.low, bracket.high)),
        None => Ok(None),
    }
}

/// The values of indexes, the first one first, or `None` where one has no value within its bounds.
pub fn index_values<'p>(
    alloc: Global,
    instances: &Instances<'p>,
    targets: &Targets<'p>,
    numbers: &[Option<i64>],
    indexes: &[Bracket<'p>],
) -> Result<Option<Vec<u32>>, AllocError>
    requires { CanIndex instances.now targets.now (length numbers.now) indexes.now }
    ensures { (p : Plain) (bs : List denotes.Bracket) → AreTargets p instances.now targets.now
        → AreNumbers p numbers.now → AreBrackets p indexes.now bs
        → IfOk result (λ o. MatchOption o (SomeBad p bs) (λ v. AreIndexes p bs (reverse v.items))) }
{
    let mut values = Vec::new(alloc);
    for bracket in indexes {
        let Some(value) = index_value(alloc, instances, targets, numbers, bracket)? else {
            return Ok(None);
        };
        values.push(value)?;
    }
    Ok(Some(values))
}

/// How many indexes the part has.
fn indexes_in(part: &PathPart) -> usize
    ensures is { result ≡ one_if (is_index part.now) }
    ensures most { result ≤ 1 }
{
    match part {
        PathPart::Field(_) => 0,
        PathPart::Index(_) => 1,
    }
}

/// How many indexes are written in the path.
fn written_indexes(path: &Path) -> usize
    ensures { result ≡ index_count (plain_path path.now) }
{
    let mut count: usize = 0;
    for part in &path.parts {
        count += indexes_in(part);
    }
    count
}

/// Whether the last indexes, so many, have values within their bounds.
fn last_are_indexed<'p>(
    alloc: Global,
    instances: &Instances<'p>,
    targets: &Targets<'p>,
    numbers: &[Option<i64>],
    indexes: &[Bracket<'p>],
    count: usize,
) -> Result<bool, AllocError>
    requires some { count ≤ length indexes.now }
    requires ask { CanIndex instances.now targets.now (length numbers.now) indexes.now }
    ensures { (p : Plain) (bs : List denotes.Bracket) → AreTargets p instances.now targets.now
        → AreNumbers p numbers.now → AreBrackets p indexes.now bs
        → IfOk result (AreIndexedBy p (take count bs)) }
{
    let first = indexes.len() - count;
    match index_values(alloc, instances, targets, numbers, &indexes[first..])? {
        Some(_) => Ok(true),
        None => Ok(false),
    }
}

/// Whether the last indexes of what a path denotes, so many, have values within their bounds.
fn target_is_indexed<'p>(
    alloc: Global,
    instances: &Instances<'p>,
    targets: &Targets<'p>,
    numbers: &[Option<i64>],
    target: &Target<'p>,
    count: usize,
) -> Result<bool, AllocError>
    requires { (p : Plain) × (t : denotes.Target) × AreTargets p instances.now targets.now
        × (length numbers.now ≡ length (all_entries p)) × IsTarget p target.now t
        × (count ≤ length (brackets_of t)) }
    ensures { (p : Plain) (t : denotes.Target) → AreTargets p instances.now targets.now
        → AreNumbers p numbers.now → IsTarget p target.now t
        → IfOk result (AreIndexedBy p (take count (brackets_of t))) }
{
    match target {
        Target::Stored { indexes, .. } => {
            last_are_indexed(alloc, instances, targets, numbers, indexes, count)
        }
        Target::Reading { .. } => Ok(true),
        Target::Instance(_) => Ok(true),
        Target::Constant(_) => Ok(true),
    }
}

/// Whether each index of a path that denotes something has a value within its bounds.
fn is_indexed<'p>(
    alloc: Global,
    instances: &Instances<'p>,
    targets: &Targets<'p>,
    numbers: &[Option<i64>],
    i: usize,
    path: &'p Path,
) -> Result<bool, AllocError>
    requires { CanAsk instances.now targets.now (length numbers.now) i }
    ensures { (p : Plain) (s : Scope) (t : denotes.Target) → AreTargets p instances.now targets.now
        → scope_at p i ≡ Some s → AreNumbers p numbers.now
        → denotes.Denotes p s (plain_path path.now) t
        → IfOk result (IndexedBy p s (plain_path path.now)) }
{
    let count = written_indexes(path);
    if count == 0 {
        return Ok(true);
    }
    match targets.resolve(alloc, instances, i, path)? {
        Some(target) => { target_is_indexed(alloc, instances, targets, numbers, &target, count) }
        None => Ok(true),
    }
}

/// Refuses the first path with an index that has no value within its bounds, where all denote something.
fn check_indexes<'p>(
    alloc: Global,
    instances: &Instances<'p>,
    targets: &Targets<'p>,
    numbers: &[Option<i64>],
    i: usize,
    mentions: &[Mention<'p>],
) -> Result<(), FlatRefusal>
    requires { CanAsk instances.now targets.now (length numbers.now) i }
    ensures { (p : Plain) (s : Scope) → AreTargets p instances.now targets.now
        → scope_at p i ≡ Some s → AreNumbers p numbers.now
        → All (IsKnown p s) (map plain_mention mentions.now)
        → MatchResult result
        (λ _. All (λ m. HasIndexes p s m.path) (map plain_mention mentions.now))
        (Refused (first_of (map plain_mention mentions.now) (bad_index p s))) }
{
    for mention in mentions {
        if !is_indexed(alloc, instances, targets, numbers, i, mention.path)? {
            return Err(FlatRefusal::BadIndex {
                line: mention.path.line,
            });
        }
    }
    Ok(())
}

// ---- both

/// Refuses the first path that denotes nothing suitable, then the first with an index without a value
/// within its bounds.
pub fn check_paths<'p>(
    alloc: Global,
    instances: &Instances<'p>,
    targets: &Targets<'p>,
    numbers: &[Option<i64>],
    i: usize,
    mentions: &[Mention<'p>],
) -> Result<(), FlatRefusal>
    requires { CanAsk instances.now targets.now (length numbers.now) i }
    ensures sound { (p : Plain) (s : Scope) → AreTargets p instances.now targets.now
        → scope_at p i ≡ Some s → AreNumbers p numbers.now
        → OnOk result (AreSound p s (map plain_mention mentions.now)) }
    ensures silent { (p : Plain) (s : Scope) → AreTargets p instances.now targets.now
        → scope_at p i ≡ Some s → AreNumbers p numbers.now
        → OnOk result (Silent (path_rows p s (map plain_mention mentions.now))) }
    ensures refused { (p : Plain) (s : Scope) → AreTargets p instances.now targets.now
        → scope_at p i ≡ Some s → AreNumbers p numbers.now
        → IfErr result (λ r. (r ≡ FlatRefusal.Memory)
        ⊎ path_rows p s (map plain_mention mentions.now) r) }
{
    check_known(alloc, instances, targets, i, mentions)?;
    check_indexes(alloc, instances, targets, numbers, i, mentions)
}
