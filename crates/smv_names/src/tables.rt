//! Tables over all abbreviations: their numbers, their sizes, and the ends of their chains. They are
//! filled in one pass, in an order in which an abbreviation stands after those that it uses, so that a
//! text that is a path alone is looked up once.

ghost use Rattle.std.specs.Prelude.{◌≡◌, ◌<◌, IfOk, length, slice_index_or, Some, None, ◌+◌, ℕ, List, OnOk};
ghost use Rattle.smv_instances.specs.Program.{Expr as PlainExpr, Path, Program as Plain};
ghost use Rattle.smv_instances.specs.Plain.{plain_expr};
ghost use Rattle.smv_instances.specs.Instances.{Scope, all_entries};
ghost use Rattle.smv_instances.specs.Numbered.{scope_at};
ghost use Rattle.smv_names.specs.Denotes.{bare};
ghost use Rattle.smv_names.specs.Abbreviations.{Abbreviation, Names, mentions};
ghost use Rattle.smv_names.specs.Nodes.{abbreviation_at};
ghost use Rattle.smv_names.specs.Targets.{IsText};
ghost use Rattle.smv_names.specs.Ready.{AreTargets, NamesNode};
ghost use Rattle.smv_names.specs.Ordered.{AreOrdered};
ghost use Rattle.smv_names.specs.Works.{HasUsed};
ghost use Rattle.smv_names.specs.Asking.{CanAsk};
ghost use Rattle.smv_names.specs.Known.{AreNumbers, AreSizes, NumberOf, SizeOf, leaf, AreNumbersIn, AreSizesIn};
ghost use Rattle.smv_names.specs.Ends.{AreEnds, AreEndsIn, EndOf, IsEndOf, no_end};
ghost use Rattle.smv_names.specs.Filling.{AreFilled, IsRow, RowOf};

use crate::measures::{size, size_named};
use crate::numbers::{number, number_named};
use crate::resolving::Targets;
use crate::sizes::Size;
use crate::texts::text_at;
use crate::walk::{bare_of, path_of};
use graph_order::Order;
use smv_instances::Instances;
use smv_parser::Expr;
use std::alloc::{AllocError, Global};

/// The end of a chain that goes on with an abbreviation, or the one that begins it where that has no
/// text.
fn end_through<'p>(
    instances: &Instances<'p>,
    targets: &Targets<'p>,
    ends: &[usize],
    own: usize,
    node: usize,
) -> usize
    requires { (p : Plain) × AreTargets p instances.now targets.now
        × (length ends.now ≡ length (all_entries p)) × (node < length (all_entries p)) }
    ensures { (p : Plain) (s : Scope) (e : PlainExpr) (q : Path) (a : Abbreviation)
        → AreTargets p instances.now targets.now → IsText p own s e → bare e ≡ PlainExpr.At q
        → Names p s q a → abbreviation_at p node ≡ Some a
        → EndOf p a (slice_index_or ends.now node (no_end p)) → IsEndOf p s e result }
{
    match text_at(instances, targets, node) {
        Some(_) => ends[node],
        None => own,
    }
}

/// The end of the chain that begins with an abbreviation whose text is a path. The path names the
/// abbreviation with this number, or no expression.
fn end_named<'p>(
    instances: &Instances<'p>,
    targets: &Targets<'p>,
    ends: &[usize],
    own: usize,
    named: Option<usize>,
) -> usize
    requires { (p : Plain) × (s : Scope) × (q : Path) × AreTargets p instances.now targets.now
        × (length ends.now ≡ length (all_entries p)) × NamesNode p s q named }
    ensures { (p : Plain) (s : Scope) (e : PlainExpr) (q : Path)
        → AreTargets p instances.now targets.now → IsText p own s e → bare e ≡ PlainExpr.At q
        → NamesNode p s q named → AreEndsIn p ends.now s (mentions e) → IsEndOf p s e result }
{
    match named {
        Some(node) => end_through(instances, targets, ends, own, node),
        None => own,
    }
}

/// The end of the chain that begins with an abbreviation, whose text is read in the instance i.
fn end_of<'p>(
    alloc: Global,
    instances: &Instances<'p>,
    targets: &Targets<'p>,
    ends: &[usize],
    own: usize,
    i: usize,
    text: &'p Expr,
) -> Result<usize, AllocError>
    requires { CanAsk instances.now targets.now (length ends.now) i }
    ensures { (p : Plain) (s : Scope) → AreTargets p instances.now targets.now
        → scope_at p i ≡ Some s → IsText p own s (plain_expr text.now)
        → AreEndsIn p ends.now s (mentions (plain_expr text.now))
        → IfOk result (IsEndOf p s (plain_expr text.now)) }
{
    let Some(path) = path_of(bare_of(text)) else {
        return Ok(own);
    };
    let named = targets.named(alloc, instances, i, path)?;
    Ok(end_named(instances, targets, ends, own, named))
}

/// The tables, with an entry for each abbreviation.
#[derive(Drop)]
pub struct Tables {
    pub numbers: Vec<Option<i64>>,
    pub sizes: Vec<Size>,
    /// By its number, the abbreviation at which a chain of definitions that are a path alone ends: its
    /// text is no path to a further expression. Where there is none, how many there are.
    pub ends: Vec<usize>,
}

/// What stands in the tables for one abbreviation.
#[derive(Clone, Copy)]
struct Row {
    pub number: Option<i64>,
    pub size: Size,
    pub end: usize,
}

/// The row of an abbreviation from its text, which is read in the instance i.
fn text_row<'p>(
    alloc: Global,
    instances: &Instances<'p>,
    targets: &Targets<'p>,
    numbers: &[Option<i64>],
    sizes: &[Size],
    ends: &[usize],
    own: usize,
    i: usize,
    text: &'p Expr,
) -> Result<Row, AllocError>
    requires numbers { CanAsk instances.now targets.now (length numbers.now) i }
    requires sizes { CanAsk instances.now targets.now (length sizes.now) i }
    requires ends { CanAsk instances.now targets.now (length ends.now) i }
    ensures { (p : Plain) (s : Scope) → AreTargets p instances.now targets.now
        → scope_at p i ≡ Some s → IsText p own s (plain_expr text.now)
        → AreNumbersIn p numbers.now s (mentions (plain_expr text.now))
        → AreSizesIn p sizes.now s (mentions (plain_expr text.now))
        → AreEndsIn p ends.now s (mentions (plain_expr text.now))
        → IfOk result (IsRow p s (plain_expr text.now)) }
{
    match path_of(text) {
        Some(path) => {
            let named = targets.named(alloc, instances, i, path)?;
            Ok(Row {
                number: number_named(numbers, named),
                size: size_named(sizes, named),
                end: end_named(instances, targets, ends, own, named),
            })
        }
        None => Ok(Row {
            number: number(alloc, instances, targets, numbers, i, text)?,
            size: size(alloc, instances, targets, sizes, i, text)?,
            end: end_of(alloc, instances, targets, ends, own, i, text)?,
        }),
    }
}

/// The row of an abbreviation from those of the abbreviations that it uses.
fn row_at<'p>(
    alloc: Global,
    instances: &Instances<'p>,
    targets: &Targets<'p>,
    numbers: &[Option<i64>],
    sizes: &[Size],
    ends: &[usize],
    node: usize,
) -> Result<Row, AllocError>
    requires { (p : Plain) × AreTargets p instances.now targets.now
        × (length numbers.now ≡ length (all_entries p))
        × (length sizes.now ≡ length (all_entries p))
        × (length ends.now ≡ length (all_entries p)) × (node < length (all_entries p)) }
    ensures { (p : Plain) (a : Abbreviation) → AreTargets p instances.now targets.now
        → abbreviation_at p node ≡ Some a → HasUsed None (NumberOf p) p a numbers.now
        → HasUsed leaf (SizeOf p) p a sizes.now → HasUsed (no_end p) (EndOf p) p a ends.now
        → IfOk result (RowOf p a) }
{
    match text_at(instances, targets, node) {
        Some((home, text)) => {
            text_row(
                alloc, instances, targets, numbers, sizes, ends, node, home, text,
            )
        }
        None => Ok(Row {
            number: None,
            size: Size::leaf(),
            end: ends.len(),
        }),
    }
}

/// Fills the row of the abbreviation at a place of the order. A circular one keeps what it has.
fn fill_at<'p>(
    alloc: Global,
    instances: &Instances<'p>,
    targets: &Targets<'p>,
    order: &Order,
    k: usize,
    tables: &mut Tables,
) -> Result<(), AllocError>
    requires { (p : Plain) × AreTargets p instances.now targets.now
        × AreOrdered p order.now.order.items order.now.circular.items
        × AreFilled p order.now.order.items k tables.old × (k < length order.now.order.items) }
    ensures { (p : Plain) → AreTargets p instances.now targets.now
        → AreOrdered p order.now.order.items order.now.circular.items
        → AreFilled p order.now.order.items k tables.old
        → OnOk result (AreFilled p order.now.order.items (k + 1) tables.new) }
{
    let node = order.order[k];
    if order.circular[node] {
        return Ok(());
    }
    let row = row_at(
        alloc,
        instances,
        targets,
        &tables.numbers,
        &tables.sizes,
        &tables.ends,
        node,
    )?;
    tables.numbers[node] = row.number;
    tables.sizes[node] = row.size;
    tables.ends[node] = row.end;
    Ok(())
}

/// Tables of which nothing is filled.
fn blank(alloc: Global, count: usize) -> Result<Tables, AllocError>
    ensures { (p : Plain) (order : List ℕ) → count ≡ length (all_entries p)
        → IfOk result (AreFilled p order 0) }
{
    Ok(Tables {
        numbers: vec![in alloc; None; count]?,
        sizes: vec![in alloc; Size::leaf(); count]?,
        ends: vec![in alloc; count; count]?,
    })
}

/// The tables of all abbreviations.
pub fn tables_of<'p>(
    alloc: Global,
    instances: &Instances<'p>,
    targets: &Targets<'p>,
    order: &Order,
) -> Result<Tables, AllocError>
    requires { (p : Plain) × AreTargets p instances.now targets.now
        × AreOrdered p order.now.order.items order.now.circular.items }
    ensures { (p : Plain) → AreTargets p instances.now targets.now
        → AreOrdered p order.now.order.items order.now.circular.items
        → IfOk result (λ t. AreNumbers p t.numbers.items
        × (length t.numbers.items ≡ length (all_entries p)) × AreSizes p t.sizes.items
        × (length t.sizes.items ≡ length (all_entries p)) × AreEnds p t.ends.items
        × (length t.ends.items ≡ length (all_entries p))) }
{
    let mut tables = blank(alloc, targets.nodes.count)?;
    for k in 0..order.order.len() {
        fill_at(alloc, instances, targets, order, k, &mut tables)?;
    }
    Ok(tables)
}
