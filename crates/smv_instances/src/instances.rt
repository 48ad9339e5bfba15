//! All instances of a program.

ghost use Rattle.std.specs.Prelude.{◌≡◌, List, Some, None, IfOk, IfSome, IfNone, IsTrue, MatchResult, filter, length, map, slice_get, false};
ghost use Rattle.kripke_model.specs.Refusing.{Silent};
ghost use Rattle.smv_instances.specs.Program.{Program as Plain};
ghost use Rattle.smv_instances.specs.Plain.{plain_expr, plain_module, plain_program};
ghost use Rattle.smv_instances.specs.Entries.{Entry as Stood, entity_in, entries as declared_entries};
ghost use Rattle.smv_instances.specs.Instances.{Scope, children as children_of, depth as depth_of, has_selector as needs_selector, instances, is_process, is_symbol, module_of, place_of, symbols as symbols_in};
ghost use Rattle.smv_instances.specs.Declarations.{declarations, refused_declarations};
ghost use Rattle.smv_instances.specs.Numbered.{IsActual, IsFound, IsProcess, actuals_of, plain_entry, scope_at};
ghost use Rattle.smv_instances.specs.Answers.{Answers, Refused};
ghost use Rattle.smv_instances.specs.Tables.{IsTable};
ghost use Rattle.std.specs.List.{AllZip};
ghost use Rattle.smv_instances.specs.Walk.{AreLinked, AreRows, IsInside, IsStep, HasWalked, Starts};
ghost use Rattle.smv_instances.specs.Built.{AreInstances, HasEntry, HasInstance, IsEntryOf};

use crate::constants::{check_constants, symbols_of};
use crate::counts::MOST_DEPTH;
use crate::entries::{Entity, Entry};
use crate::found::Found;
use crate::modules::{Modules, Table, find_main, modules_of};
use crate::names::Names;
use crate::rows::{Row, Step, Walk, main_alone};
use crate::walk::visit_body;
use kripke_model::Name;
use kripke_model::refusals::FlatRefusal;
use smv_parser::{Expr, Module, Program};
use std::alloc::Global;

/// All bodies, from `main` on.
pub fn walk_of<'p>(
    alloc: Global,
    modules: &Modules<'p>,
    main: usize,
) -> Result<Walk<'p>, FlatRefusal>
    requires { (p : Plain) × Starts modules.now p main }
    ensures { (p : Plain) → Starts modules.now p main
        → MatchResult result (λ w. HasWalked modules.now w (instances p) (instances p)
        × AreLinked p w.rows.items (instances p) 0 × Silent (declarations p))
        (Refused (declarations p)) }
{
    let mut walk = main_alone(alloc, main)?;
    visit_body(alloc, modules, &mut walk, 0, MOST_DEPTH)?;
    Ok(walk)
}

/// What the module of an instance declares.
pub fn table_at<'a, 'p>(modules: &'a Modules<'p>, rows: &[Row<'p>], number: usize) -> &'a Table<'p>
    requires { IsInside modules.now rows.now number }
    ensures { (done : List Scope) (s : Scope) → AreRows modules.now rows.now done
        → slice_get done number ≡ Some s → IsTable result.now (module_of s) }
{
    let row = &rows[number];
    &modules.tables[row.table]
}

/// The instances of a program whose declarations are not refused. An instance has a number: its place in
/// instantiation order, from 0 for `main`.
#[derive(Drop)]
pub struct Instances<'p> {
    pub modules: Modules<'p>,
    /// The instances, by their numbers.
    pub rows: Vec<Row<'p>>,
    /// The numbers of `main` and the process instances, in order.
    pub processes: Vec<usize>,
    pub selector: bool,
    /// The symbolic constants.
    pub symbols: Names<'p>,
}

impl<'p> Instances<'p> {
    /// The instances of a program, or why its modules, declarations or constants are refused.
    pub fn build(alloc: Global, program: &'p Program) -> Result<Instances<'p>, FlatRefusal>
        ensures built { IfOk result (AreInstances (plain_program program.now)) }
        ensures answers { Answers (refused_declarations (plain_program program.now)) result }
    {
        let modules = modules_of(alloc, program)?;
        let main = find_main(&modules)?;
        let walk = walk_of(alloc, &modules, main)?;
        let symbols = symbols_of(alloc, &modules, &walk.rows)?;
        let table = &modules.tables[main];
        check_constants(&table.entries, &symbols)?;
        let Walk {
            rows,
            processes,
            counts,
        } = walk;
        Ok(Instances {
            modules,
            rows,
            processes,
            selector: counts.process,
            symbols,
        })
    }

    /// How many instances there are, `main` among them.
    pub fn len(&self) -> usize
        ensures { (p : Plain) → AreInstances p self.now → result ≡ length (instances p) }
    {
        self.rows.len()
    }

    /// The module of an instance.
    pub fn module(&self, i: usize) -> &'p Module
        requires { HasInstance self.now i }
        ensures { (p : Plain) (s : Scope) → AreInstances p self.now → scope_at p i ≡ Some s
            → plain_module result.now ≡ module_of s }
    {
        table_at(&self.modules, &self.rows, i).source
    }

    /// What the module of an instance declares, in text order.
    pub fn entries(&self, i: usize) -> &[Entry<'p>]
        requires { HasInstance self.now i }
        ensures { (p : Plain) (s : Scope) → AreInstances p self.now → scope_at p i ≡ Some s
            → map plain_entry result.now ≡ declared_entries (module_of s) }
    {
        &table_at(&self.modules, &self.rows, i).entries
    }

    /// How deep an instance stands, where `main` has 0.
    pub fn depth(&self, i: usize) -> usize
        requires { HasInstance self.now i }
        ensures { (p : Plain) (s : Scope) → AreInstances p self.now → scope_at p i ≡ Some s
            → result ≡ depth_of s }
    {
        self.rows[i].depth
    }

    /// The place of the process that an instance belongs to, among the processes.
    pub fn process(&self, i: usize) -> usize
        requires { HasInstance self.now i }
        ensures { (p : Plain) (s : Scope) → AreInstances p self.now → scope_at p i ≡ Some s
            → IsProcess p s result }
    {
        self.rows[i].process
    }

    /// The numbers of the instances that an instance declares, in text order.
    pub fn children(&self, i: usize) -> &[usize]
        requires { HasInstance self.now i }
        ensures { (p : Plain) (s : Scope) → AreInstances p self.now → scope_at p i ≡ Some s
            → AllZip (λ n c. scope_at p n ≡ Some c) result.now (children_of p s) }
    {
        &self.rows[i].children
    }

    /// The declaration of an instance in the body of another; `main` has none.
    pub fn step(&self, i: usize) -> Option<Step<'p>>
        requires { HasInstance self.now i }
        ensures { (p : Plain) (s : Scope) → AreInstances p self.now → scope_at p i ≡ Some s
            → IsStep (instances p) i result s }
    {
        self.rows[i].step
    }

    /// The actual parameter of an instance at a place from 0, with the number of the instance around it; `main` has none.
    pub fn actual(&self, i: usize, place: usize) -> Option<(usize, &'p Expr)>
        requires { HasInstance self.now i }
        ensures some { (p : Plain) (s : Scope) → AreInstances p self.now → scope_at p i ≡ Some s
            → IfSome result (λ x. IsActual p s place x.0 (plain_expr x.1.now)) }
        ensures none { (p : Plain) (s : Scope) → AreInstances p self.now → scope_at p i ≡ Some s
            → IfNone result (slice_get (actuals_of s) place ≡ None) }
    {
        let Some(step) = &self.rows[i].step else {
            return None;
        };
        let actual = step.actuals.get(place)?;
        Some((step.around, actual))
    }

    /// The numbers of `main` and the process instances, in order.
    pub fn processes(&self) -> &[usize]
        ensures { (p : Plain) → AreInstances p self.now
            → AllZip (λ n c. scope_at p n ≡ Some c) result.now (filter is_process (instances p)) }
    {
        &self.processes
    }

    /// Whether there is a process instance, so that a variable selects the process that moves.
    pub fn has_selector(&self) -> bool
        ensures { (p : Plain) → AreInstances p self.now → result ≡ needs_selector p }
    {
        self.selector
    }

    /// The place of a symbolic constant among those of the program.
    pub fn symbol(&self, name: &Name) -> Option<usize>
        ensures some { (p : Plain) → AreInstances p self.now
            → IfSome result (λ k. IsTrue (is_symbol p name.now)
            × (k ≡ place_of (symbols_in p) name.now)) }
        ensures none { (p : Plain) → AreInstances p self.now
            → IfNone result (is_symbol p name.now ≡ false) }
    {
        self.symbols.place(name.as_str())
    }

    /// The place of the entry under which the module of an instance declares a name.
    pub fn entry_at(&self, i: usize, name: &Name) -> Option<usize>
        requires { HasInstance self.now i }
        ensures some { (p : Plain) (s : Scope) → AreInstances p self.now → scope_at p i ≡ Some s
            → IfSome result (IsEntryOf (module_of s) name.now) }
        ensures none { (p : Plain) (s : Scope) → AreInstances p self.now → scope_at p i ≡ Some s
            → IfNone result (entity_in (module_of s) name.now ≡ None) }
    {
        let table = table_at(&self.modules, &self.rows, i);
        table.names.place(name.as_str())
    }

    /// What the entry at a place of the module of an instance stands for.
    pub fn found_at(&self, i: usize, place: usize) -> Found<'p>
        requires { HasEntry self.now i place }
        ensures { (p : Plain) (s : Scope) (e : Stood) → AreInstances p self.now
            → scope_at p i ≡ Some s → slice_get (declared_entries (module_of s)) place ≡ Some e
            → IsFound p s e.name result }
    {
        let row = &self.rows[i];
        let table = &self.modules.tables[row.table];
        let entry = &table.entries[place];
        match entry.entity {
            Entity::Parameter => Found::Parameter(place),
            Entity::Stored(plain) => Found::Stored(plain),
            Entity::Instance { .. } => {
                let ordinal = table.ordinals[place];
                Found::Instance(row.children[ordinal])
            }
            Entity::Defined(right) => Found::Defined(right),
        }
    }

    /// What the module of an instance declares under a name.
    pub fn find(&self, i: usize, name: &Name) -> Option<Found<'p>>
        requires { HasInstance self.now i }
        ensures some { (p : Plain) (s : Scope) → AreInstances p self.now → scope_at p i ≡ Some s
            → IfSome result (IsFound p s name.now) }
        ensures none { (p : Plain) (s : Scope) → AreInstances p self.now → scope_at p i ≡ Some s
            → IfNone result (entity_in (module_of s) name.now ≡ None) }
    {
        let place = self.entry_at(i, name)?;
        Some(self.found_at(i, place))
    }
}
