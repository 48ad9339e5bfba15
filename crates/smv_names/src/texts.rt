//! The texts of abbreviations.

ghost use Rattle.std.specs.Prelude.{◌≡◌, ◌<◌, length, slice_get, IfSome, IfNone, Some, None};
ghost use Rattle.smv_instances.specs.Program.{Program as Plain};
ghost use Rattle.smv_instances.specs.Plain.{plain_expr};
ghost use Rattle.smv_instances.specs.Entries.{Entry, entries};
ghost use Rattle.smv_instances.specs.Instances.{Scope, all_entries, module_of};
ghost use Rattle.smv_instances.specs.Numbered.{scope_at};
ghost use Rattle.smv_instances.specs.Built.{AreInstances, HasEntry};
ghost use Rattle.smv_names.specs.Abbreviations.{Abbreviation, text_of};
ghost use Rattle.smv_names.specs.Nodes.{abbreviation_at};
ghost use Rattle.smv_names.specs.Ready.{AreTargets};
ghost use Rattle.smv_names.specs.Uses.{IsTextIn};

use crate::resolving::Targets;
use crate::walk::bare_of;
use smv_instances::{Found, Instances};
use smv_parser::Expr;

/// The expression of the abbreviation that an entry declares, and the number of the instance in
/// which it is read.
pub fn text_at_entry<'p>(
    instances: &Instances<'p>,
    i: usize,
    place: usize,
) -> Option<(usize, &'p Expr)>
    requires { HasEntry instances.now i place }
    ensures some { (p : Plain) (s : Scope) (e : Entry) → AreInstances p instances.now
        → scope_at p i ≡ Some s → slice_get (entries (module_of s)) place ≡ Some e
        → IfSome result (λ x. IsTextIn p (record { scope = s; name = e.name }) x.0
        (plain_expr x.1.now)) }
    ensures none { (p : Plain) (s : Scope) (e : Entry) → AreInstances p instances.now
        → scope_at p i ≡ Some s → slice_get (entries (module_of s)) place ≡ Some e
        → IfNone result (text_of (record { scope = s; name = e.name }) ≡ None) }
{
    match instances.found_at(i, place) {
        Found::Parameter(formal) => match instances.actual(i, formal) {
            Some((around, actual)) => Some((around, bare_of(actual))),
            None => None,
        },
        Found::Defined(right) => Some((i, right)),
        Found::Stored(_) => None,
        Found::Instance(_) => None,
    }
}

/// The text of the abbreviation with this number: the instance in which it is read, and the
/// expression, without the parentheses around an actual parameter.
pub fn text_at<'p>(
    instances: &Instances<'p>,
    targets: &Targets<'p>,
    node: usize,
) -> Option<(usize, &'p Expr)>
    requires { (p : Plain) × AreTargets p instances.now targets.now
        × (node < length (all_entries p)) }
    ensures some { (p : Plain) (a : Abbreviation) → AreTargets p instances.now targets.now
        → abbreviation_at p node ≡ Some a
        → IfSome result (λ r. IsTextIn p a r.0 (plain_expr r.1.now)) }
    ensures none { (p : Plain) (a : Abbreviation) → AreTargets p instances.now targets.now
        → abbreviation_at p node ≡ Some a → IfNone result (text_of a ≡ None) }
{
    let (i, k) = targets.nodes.entry(node);
    text_at_entry(instances, i, k)
}
