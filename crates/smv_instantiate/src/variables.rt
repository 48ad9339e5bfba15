//! Flat variables.

ghost use Rattle.std.specs.Prelude.{◌≡◌, ◌≤◌, ◌^◌, ◌++◌, map, length, IfOk};
ghost use Rattle.smv_instances.specs.Plain.{plain_type};
ghost use Rattle.smv_instances.specs.Instances.{type_values, element_names};
ghost use Rattle.smv_instantiate.specs.Written.{IsWrittenType};
ghost use Rattle.smv_instantiate.specs.Types.{AreNamed, variables_named};

use crate::types::{push_elements, values_of};
use kripke_model::Name;
use kripke_model::expressions::Value;
use kripke_model::models::FlatVar;
use smv_instances::names::Names;
use smv_parser::Plain;
use std::alloc::{AllocError, Global};

/// Adds a variable of each name, all with the same values and line.
fn push_named(
    alloc: Global,
    variables: &mut Vec<FlatVar>,
    names: Vec<Name>,
    values: &[Value],
    line: u32,
) -> Result<(), AllocError>
    ensures { IfOk result (λ _. variables.new.items ≡ variables.old.items ++ variables_named
        names.items values.now line) }
{
    for name in names {
        let variable = FlatVar {
            name,
            values: values.to_vec(alloc)?,
            line,
        };
        variables.push(variable)?;
    }
    Ok(())
}

/// Adds the flat variables of a variable or an array with this flat name, declared at this line.
pub fn push_variables(
    alloc: Global,
    variables: &mut Vec<FlatVar>,
    plain: &Plain,
    name: Name,
    line: u32,
    symbols: &Names<'_>,
) -> Result<(), AllocError>
    requires written { IsWrittenType (plain_type plain.now) }
    requires named { AreNamed symbols.now (plain_type plain.now) }
    requires few { length symbols.now ≤ 2 ^ 31 }
    ensures { IfOk result (λ _. variables.new.items ≡ variables.old.items ++ variables_named
        (element_names (plain_type plain.now) name) (type_values symbols.now (plain_type plain.now))
        line) }
{
    let values = values_of(alloc, plain, symbols)?;
    let mut names = Vec::new(alloc);
    push_elements(alloc, &mut names, plain, name)?;
    push_named(alloc, variables, names, &values, line)
}
