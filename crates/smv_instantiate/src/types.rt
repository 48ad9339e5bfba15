//! The values of types, and the names of the elements of arrays.

ghost use Rattle.std.specs.Prelude.{◌≡◌, ◌<◌, ◌≤◌, ◌+ℤ◌, ◌≤ℤ◌, ◌^◌, ◌++◌, ◌∷◌, [], pos, map, length, not, All, IfOk, if◌then◌else◌, string_bytes};
ghost use Rattle.kripke_model.specs.Evaluation.{among, distinct};
ghost use Rattle.kripke_model.specs.declared.expressions.Value.TheVariants.{Number};
ghost use Rattle.smv_instances.specs.Plain.{plain_constant, plain_type};
ghost use Rattle.smv_instances.specs.Instances as tree;
ghost use Rattle.smv_instances.specs.Instances.{value_of, type_values, rising, indexed, element_names};
ghost use Rattle.smv_instantiate.specs.Written.{IsWrittenConstant, IsWrittenType};
ghost use Rattle.smv_instantiate.specs.Types.{IsNamed, AreNamed};

use kripke_model::Name;
use kripke_model::expressions::Value;
use smv_instances::names::Names;
use smv_instances::types::integer_count;
use smv_parser::{Constant, ConstantKind, Plain, PlainKind};
use std::alloc::{AllocError, Global};

// ---- values

/// The value of a constant, where a symbol has the number of its place.
fn constant_value(constant: &Constant, symbols: &Names<'_>) -> Value
    requires written { IsWrittenConstant (plain_constant constant.now) }
    requires named { IsNamed symbols.now (plain_constant constant.now) }
    requires few { length symbols.now ≤ 2 ^ 31 }
    ensures { result ≡ value_of symbols.now (plain_constant constant.now) }
{
    match &constant.kind {
        ConstantKind::Name(name) => match symbols.place(name.as_str()) {
            Some(place) => Value::Symbol(place as u32),
            None => unreachable!(),
        },
        ConstantKind::Number(number) => number_value(*number),
        ConstantKind::Truth(true) => Value::Number(1),
        ConstantKind::Truth(false) => Value::Number(0),
    }
}

/// Adds a value where it is not there yet.
fn push_new(values: &mut Vec<Value>, value: Value) -> Result<(), AllocError>
    ensures { IfOk result
        (λ _. values.new.items ≡ (if among value values.old.items then values.old.items else
        values.old.items ++ value ∷ [])) }
{
    if values.contains(&value) {
        return Ok(());
    }
    values.push(value)?;
    Ok(())
}

fn enumeration_values(
    alloc: Global,
    constants: &[Constant],
    symbols: &Names<'_>,
) -> Result<Vec<Value>, AllocError>
    requires written { All IsWrittenConstant (map plain_constant constants.now) }
    requires named { All (IsNamed symbols.now) (map plain_constant constants.now) }
    requires few { length symbols.now ≤ 2 ^ 31 }
    ensures { IfOk result
        (λ values. values.items
        ≡ distinct (map (value_of symbols.now) (map plain_constant constants.now))) }
{
    let mut values = Vec::new(alloc);
    for constant in constants {
        push_new(&mut values, constant_value(constant, symbols))?;
    }
    Ok(values)
}

/// The value of a number as it is written.
pub fn number_value(number: u32) -> Value
    requires { number ≤ 2147483647 }
    ensures { result ≡ Number (pos number) }
{
    Value::Number(number as i32)
}

/// The value that is so many above a number.
fn value_above(low: i32, steps: u64) -> Value
    requires { (low +ℤ pos steps) ≤ℤ pos 2147483647 }
    ensures { result ≡ Number (low +ℤ pos steps) }
{
    Value::Number((i64::from(low) + steps as i64) as i32)
}

fn range_values(alloc: Global, low: i32, high: i32) -> Result<Vec<Value>, AllocError>
    ensures { IfOk result (λ values. values.items ≡ map (λ k. Number (low +ℤ pos k))
        (rising 0 (tree.integer_count low high))) }
{
    let mut values = Vec::new(alloc);
    for steps in 0..integer_count(low, high) {
        values.push(value_above(low, steps))?;
    }
    Ok(values)
}

fn truth_values(alloc: Global) -> Result<Vec<Value>, AllocError>
    ensures { IfOk result (λ values. values.items ≡ Number (pos 0) ∷ Number (pos 1) ∷ []) }
{
    Ok(vec![in alloc; Value::Number(0), Value::Number(1)]?)
}

/// The values of a type, or of an array's elements, in their order.
pub fn values_of(
    alloc: Global,
    plain: &Plain,
    symbols: &Names<'_>,
) -> Result<Vec<Value>, AllocError>
    requires written { IsWrittenType (plain_type plain.now) }
    requires named { AreNamed symbols.now (plain_type plain.now) }
    requires few { length symbols.now ≤ 2 ^ 31 }
    ensures { IfOk result (λ values. values.items ≡ type_values symbols.now
        (plain_type plain.now)) }
{
    match &plain.kind {
        PlainKind::Boolean => truth_values(alloc),
        PlainKind::Enumeration(constants) => enumeration_values(alloc, constants, symbols),
        PlainKind::Range(low, high) => range_values(alloc, *low, *high),
        PlainKind::Array(_, _, element) => values_of(alloc, element, symbols),
    }
}

// ---- names of elements

/// The name of an element: `x[i]`.
pub fn indexed_name(alloc: Global, name: &Name, index: u32) -> Result<Name, AllocError>
    ensures { IfOk result (λ element. element ≡ indexed name.now index) }
{
    let text = name.as_str();
    Ok(Name::new(format!(in alloc; "{text}[{index}]")?))
}

/// Adds the names of the elements of a variable or an array, the indexes rising.
pub fn push_elements(
    alloc: Global,
    names: &mut Vec<Name>,
    plain: &Plain,
    name: Name,
) -> Result<(), AllocError>
    requires { IsWrittenType (plain_type plain.now) }
    ensures { IfOk result (λ _. names.new.items ≡ names.old.items ++ element_names
        (plain_type plain.now) name) }
{
    match &plain.kind {
        PlainKind::Array(low, high, element) => {
            for index in *low..*high + 1 {
                push_elements(alloc, names, element, indexed_name(alloc, &name, index)?)?;
            }
            Ok(())
        }
        _ => {
            names.push(name)?;
            Ok(())
        }
    }
}
