//! The types of variables and arrays.

ghost use Rattle.std.specs.Prelude.{◌≡◌, ◌+◌, ◌-◌, ◌||◌, not, min, map, IfOk};
ghost use Rattle.smv_instances.specs.Program.{Constant as Written, Plain as Stored};
ghost use Rattle.smv_instances.specs.Constants.{holds, is_same};
ghost use Rattle.smv_instances.specs.Plain.{plain_constant, plain_type};
ghost use Rattle.smv_instances.specs.Instances as tree;
ghost use Rattle.smv_instances.specs.Declarations as declared;

use crate::names::Names;
use indexmap::IndexSet;
use smv_parser::{Constant, ConstantKind, Plain, PlainKind};
use std::alloc::{AllocError, Global};

/// Whether a low end stands above its high end.
pub fn is_reversed(plain: &Plain) -> bool
    ensures { result ≡ declared.is_reversed (plain_type plain.now) }
{
    match &plain.kind {
        PlainKind::Boolean | PlainKind::Enumeration(_) => false,
        PlainKind::Range(low, high) => *high < *low,
        PlainKind::Array(low, high, element) => *high < *low || is_reversed(element),
    }
}

// How many indexes an array has.
fn index_count(low: u32, high: u32) -> u64
    ensures { result ≡ high + 1 - low }
{
    (u64::from(high) + 1).saturating_sub(u64::from(low))
}

/// How many flat variables there are of the type, at most 2^64 - 1.
pub fn variable_count(plain: &Plain) -> u64
    ensures { result ≡ min (declared.variable_count (plain_type plain.now)) u64.MAX }
{
    match &plain.kind {
        PlainKind::Boolean | PlainKind::Enumeration(_) | PlainKind::Range(_, _) => 1,
        PlainKind::Array(low, high, element) => {
            index_count(*low, *high).saturating_mul(variable_count(element))
        }
    }
}

/// How many integers there are from one to another.
pub fn integer_count(low: i32, high: i32) -> u64
    ensures { result ≡ tree.integer_count low high }
{
    if high < low {
        return 0;
    }
    u64::from(high.abs_diff(low)) + 1
}

// The number of a truth value.
fn truth_number(truth: bool) -> u32
    ensures { result ≡ declared.one_if truth }
{
    if truth { 1 } else { 0 }
}

// Adds a constant, and says whether it is a new value.
fn add_constant<'p>(
    names: &mut Names<'p>,
    numbers: &mut IndexSet<u32>,
    constant: &'p Constant,
) -> Result<bool, AllocError>
    ensures added { IfOk result
        (λ is_new. is_new ≡ not (holds names.old numbers.old.keys (plain_constant constant.now))) }
    ensures kept { IfOk result (λ _. (d : Written) → holds names.new numbers.new.keys d
        ≡ (holds names.old numbers.old.keys d || is_same d (plain_constant constant.now))) }
{
    match &constant.kind {
        ConstantKind::Name(name) => names.insert(name.as_str()),
        ConstantKind::Number(n) => Ok(numbers.insert(*n)?),
        ConstantKind::Truth(truth) => Ok(numbers.insert(truth_number(*truth))?),
    }
}

// How many values the constants are.
fn constant_count(alloc: Global, constants: &[Constant]) -> Result<u64, AllocError>
    ensures { IfOk result
        (λ n. n ≡ declared.value_count (Stored.Enumeration (map plain_constant constants.now))) }
{
    let mut names = Names::new(alloc);
    let mut numbers = IndexSet::new(alloc);
    let mut count: u64 = 0;
    for constant in constants {
        if add_constant(&mut names, &mut numbers, constant)? {
            count += 1;
        }
    }
    Ok(count)
}

/// How many values a variable of the type has, or an element of an array.
pub fn value_count(alloc: Global, plain: &Plain) -> Result<u64, AllocError>
    ensures { IfOk result (λ n. n ≡ declared.value_count (plain_type plain.now)) }
{
    match &plain.kind {
        PlainKind::Boolean => Ok(2),
        PlainKind::Enumeration(constants) => constant_count(alloc, constants),
        PlainKind::Range(low, high) => Ok(integer_count(*low, *high)),
        PlainKind::Array(_, _, element) => value_count(alloc, element),
    }
}
