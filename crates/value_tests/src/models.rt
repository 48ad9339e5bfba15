//! Three small models: one whose `x` has an unused code and whose `y` has no bits,
//!
//! ```text
//! MODULE main
//! VAR x : {a, b, c}; y : {only};
//! ```
//!
//! one with a boolean, a range `3..7` and a variable of one value, and one of two bits of a counter.

ghost use Rattle.std.specs.Prelude.{◌≡◌, ◌∷◌, [], IfOk};
ghost use Rattle.bit_encode.specs.Rows.{variable, model_with, unused_model, mixed_model};
ghost use Rattle.kripke_model.specs.Flat.{IsFlat, main_name};
ghost use Rattle.kripke_model.specs.System.{System};
ghost use Rattle.value_tables.specs.Rows.{counter_model};

use kripke_model::Name;
use kripke_model::expressions::Value;
use kripke_model::models::{FlatModel, FlatVar, Ruled};
use std::alloc::{AllocError, Global};

fn name(alloc: Global, text: &str) -> Result<Name, AllocError>
    ensures { IfOk result (λ n. n ≡ text.now) }
{
    Ok(Name::new(String::from_str(alloc, text)?))
}

/// A list of one name.
fn name_alone(alloc: Global, text: &str) -> Result<Vec<Name>, AllocError>
    ensures { IfOk result (λ names. names.items ≡ text.now ∷ []) }
{
    let only = name(alloc, text)?;
    Ok(vec![in alloc; only]?)
}

fn variable(alloc: Global, text: &str, values: &[Value]) -> Result<FlatVar, AllocError>
    ensures { IfOk result (λ v. v ≡ variable text.now values.now) }
{
    Ok(FlatVar {
        name: name(alloc, text)?,
        values: values.to_vec(alloc)?,
        line: 2,
    })
}

/// The model of these variables alone.
fn model_of(alloc: Global, symbols: Vec<Name>, vars: Vec<FlatVar>) -> Result<Ruled, AllocError>
    requires { IsFlat (model_with symbols.items vars.items) }
    ensures { IfOk result (λ m. m ≡ model_with symbols.items vars.items) }
{
    let processes = name_alone(alloc, "main")?;
    let flat = FlatModel {
        symbols,
        vars,
        selector: false,
        processes,
        assigns: Vec::new(alloc),
        inits: Vec::new(alloc),
        invars: Vec::new(alloc),
        trans: Vec::new(alloc),
        constraints: Vec::new(alloc),
        specs: Vec::new(alloc),
    };
    Ok(Ruled {
        flat,
        formulas: Vec::new(alloc),
        fair: Vec::new(alloc),
    })
}

/// The names `a`, `b`, `c` and `only`.
fn letters(alloc: Global) -> Result<Vec<Name>, AllocError>
    ensures { IfOk result (λ names. names.items ≡ unused_model.symbols) }
{
    let a = name(alloc, "a")?;
    let b = name(alloc, "b")?;
    let c = name(alloc, "c")?;
    let only = name(alloc, "only")?;
    Ok(vec![in alloc; a, b, c, only]?)
}

/// The variables `x : {a, b, c}` and `y : {only}`.
fn variables_of_letters(alloc: Global) -> Result<Vec<FlatVar>, AllocError>
    ensures { IfOk result (λ vars. vars.items ≡ unused_model.vars) }
{
    let letters = [Value::Symbol(0), Value::Symbol(1), Value::Symbol(2)];
    let x = variable(alloc, "x", &letters)?;
    let y = variable(alloc, "y", &[Value::Symbol(3)])?;
    Ok(vec![in alloc; x, y]?)
}

pub fn with_unused_code(alloc: Global) -> Result<Ruled, AllocError>
    ensures { IfOk result (λ m. m ≡ unused_model) }
{
    let symbols = letters(alloc)?;
    let vars = variables_of_letters(alloc)?;
    model_of(alloc, symbols, vars)
}

/// The variables `flag : boolean`, `count : 3..7` and `y : {only}`.
fn mixed_variables(alloc: Global) -> Result<Vec<FlatVar>, AllocError>
    ensures { IfOk result (λ vars. vars.items ≡ mixed_model.vars) }
{
    let range = [
        Value::Number(3),
        Value::Number(4),
        Value::Number(5),
        Value::Number(6),
        Value::Number(7),
    ];
    let flag = variable(alloc, "flag", &[Value::Number(0), Value::Number(1)])?;
    let count = variable(alloc, "count", &range)?;
    let y = variable(alloc, "y", &[Value::Symbol(0)])?;
    Ok(vec![in alloc; flag, count, y]?)
}

pub fn with_range(alloc: Global) -> Result<Ruled, AllocError>
    ensures { IfOk result (λ m. m ≡ mixed_model) }
{
    let symbols = name_alone(alloc, "only")?;
    let vars = mixed_variables(alloc)?;
    model_of(alloc, symbols, vars)
}

/// The variables `low : boolean` and `high : boolean`.
fn counter_variables(alloc: Global) -> Result<Vec<FlatVar>, AllocError>
    ensures { IfOk result (λ vars. vars.items ≡ counter_model.vars) }
{
    let low = variable(alloc, "low", &[Value::Number(0), Value::Number(1)])?;
    let high = variable(alloc, "high", &[Value::Number(0), Value::Number(1)])?;
    Ok(vec![in alloc; low, high]?)
}

pub fn two_bits(alloc: Global) -> Result<Ruled, AllocError>
    ensures { IfOk result (λ m. m ≡ counter_model) }
{
    let vars = counter_variables(alloc)?;
    model_of(alloc, Vec::new(alloc), vars)
}
