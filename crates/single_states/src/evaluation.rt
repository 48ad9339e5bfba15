//! The values of operators, and the test of states. Nothing here takes memory.

ghost use Rattle.std.specs.Prelude.{◌≡◌, ◌↔◌, IsTrue, Contains};
ghost use Rattle.kripke_model.specs.Step.{IsState};
ghost use Rattle.kripke_model.specs.Evaluation.{runs, truth_value};
ghost use Rattle.single_states.specs.Summary.{one, joined, only, only_number, only_boolean, arithmetic, binary_value, IsSingleValued, negated, united, combined, decided, either, first_is, boolean_of, single_of};
ghost use Rattle.kripke_model.specs.Operators.{in_bounds, logic};

use kripke_model::expressions::{BinOp, FaultKind, Value};
use kripke_model::models::{FlatVar, Ruled};
use kripke_model::states::State;

/// Whether the value is one of the variable's type.
fn is_of_type(var: &FlatVar, value: Value) -> bool
    ensures { IsTrue result ↔ Contains var.now.values value }
{
    var.values().contains(&value)
}

/// Whether s gives each variable of the model one value of its type, and has no other values.
pub fn is_state(model: &Ruled, s: &State) -> bool
    ensures { IsTrue result ↔ IsState model.now s.now }
{
    let vars = model.vars();
    let values = s.values();
    if values.len() != vars.len() {
        return false;
    }
    for (i, var) in vars.iter().enumerate() {
        if !is_of_type(var, values[i]) {
            return false;
        }
    }
    true
}

/// The first value of an expression, and whether another one differs from it.
#[derive(Clone, Copy)]
pub(crate) struct Summary {
    pub(crate) first: Value,
    pub(crate) many: bool,
}

pub(crate) fn truth(holds: bool) -> Value
    ensures { result ≡ truth_value holds }
{
    if holds {
        Value::Number(1)
    } else {
        Value::Number(0)
    }
}

impl Summary {
    pub(crate) fn one(first: Value) -> Summary
        ensures { result ≡ one first }
    {
        Summary { first, many: false }
    }

    pub(crate) fn join(self, other: Summary) -> Summary
        ensures { result ≡ joined self other }
    {
        Summary {
            first: self.first,
            many: self.many || other.many || self.first != other.first,
        }
    }

    pub(crate) fn single(self) -> Result<Value, FaultKind>
        ensures { result ≡ only self }
    {
        if self.many {
            Err(FaultKind::ManyValues)
        } else {
            Ok(self.first)
        }
    }

    pub(crate) fn number(self) -> Result<i32, FaultKind>
        ensures { result ≡ only_number self }
    {
        match self.single()? {
            Value::Number(i) => Ok(i),
            Value::Symbol(_) => Err(FaultKind::NotNumber),
        }
    }

    pub(crate) fn boolean(self) -> Result<bool, FaultKind>
        ensures { result ≡ only_boolean self }
    {
        let value = self.single()?;
        match value {
            Value::Number(0) => Ok(false),
            Value::Number(1) => Ok(true),
            _ => Err(FaultKind::NotBoolean),
        }
    }
}

pub(crate) fn in_bounds(i: i64) -> Result<Value, FaultKind>
    ensures { result ≡ in_bounds i }
{
    match i32::try_from(i) {
        Ok(i) => Ok(Value::Number(i)),
        Err(_) => Err(FaultKind::Overflow),
    }
}

pub(crate) fn arithmetic(op: BinOp, i: i32, j: i32) -> Result<Value, FaultKind>
    ensures { result ≡ arithmetic op i j }
{
    let (a, b) = (i64::from(i), i64::from(j));
    match op {
        BinOp::Mul => in_bounds(a * b),
        BinOp::Div if j == 0 => Err(FaultKind::ZeroDivisor),
        BinOp::Div => in_bounds(a / b),
        BinOp::Add => in_bounds(a + b),
        BinOp::Sub => in_bounds(a - b),
        BinOp::Mod if j == 0 => Err(FaultKind::ZeroDivisor),
        BinOp::Mod => in_bounds(a % b),
        BinOp::Lt => Ok(truth(i < j)),
        BinOp::Gt => Ok(truth(i > j)),
        BinOp::Le => Ok(truth(i <= j)),
        BinOp::Ge => Ok(truth(i >= j)),
        _ => Err(FaultKind::NotNumber),
    }
}

pub(crate) fn logic(op: BinOp, a: bool, b: bool) -> bool
    ensures { result ≡ logic op a b }
{
    match op {
        BinOp::And => a && b,
        BinOp::Or => a || b,
        BinOp::Implies => !a || b,
        _ => a == b,
    }
}

/// The value of an operator other than `union` and `in`. The right operand is tested after the left one.
pub(crate) fn binary_value(
    op: BinOp,
    x: Summary,
    y: Result<Summary, FaultKind>,
) -> Result<Value, FaultKind>
    requires { IsSingleValued op }
    ensures { result ≡ binary_value op x y }
{
    match op {
        BinOp::Eq => {
            let v = x.single()?;
            let w = y?.single()?;
            Ok(truth(v == w))
        }
        BinOp::And | BinOp::Or | BinOp::Implies | BinOp::Iff => {
            let a = x.boolean()?;
            let b = y?.boolean()?;
            Ok(truth(logic(op, a, b)))
        }
        _ => {
            let i = x.number()?;
            let j = y?.number()?;
            arithmetic(op, i, j)
        }
    }
}

/// Whether process p makes the step out of s: the selector of s names it, or the model has no selector.
pub fn runs(model: &Ruled, s: &State, p: u32) -> bool
    ensures { result ≡ runs model.now s.now p }
{
    if !model.has_selector() {
        return true;
    }
    match s.value(0) {
        Value::Number(i) => i64::from(i) == i64::from(p),
        Value::Symbol(_) => false,
    }
}

pub(crate) fn boolean_of(x: Result<Summary, FaultKind>) -> Result<bool, FaultKind>
    ensures { result ≡ boolean_of x }
{
    x?.boolean()
}

pub(crate) fn single_of(x: Result<Summary, FaultKind>) -> Result<Value, FaultKind>
    ensures { result ≡ single_of x }
{
    x?.single()
}

pub(crate) fn negated(x: Result<Summary, FaultKind>) -> Result<Summary, FaultKind>
    ensures { result ≡ negated x }
{
    let b = x?.boolean()?;
    Ok(Summary::one(truth(!b)))
}

pub(crate) fn united(
    x: Result<Summary, FaultKind>,
    y: Result<Summary, FaultKind>,
) -> Result<Summary, FaultKind>
    ensures { result ≡ united x y }
{
    let x = x?;
    let y = y?;
    Ok(x.join(y))
}

pub(crate) fn combined(
    op: BinOp,
    x: Result<Summary, FaultKind>,
    y: Result<Summary, FaultKind>,
) -> Result<Summary, FaultKind>
    requires { IsSingleValued op }
    ensures { result ≡ combined op x y }
{
    let value = binary_value(op, x?, y)?;
    Ok(Summary::one(value))
}

pub(crate) fn decided(x: Result<bool, FaultKind>) -> Result<Summary, FaultKind>
    ensures { result ≡ decided x }
{
    let b = x?;
    Ok(Summary::one(truth(b)))
}

pub(crate) fn either(
    x: Result<bool, FaultKind>,
    y: Result<bool, FaultKind>,
) -> Result<bool, FaultKind>
    ensures { result ≡ either x y }
{
    let x = x?;
    let y = y?;
    Ok(x || y)
}

pub(crate) fn first_is(x: Result<Summary, FaultKind>, v: Value) -> Result<bool, FaultKind>
    ensures { result ≡ first_is x v }
{
    let x = x?;
    Ok(v == x.first)
}
