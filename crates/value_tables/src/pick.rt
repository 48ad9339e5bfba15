//! What becomes of the readings of an operand.

ghost use Rattle.std.specs.Prelude.{◌≡◌};
ghost use Rattle.kripke_model.specs.Evaluation.{as_boolean, truth_value};
ghost use Rattle.value_tables.specs.Pick.{tested_value, negated_value, arithmetic, outcome, picked};
ghost use Rattle.kripke_model.specs.Operators.{in_bounds};

use kripke_model::expressions::{BinOp, FaultKind, Value};

/// What an operand has to be.
#[derive(Clone, Copy)]
pub(crate) enum Test {
    /// Any single value.
    Any,
    /// A number.
    Number,
    /// 0 or 1.
    Boolean,
}

impl Test {
    fn apply(self, value: Value) -> Result<Value, FaultKind>
        ensures { result ≡ tested_value self value }
    {
        match self {
            Test::Any => Ok(value),
            Test::Number => match value {
                Value::Number(_) => Ok(value),
                Value::Symbol(_) => Err(FaultKind::NotNumber),
            },
            Test::Boolean => match boolean(value) {
                Ok(_) => Ok(value),
                Err(kind) => Err(kind),
            },
        }
    }
}

/// What becomes of a reading.
#[derive(Clone, Copy)]
pub(crate) enum Pick {
    /// It stays.
    All,
    /// A value stays, and a fault is left out.
    Values,
    /// A fault stays, and a value is left out.
    Faults,
    /// A value that fails the test becomes a fault.
    Tested(Test),
    /// 0 and 1 change places, and any other value becomes a fault.
    Negated,
    /// A right operand becomes the outcome of arithmetic with this left operand, and a fault is left out.
    With(BinOp, Value),
}

impl Pick {
    /// What becomes of the reading, and `None` where it is left out.
    pub(crate) fn apply(self, reading: Result<Value, FaultKind>) -> Option<Result<Value, FaultKind>>
        ensures { result ≡ picked self reading }
    {
        match reading {
            Ok(value) => self.value(value),
            Err(kind) => self.fault(kind),
        }
    }

    fn value(self, value: Value) -> Option<Result<Value, FaultKind>>
        ensures { result ≡ picked self (Ok value) }
    {
        match self {
            Pick::All | Pick::Values => Some(Ok(value)),
            Pick::Faults => None,
            Pick::Tested(test) => Some(test.apply(value)),
            Pick::Negated => Some(negated(value)),
            Pick::With(op, left) => Some(outcome(op, left, value)),
        }
    }

    fn fault(self, kind: FaultKind) -> Option<Result<Value, FaultKind>>
        ensures { result ≡ picked self (Err kind) }
    {
        match self {
            Pick::All | Pick::Faults | Pick::Tested(_) | Pick::Negated => Some(Err(kind)),
            Pick::Values | Pick::With(_, _) => None,
        }
    }
}

fn boolean(value: Value) -> Result<bool, FaultKind>
    ensures { result ≡ as_boolean value }
{
    match value {
        Value::Number(0) => Ok(false),
        Value::Number(1) => Ok(true),
        _ => Err(FaultKind::NotBoolean),
    }
}

pub(crate) fn truth(holds: bool) -> Value
    ensures { result ≡ truth_value holds }
{
    if holds {
        Value::Number(1)
    } else {
        Value::Number(0)
    }
}

fn negated(value: Value) -> Result<Value, FaultKind>
    ensures { result ≡ negated_value value }
{
    let holds = boolean(value)?;
    Ok(truth(!holds))
}

fn in_bounds(i: i64) -> Result<Value, FaultKind>
    ensures { result ≡ in_bounds i }
{
    match i32::try_from(i) {
        Ok(i) => Ok(Value::Number(i)),
        Err(_) => Err(FaultKind::Overflow),
    }
}

/// `/` truncates toward zero, and `mod` has the dividend's sign.
fn arithmetic(op: BinOp, i: i32, j: i32) -> Result<Value, FaultKind>
    ensures { result ≡ arithmetic op i j }
{
    let (a, b) = (i64::from(i), i64::from(j));
    match op {
        BinOp::Mul => in_bounds(a * b),
        BinOp::Div if j == 0 => Err(FaultKind::ZeroDivisor),
        BinOp::Div => in_bounds(a / b),
        BinOp::Add => in_bounds(a + b),
        BinOp::Sub => in_bounds(a - b),
        BinOp::Mod if j == 0 => Err(FaultKind::ZeroDivisor),
        BinOp::Mod => in_bounds(a % b),
        _ => Err(FaultKind::NotNumber),
    }
}

fn outcome(op: BinOp, left: Value, right: Value) -> Result<Value, FaultKind>
    ensures { result ≡ outcome op left right }
{
    match (left, right) {
        (Value::Number(i), Value::Number(j)) => arithmetic(op, i, j),
        _ => Err(FaultKind::NotNumber),
    }
}
