//! Arithmetic on numbers as the values of expressions have it: results lie in 32 bits, a quotient is
//! truncated toward zero, and a remainder has the dividend's sign.

ghost use Rattle.std.specs.Prelude.{◌≡◌, ◌+ℤ◌, ◌-ℤ◌, ◌*ℤ◌, int_div, int_rem};
ghost use Rattle.smv_instances.specs.Abstract.{operator};
ghost use Rattle.smv_names.specs.Values.{OperationComesTo, bounded_number, quotient_number};

use smv_parser::BinaryOperator;

/// The number, if it lies in 32 bits.
fn within(i: i64) -> Option<i64>
    ensures { result ≡ bounded_number i }
{
    match i32::try_from(i) {
        Ok(_) => Some(i),
        Err(_) => None,
    }
}

fn sum(i: i64, j: i64) -> Option<i64>
    ensures { result ≡ bounded_number (i +ℤ j) }
{
    within(i.checked_add(j)?)
}

fn difference(i: i64, j: i64) -> Option<i64>
    ensures { result ≡ bounded_number (i -ℤ j) }
{
    within(i.checked_sub(j)?)
}

fn product(i: i64, j: i64) -> Option<i64>
    ensures { result ≡ bounded_number (i *ℤ j) }
{
    within(i.checked_mul(j)?)
}

fn quotient(i: i64, j: i64) -> Option<i64>
    ensures { result ≡ quotient_number int_div i j }
{
    if j == 0 {
        return None;
    }
    within(i.checked_div(j)?)
}

fn remainder(i: i64, j: i64) -> Option<i64>
    ensures { result ≡ quotient_number int_rem i j }
{
    if j == 0 {
        return None;
    }
    if j == -1 {
        return Some(0);
    }
    within(i.checked_rem(j)?)
}

/// The number that `+ - * / mod` gives, or `None` where the operator is another one, the divisor is 0,
/// or the number doesn't lie in 32 bits.
pub fn operate(op: BinaryOperator, i: i64, j: i64) -> Option<i64>
    ensures { OperationComesTo (operator op) i j result }
{
    match op {
        BinaryOperator::Add => sum(i, j),
        BinaryOperator::Subtract => difference(i, j),
        BinaryOperator::Multiply => product(i, j),
        BinaryOperator::Divide => quotient(i, j),
        BinaryOperator::Mod => remainder(i, j),
        _ => None,
    }
}
