//! The layouts of two small models: one whose x has an unused code and whose y has no bits, and one with a boolean, a
//! range `3..7` and a variable of one value, with the order reversed.

ghost use Rattle.std.specs.Prelude.{◌≡◌, ◌↔◌, IfOk, IsTrue};
ghost use Rattle.bit_encode.specs.Code.{IsStateOf, types_of};

use crate::models::{with_range, with_unused_code};
use bit_encode::laws::states_law;
use bit_encode::layout::{Layout, LayoutRefusal};
use kripke_model::expressions::Value;
use kripke_model::models::Ruled;
use kripke_model::states::State;
use single_states::evaluation::is_state;
use std::alloc::{AllocError, Global};
use std::test::Fail;

fn state_of(alloc: Global, values: &[Value]) -> Result<State, AllocError>
    ensures { IfOk result (λ s. s ≡ values.now) }
{
    Ok(State {
        values: values.to_vec(alloc)?,
    })
}

/// Whether the layout's types admit the state's values.
fn fits(model: &Ruled, layout: &Layout, s: &State) -> bool
    requires { layout.now.types ≡ types_of model.now }
    ensures { IsTrue result ↔ IsStateOf layout.now.types s.now }
{
    states_law(model);
    is_state(model, s)
}

/// Whether a variable has this bit, and it has this level in the current state, with the next state's right behind it.
fn has_level(model: &Ruled, layout: &Layout, var: u32, bit: u32, level: u32) -> bool
    requires { layout.now.types ≡ types_of model.now }
{
    if var as usize >= model.vars().len() || bit >= layout.width(var) {
        return false;
    }
    let next = layout.next_level_of(var, bit);
    layout.level_of(var, bit) == level && next > level && next - level == 1
}

/// Whether the bits are the code of no state.
fn is_unused(alloc: Global, layout: &Layout, code: &[bool]) -> Result<bool, AllocError> {
    if code.len() != layout.bits() as usize {
        return Ok(false);
    }
    Ok(layout.decode(alloc, code)?.is_none())
}

/// Whether these values have these bits, and these bits those values.
fn round_trip(
    alloc: Global,
    model: &Ruled,
    layout: &Layout,
    values: &[Value],
    code: &[bool],
) -> Result<bool, AllocError>
    requires { layout.now.types ≡ types_of model.now }
{
    let s = state_of(alloc, values)?;
    if !fits(model, layout, &s) || code.len() != layout.bits() as usize {
        return Ok(false);
    }
    let bits = layout.encode(alloc, &s)?;
    match layout.decode(alloc, code)? {
        Some(back) => Ok(bits.as_slice() == code && back.values() == values),
        None => Ok(false),
    }
}

fn is_bad_order(alloc: Global, model: &Ruled, order: &[u32]) -> bool {
    match Layout::new(alloc, model, order) {
        Err(LayoutRefusal::BadOrder) => true,
        _ => false,
    }
}

/// Whether the third value and the second one of x have their codes, and the last code is of none.
fn has_two_bits(alloc: Global, model: &Ruled, layout: &Layout) -> Result<bool, AllocError>
    requires { layout.now.types ≡ types_of model.now }
{
    let third = [Value::Symbol(2), Value::Symbol(3)];
    let second = [Value::Symbol(1), Value::Symbol(3)];
    Ok(
        round_trip(alloc, model, layout, &third, &[true, false])?
            && round_trip(alloc, model, layout, &second, &[false, true])?
            && is_unused(alloc, layout, &[true, true])?,
    )
}

#[test]
fn an_unused_code_and_no_bits(rt: HostRuntime) -> Result<(), Fail> {
    let alloc = rt.alloc();
    let model = with_unused_code(alloc)?;
    // the order lacks y
    assert!(rt; is_bad_order(alloc, &model, &[0]));
    let layout = Layout::new(alloc, &model, &[0, 1])?;
    assert!(rt; layout.bits() == 2);
    assert!(rt; has_level(&model, &layout, 0, 1, 2));
    assert!(rt; has_two_bits(alloc, &model, &layout)?);
    Ok(())
}

/// Whether the first values and some between have their codes.
fn has_early_codes(alloc: Global, model: &Ruled, layout: &Layout) -> Result<bool, AllocError>
    requires { layout.now.types ≡ types_of model.now }
{
    let first = [Value::Number(0), Value::Number(3), Value::Symbol(0)];
    let middle = [Value::Number(1), Value::Number(5), Value::Symbol(0)];
    Ok(
        round_trip(alloc, model, layout, &first, &[false; 4])?
            && round_trip(alloc, model, layout, &middle, &[false, true, false, true])?,
    )
}

/// Whether the last value of the range has its code and no other, and a code behind it is of none.
fn has_last_code(alloc: Global, model: &Ruled, layout: &Layout) -> Result<bool, AllocError>
    requires { layout.now.types ≡ types_of model.now }
{
    let last = [Value::Number(0), Value::Number(7), Value::Symbol(0)];
    Ok(
        round_trip(alloc, model, layout, &last, &[true, false, false, false])?
            && !round_trip(alloc, model, layout, &last, &[true, false, false, true])?
            && is_unused(alloc, layout, &[true, false, true, false])?,
    )
}

#[test]
fn a_reversed_order(rt: HostRuntime) -> Result<(), Fail> {
    let alloc = rt.alloc();
    let model = with_range(alloc)?;
    let layout = Layout::new(alloc, &model, &[2, 1, 0])?;
    assert!(rt; layout.bits() == 4);
    assert!(rt; has_early_codes(alloc, &model, &layout)?);
    assert!(rt; has_last_code(alloc, &model, &layout)?);
    Ok(())
}
