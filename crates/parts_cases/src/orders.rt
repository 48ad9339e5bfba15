//! The orders of the variables that a question names.

use case_text::fault::Fault;
use kripke_model::models::Ruled;
use std::alloc::{AllocError, Global};

/// The numbers of the variables, the first one first or the last one.
fn all_variables(alloc: Global, model: &Ruled, reversed: bool) -> Result<Vec<u32>, AllocError> {
    model.rules_law();
    let count = model.vars().len() as u32;
    let mut order = Vec::new(alloc);
    for x in 0..count {
        order.push(if reversed { count - 1 - x } else { x })?;
    }
    Ok(order)
}

/// The numbers behind blanks.
fn numbers_of(alloc: Global, words: &str) -> Result<Vec<u32>, Fault> {
    let mut numbers = Vec::new(alloc);
    for word in words.split(' ').skip(1) {
        let number = word.parse::<u32>().map_err(|_| Fault::NoNumber)?;
        numbers.push(number)?;
    }
    Ok(numbers)
}

/// The order of the model's variables that the words name. Behind `in the order` stand numbers, from 0, which need not name
/// each variable once.
pub fn order_of(alloc: Global, model: &Ruled, words: &str) -> Result<Vec<u32>, Fault> {
    match words {
        "in declared order" => Ok(all_variables(alloc, model, false)?),
        "in reverse order" => Ok(all_variables(alloc, model, true)?),
        _ => {
            let numbers = words.strip_prefix("in the order").ok_or(Fault::Unasked)?;
            numbers_of(alloc, numbers)
        }
    }
}
