//! What is tested.

use kripke_model::expressions::Formula;
use kripke_model::models::Ruled;
use proof_form::form::Proof;
use region_sets::Pin;

/// All states, and no state.
#[derive(Drop)]
pub struct Ends<'a> {
    pub full: &'a Pin,
    pub empty: &'a Pin,
}

/// A proof of a formula, over a model.
#[derive(Drop)]
pub struct Case<'a> {
    pub model: &'a Ruled,
    pub formula: &'a Formula,
    pub proof: &'a Proof<Pin>,
}
