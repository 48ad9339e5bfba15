//! States by the words of their values.

ghost use Rattle.std.specs.Prelude.{◌≡◌, ◌∷◌, [], ℕ, List, IfOk, MatchOption, Contains, codes};
ghost use Rattle.kripke_model.specs.declared.expressions.Value.{Value as Data};
ghost use Rattle.kripke_model.specs.Shown.{value_text};
ghost use Rattle.kripke_model.specs.Step.{IsState};
ghost use Rattle.kripke_model.specs.System.{State as Values};
ghost use Rattle.proof_text.specs.Lines.{Words as words_line, line_text, value_words};

use crate::line_words::{takes_end, takes_word};
use crate::value_reading::value_written;
use kripke_model::expressions::Value;
use kripke_model::models::Ruled;
use kripke_model::states::State;
use std::alloc::{AllocError, Global};
use text_lines::words::Words;

/// Takes the next word, and gives the value of variable x that it writes, of these values.
#[tactic(auto, using(crate::proofs::TakenValues::value_first))]
fn takes_value(
    alloc: Global,
    model: &Ruled,
    x: usize,
    values: &[Value],
    words: &mut Words<'_>,
) -> Result<Option<Value>, AllocError>
    ensures { IfOk result (λ found. MatchOption found
        ((v : Data) → Contains values.now v → (others : List (List ℕ))
        → words.old ≡ value_text model.now x v ∷ others → ⊥)
        (λ v. Contains values.now v × (words.old ≡ value_text model.now x v ∷ words.new))) }
{
    let Some(word) = words.next() else {
        return Ok(None);
    };
    value_written(alloc, model, x, values, word)
}

/// The state that the words write.
fn state_written(
    alloc: Global,
    model: &Ruled,
    words: &mut Words<'_>,
) -> Result<Option<State>, AllocError>
    ensures { IfOk result (λ found. MatchOption found
        ((s : Values) → IsState model.now s → words.old ≡ value_words model.now 0 s → ⊥)
        (λ s. IsState model.now s × (words.old ≡ value_words model.now 0 s))) }
{
    let mut state = State::new(alloc);
    let vars = model.vars();
    for (x, var) in vars.iter().enumerate() {
        let Some(value) = takes_value(alloc, model, x, var.values(), words)? else {
            return Ok(None);
        };
        state.push(value)?;
    }
    if !takes_end(words) {
        return Ok(None);
    }
    Ok(Some(state))
}

/// The state of a line.
pub(crate) fn state_in(
    alloc: Global,
    model: &Ruled,
    text: &[u8],
) -> Result<Option<State>, AllocError>
    ensures { IfOk result (λ found. MatchOption found
        ((s : Values) → IsState model.now s
        → line_text (words_line (codes "at" ∷ value_words model.now 0 s)) ≡ text.now → ⊥)
        (λ s. IsState model.now s
        × (line_text (words_line (codes "at" ∷ value_words model.now 0 s)) ≡ text.now))) }
{
    model.rules_law();
    let mut words = Words::of(text);
    if !takes_word(&mut words, b"at") {
        return Ok(None);
    }
    state_written(alloc, model, &mut words)
}
