//! Laws of the definitions. The functions give nothing back but what they ensure.

ghost use Rattle.std.specs.Prelude.{ℕ, List, All};
ghost use Rattle.proof_text.specs.File.{File};
ghost use Rattle.proof_text.specs.Refuses.{HaveOneReading};
ghost use Rattle.proof_text.specs.Spells.{HasGoodNodes, Spells};
ghost use Rattle.proof_text.specs.Meaning.{LinesMatch};
ghost use Rattle.proof_text.specs.Written.{AreSpelled};
ghost use Rattle.kripke_model.specs.declared.expressions.Value.TheVariants.{Number};
ghost use Rattle.proof_text.specs.SmallNumbers.{IsSmallValue};

use kripke_model::expressions::Value;
use kripke_model::models::{FlatVar, Ruled};

/// A text is one proof file at most, or it is refused, and then for one reason.
pub fn refusal_law(model: &Ruled)
    ensures { (bytes : List ℕ) → HaveOneReading model.now bytes }
{
    model.rules_law();
    variables_law(model.vars());
}

/// The nodes of each block of a proof file are a good table.
pub fn nodes_law(model: &Ruled)
    ensures { (file : File) (bytes : List ℕ) → Spells model.now file bytes
        → All (HasGoodNodes model.now) file.blocks }
{}

/// The header in declared order, with the texts of blocks of rising specifications behind it as
/// `write_block` gives them, is the file of these blocks, if it isn't too long.
pub fn written_law(model: &Ruled)
    ensures { AreSpelled model.now }
{
    model.rules_law();
}

/// Behind the lines of its nodes, a block has as many lines of text as lines with something to show.
pub fn lines_law(model: &Ruled)
    ensures { LinesMatch model.now }
{}

// The numbers of a program's values are of 32 bits.
#[tactic(auto, using(crate::proofs::NumberFits::small_number))]
fn number_law(number: i32)
    ensures { IsSmallValue (Number number) }
{}

fn value_law(value: &Value)
    ensures { IsSmallValue value.now }
{
    match *value {
        Value::Number(number) => number_law(number),
        Value::Symbol(_) => {}
    }
}

fn values_law(values: &[Value])
    ensures { All IsSmallValue values.now }
{
    match values {
        [] => {}
        [value, rest @ ..] => {
            value_law(value);
            values_law(rest);
        }
    }
}

pub(crate) fn variables_law(vars: &[FlatVar])
    ensures { All (λ v. All IsSmallValue v.values) vars.now }
{
    match vars {
        [] => {}
        [var, rest @ ..] => {
            values_law(var.values());
            variables_law(rest);
        }
    }
}
