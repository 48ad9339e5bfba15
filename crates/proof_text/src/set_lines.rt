// Lines of sets, of layers and of fair parts.

ghost use Rattle.std.specs.Prelude.{◌≡◌, ◌++◌, ◌∷◌, [], OnOk, decimal, length, map};
ghost use Rattle.proof_text.specs.Lines as lines;
ghost use Rattle.proof_text.specs.Lines.{text_of};

use proof_form::form::{FairPart, Layer};
use std::alloc::AllocError;
use value_texts::text::Text;

// A space and the number behind it.
pub(crate) fn push_spaced(text: &mut Text, n: u32) -> Result<(), AllocError>
    ensures { OnOk result (text.new ≡ text.old ++ 32 ∷ decimal n) }
{
    text.push(b" ")?;
    text.push_number(n)
}

// The line of a word and a number.
pub(crate) fn push_counted(text: &mut Text, word: &[u8], n: usize) -> Result<(), AllocError>
    ensures { OnOk result (text.new ≡ text.old ++ text_of (lines.counted word.now n ∷ [])) }
{
    text.push(word)?;
    text.push(b" ")?;
    text.push_number(n)?;
    text.push(b"\n")
}

pub(crate) fn push_set(text: &mut Text, set: u32) -> Result<(), AllocError>
    ensures { OnOk result (text.new ≡ text.old ++ text_of (lines.set_line set ∷ [])) }
{
    text.push(b"set")?;
    push_spaced(text, set)?;
    text.push(b"\n")
}

pub(crate) fn push_sets(text: &mut Text, sets: &[u32]) -> Result<(), AllocError>
    ensures { OnOk result (text.new ≡ text.old ++ text_of (map lines.set_line sets.now)) }
{
    for set in sets {
        push_set(text, *set)?;
    }
    Ok(())
}

fn push_layer(text: &mut Text, layer: &Layer<u32>) -> Result<(), AllocError>
    ensures { OnOk result (text.new ≡ text.old ++ text_of (lines.layer_line layer.now ∷ [])) }
{
    text.push(b"layer")?;
    push_spaced(text, layer.avoid)?;
    push_spaced(text, layer.set)?;
    text.push(b"\n")
}

pub(crate) fn push_layers(text: &mut Text, layers: &[Layer<u32>]) -> Result<(), AllocError>
    ensures { OnOk result (text.new ≡ text.old ++ text_of (map lines.layer_line layers.now)) }
{
    for layer in layers {
        push_layer(text, layer)?;
    }
    Ok(())
}

// The layers behind their number.
pub(crate) fn push_nonfair(text: &mut Text, layers: &[Layer<u32>]) -> Result<(), AllocError>
    ensures { OnOk result (text.new ≡ text.old ++ text_of (lines.nonfair_lines layers.now)) }
{
    push_counted(text, b"nonfair", layers.len())?;
    push_layers(text, layers)
}

// The sets that lead to constraint k, counted from 1.
fn push_reach(text: &mut Text, k: usize, sets: &[u32]) -> Result<(), AllocError>
    ensures { OnOk result (text.new ≡ text.old ++ text_of (lines.reach_lines k (sets.now ∷ []))) }
{
    text.push(b"reach ")?;
    text.push_number(k)?;
    text.push(b" ")?;
    text.push_number(sets.len())?;
    text.push(b"\n")?;
    push_sets(text, sets)
}

// Those of all constraints.
fn push_reaches(text: &mut Text, lists: &[Vec<u32>]) -> Result<(), AllocError>
    ensures { OnOk result (text.new ≡ text.old ++ text_of
        (lines.reach_lines 1 (map (λ sets. sets.items) lists.now))) }
{
    for (k, sets) in lists.iter().enumerate() {
        push_reach(text, k + 1, sets)?;
    }
    Ok(())
}

pub(crate) fn push_fair(text: &mut Text, part: &FairPart<u32>) -> Result<(), AllocError>
    ensures { OnOk result (text.new ≡ text.old ++ text_of (lines.fair_lines part.now)) }
{
    text.push(b"fair")?;
    push_spaced(text, part.inside)?;
    text.push(b"\n")?;
    push_reaches(text, &part.reach)
}
