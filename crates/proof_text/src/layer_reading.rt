// From lines to layers.

ghost use Rattle.std.specs.Prelude.{◌≡◌, ◌∷◌, ◌≤◌, ◌+◌, [], length, map, codes};
ghost use Rattle.proof_text.specs.Lines as lines;
ghost use Rattle.proof_text.specs.SetParts.{AreLayers, Finds, FitsLayer, FitsLayers, Judges, in_list};
ghost use Rattle.proof_text.specs.Spells.{greatest_number};

use crate::line_words::numbers_behind;
use crate::set_reading::count_in;
use proof_form::form::Layer;
use std::alloc::Global;
use text_lines::cursor::Cursor;
use text_lines::faults::Fault;

fn layer_in(text: &[u8], count: usize, most: u64) -> Option<Layer<u32>>
    requires few { count ≤ 4294967295 }
    ensures { Judges (FitsLayer count most) lines.layer_line text.now result }
{
    let (avoid, set) = numbers_behind(text, b"layer")?;
    if avoid == 0 {
        return None;
    }
    if avoid as usize > count {
        return None;
    }
    if u64::from(set) >= most {
        return None;
    }
    Some(Layer { avoid, set })
}

// A layer that avoids one of so many constraints.
fn read_layer(cursor: &mut Cursor<'_>, count: usize, most: u64) -> Result<Layer<u32>, Fault>
    requires room { cursor.old.line + length cursor.old.left ≤ 4294967295 }
    requires few { count ≤ 4294967295 }
    requires one { 1 ≤ count }
    requires some { 1 ≤ most }
    ensures { Finds (FitsLayer count most) (λ l. lines.layer_line l ∷ []) cursor.old result
        cursor.new }
{
    let line = cursor.line();
    let Some(text) = cursor.next() else {
        return Err(Fault::End);
    };
    layer_in(text, count, most).ok_or(Fault::Stops { line })
}

// So many layers. The number reserves no memory.
pub(crate) fn read_layers(
    alloc: Global,
    cursor: &mut Cursor<'_>,
    n: u32,
    count: usize,
    most: u64,
) -> Result<Vec<Layer<u32>>, Fault>
    requires room { cursor.old.line + length cursor.old.left ≤ 4294967295 }
    requires few { count ≤ 4294967295 }
    requires one { 1 ≤ count }
    requires some { 1 ≤ most }
    ensures { Finds (AreLayers count most n) (map lines.layer_line) cursor.old (in_list result)
        cursor.new }
{
    let mut layers = Vec::new(alloc);
    for _ in 0..n {
        let layer = read_layer(cursor, count, most)?;
        let Ok(()) = layers.push(layer) else {
            return Err(Fault::Memory);
        };
    }
    Ok(layers)
}

fn read_layer_count(cursor: &mut Cursor<'_>) -> Result<u32, Fault>
    requires room { cursor.old.line + length cursor.old.left ≤ 4294967295 }
    ensures { Finds (λ n. n ≤ greatest_number) (λ n. lines.counted (codes "nonfair") n ∷ [])
        cursor.old result cursor.new }
{
    let line = cursor.line();
    let Some(text) = cursor.next() else {
        return Err(Fault::End);
    };
    count_in(text, b"nonfair").ok_or(Fault::Stops { line })
}

// The layers of states where no fair path begins, behind their number.
pub(crate) fn read_nonfair(
    alloc: Global,
    cursor: &mut Cursor<'_>,
    count: usize,
    most: u64,
) -> Result<Vec<Layer<u32>>, Fault>
    requires room { cursor.old.line + length cursor.old.left ≤ 4294967295 }
    requires few { count ≤ 4294967295 }
    requires one { 1 ≤ count }
    requires some { 1 ≤ most }
    ensures { Finds (FitsLayers count most) lines.nonfair_lines cursor.old (in_list result)
        cursor.new }
{
    let n = read_layer_count(cursor)?;
    let layers = read_layers(alloc, cursor, n, count, most)?;
    Ok(layers)
}
