//! The marked numbers in a list, and where each of them stands in it.

ghost use Rattle.std.specs.Prelude.{◌≡◌, ◌<◌, ◌+◌, ◌^◌, IfOk, OnOk, length, map, slice_index};
ghost use Rattle.region_sets.specs.Ranks.{slots};
ghost use Rattle.block_proofs.specs.Numbered.{AreNumbered, AreNumberedBelow};

use region_sets::Pin;
use std::alloc::{AllocError, Global};

/// Numbers, and for each number its place among them.
#[derive(Drop)]
pub struct Numbered {
    /// The numbers, rising.
    pub numbers: Vec<u32>,
    /// For each number up to the last the place where it stands, if it does.
    pub places: Vec<u32>,
}

/// Adds the next number, if it is marked, and its place.
fn add_number(marks: &[bool], number: u32, list: &mut Numbered) -> Result<(), AllocError>
    requires within { number < length marks.now }
    requires below { AreNumberedBelow marks.now number list.old }
    ensures { OnOk result (AreNumberedBelow marks.now (number + 1) list.new) }
{
    list.places.push(list.numbers.len() as u32)?;
    if marks[number as usize] {
        list.numbers.push(number)?;
    }
    Ok(())
}

/// The marked numbers.
pub fn marked_numbers(alloc: Global, marks: &[bool]) -> Result<Numbered, AllocError>
    requires { length marks.now < 2 ^ 32 }
    ensures { IfOk result (AreNumbered marks.now) }
{
    let mut list = Numbered {
        numbers: Vec::new(alloc),
        places: Vec::new(alloc),
    };
    for number in 0..marks.len() as u32 {
        add_number(marks, number, &mut list)?;
    }
    Ok(list)
}

/// The slot of the pin at a place. There is none beyond the last.
fn slot_at(pins: &[Pin], place: u32) -> u64
    ensures { result ≡ slice_index (slots pins.now) place }
{
    match pins.get(place as usize) {
        Some(pin) => pin.slot,
        None => 0,
    }
}

/// For each number the slot of the pin at its place.
pub fn slots_by_number(alloc: Global, places: &[u32], pins: &[Pin]) -> Result<Vec<u64>, AllocError>
    ensures { IfOk result (λ table.
        table.items ≡ map (λ place. slice_index (slots pins.now) place) places.now) }
{
    let mut table = Vec::new(alloc);
    for place in places {
        table.push(slot_at(pins, *place))?;
    }
    Ok(table)
}
