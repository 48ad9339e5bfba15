//! Tables of numbers.

ghost use Rattle.std.specs.Prelude.{◌≡◌, ◌<◌, ◌++◌, ◌∷◌, ℕ, [], length, IfOk, OnOk, slice_set};
ghost use Rattle.smv_static.specs.Numbers.{row};

use std::alloc::{AllocError, Global};
use std::marker::Model;

/// A row of a table.
#[derive(Drop)]
pub struct Row {
    items: Vec<u32>,
}

impl Model for Row {
    ghost use Rattle.std.specs.Prelude.{List, ℕ};

    ghost Value = { List ℕ };

    ghost view = { λ r. r.items.items };
}

impl Row {
    pub fn new(alloc: Global) -> Row
        ensures { result ≡ [] }
    {
        Row {
            items: Vec::new(alloc),
        }
    }

    pub fn push(&mut self, x: u32) -> Result<(), AllocError>
        ensures { OnOk result (self.new ≡ self.old ++ x ∷ []) }
    {
        self.items.push(x)?;
        Ok(())
    }

    pub fn items(&self) -> &[u32]
        ensures { result.now ≡ self.now }
    {
        &self.items
    }
}

/// A table of so many empty rows.
pub fn empty_rows(alloc: Global, count: usize) -> Result<Vec<Row>, AllocError>
    ensures rows { IfOk result (λ rows. (x : ℕ) → row rows.items x ≡ []) }
    ensures count { IfOk result (λ rows. length rows.items ≡ count) }
{
    let mut rows = Vec::new(alloc);
    for _ in 0..count {
        rows.push(Row::new(alloc))?;
    }
    Ok(rows)
}

/// The numbers in row x.
pub fn row_at(rows: &[Row], x: usize) -> &[u32]
    ensures { result.now ≡ row rows.now x }
{
    match rows.get(x) {
        Some(row) => row.items(),
        None => &[],
    }
}

/// Puts y at the end of row x.
pub fn push_at(rows: &mut Vec<Row>, x: usize, y: u32) -> Result<(), AllocError>
    requires { x < length rows.old.items }
    ensures pushed { OnOk result
        (rows.new.items ≡ slice_set rows.old.items x (row rows.old.items x ++ y ∷ [])) }
    ensures count { length rows.new.items ≡ length rows.old.items }
{
    rows[x].push(y)
}
