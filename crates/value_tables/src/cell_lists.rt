//! The cells of a table, with an index by which a reading's cell is found.

ghost use Rattle.std.specs.Prelude.{◌≡◌, ◌<◌, ◌++◌, ◌∷◌, [], None, OnOk, length, position};
ghost use Rattle.value_tables.specs.Cells.{fault_number, same_reading, region_at};
ghost use Rattle.value_tables.specs.CellLists.{key_of, key_number, with_region};

use crate::cells::Cell;
use bdd_nodes::Ref;
use indexmap::IndexSet;
use kripke_model::expressions::{FaultKind, Value};
use std::alloc::{AllocError, Global};
use std::hash::{Hash, Hasher};
use std::marker::Model;
use std::ops::DerefSlice;

/// A reading as a key of the index.
#[derive(Clone, Copy, PartialEq, Eq)]
pub(crate) enum Key {
    Number(i32),
    Symbol(u32),
    Fault(u8),
}

impl Key {
    /// A number by which the key is hashed.
    fn number(self) -> u64
        ensures { result ≡ key_number self }
    {
        match self {
            Key::Number(i) => u64::from(i.unsigned_abs()),
            Key::Symbol(c) => 0x1_0000_0000 + u64::from(c),
            Key::Fault(k) => 0x2_0000_0000 + u64::from(k),
        }
    }
}

// One number is hashed by one multiplication, where a derived `Hash` makes one for each field.
impl Hash for Key {
    ghost use Rattle.std.specs.Hash as fed;
    ghost use Rattle.std.proofs.Common.{rules};
    ghost use Rattle.std.specs.Cmp.Rules.{hashing};

    ghost hash_input = { λ k. fed.u64 (key_number k) };

    ghost respects_eq = { Prim.search (hashing, rules) };

    fn hash<H: Hasher>(&self, state: &mut H) {
        state.write_u64(self.number());
    }
}

fn number_of(kind: FaultKind) -> u8
    ensures { result ≡ fault_number kind }
{
    match kind {
        FaultKind::ManyValues => 0,
        FaultKind::NotNumber => 1,
        FaultKind::NotBoolean => 2,
        FaultKind::ZeroDivisor => 3,
        FaultKind::Overflow => 4,
        FaultKind::OutOfType => 5,
    }
}

/// The key of a reading: equal readings have equal keys, and no others do.
fn key_of(reading: Result<Value, FaultKind>) -> Key
    ensures { result ≡ key_of reading }
{
    match reading {
        Ok(Value::Number(i)) => Key::Number(i),
        Ok(Value::Symbol(c)) => Key::Symbol(c),
        Err(kind) => Key::Fault(number_of(kind)),
    }
}

/// The cells of a table.
#[derive(Drop)]
pub(crate) struct CellList {
    items: Vec<Cell>,
    /// The keys of the cells' readings, in the same order.
    index: IndexSet<Key>,
}

impl Model for CellList {
    ghost use Rattle.std.specs.Prelude.{◌≡◌};
    ghost use Rattle.value_tables.specs.CellLists.{CellItems, keys_of};

    ghost Value = { CellItems };

    ghost view = { λ c. record { items = c.items.items } };

    ghost invariant = { λ c. c.index.keys ≡ keys_of c.items.items };
}

impl DerefSlice for CellList {
    type Elem = Cell;

    ghost deref_gives = { λ c xs. xs ≡ c.items };

    fn deref(&self) -> &[Cell]
        ensures value { result.now ≡ self.now.items }
    {
        self.items.as_slice()
    }
}

impl CellList {
    /// No cells.
    pub(crate) fn new(alloc: Global) -> CellList
        ensures items { result.items ≡ [] }
    {
        CellList {
            items: Vec::new(alloc),
            index: IndexSet::new(alloc),
        }
    }

    /// The place of the reading's cell.
    pub(crate) fn place_of(&self, reading: Result<Value, FaultKind>) -> Option<usize>
        ensures { result ≡ position (λ c. same_reading reading c.reading) self.now.items }
    {
        self.index.get_index_of(&key_of(reading))
    }

    /// The region of the reading: the empty one where no cell has it.
    pub(crate) fn region_of(&self, reading: Result<Value, FaultKind>) -> Ref
        ensures { result ≡ region_at self.now.items reading }
    {
        match self.place_of(reading) {
            Some(place) => self.items[place].region,
            None => Ref::FALSE,
        }
    }

    /// Gives the cell at a place another region.
    pub(crate) fn set_region(&mut self, place: usize, region: Ref)
        requires { place < length self.old.items }
        ensures { self.new.items ≡ with_region self.old.items place region }
    {
        self.items[place].region = region;
    }

    /// Adds a cell of a reading that has none.
    pub(crate) fn push(&mut self, cell: Cell) -> Result<(), AllocError>
        requires { position (λ c. same_reading cell.reading c.reading) self.old.items ≡ None }
        ensures items { OnOk result (self.new.items ≡ self.old.items ++ cell ∷ []) }
    {
        self.items.reserve(1)?;
        self.index.insert(key_of(cell.reading))?;
        self.items.push(cell)?;
        Ok(())
    }
}
