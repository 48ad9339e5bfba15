ghost use Rattle.std.specs.Prelude.{◌≡◌};

/// Evidence that a store was full. `Store::make` alone makes one, where it answers `Full`; it is
/// neither copied nor cloned.
#[derive(Debug, Drop, PartialEq, Eq)]
pub struct Held {
    pub(crate) levels: u32,
    pub(crate) number: u32,
}

impl Held {
    ghost use Rattle.bdd_nodes.specs.Refusal.{levels_shown, number_shown};

    /// The number of levels of the store that refused.
    pub fn levels(&self) -> u32
        ensures { result ≡ levels_shown self.now }
    {
        self.levels
    }

    /// The limit of the store that refused, which is the number of triples that it held.
    pub fn number(&self) -> u32
        ensures { result ≡ number_shown self.now }
    {
        self.number
    }
}

/// Why a triple found no place in a store.
#[derive(Debug, Drop, PartialEq, Eq)]
pub enum StoreRefusal {
    /// The store holds as many triples as its limit allows.
    Full { held: Held },
    /// The table found no memory.
    Memory,
}
