ghost use Rattle.std.specs.Prelude.{◌≡◌, ◌≢◌, ℕ, ◌+◌, ◌<◌, ◌≤◌, ◌^◌, ◌↔◌, ◌∷◌, ◌++◌, length, IsTrue, IsNone, IfOk, IfErr, OnOk, OnErr};
ghost use Rattle.bdd_nodes.specs.Table.{IsGood};

use crate::makes::Makes;
use crate::{Held, Ref, StoreRefusal, Triple};
use indexmap::IndexSet;
use std::alloc::{AllocError, Global};

/// A node table: the triples of diagrams that share their nodes, each once.
#[derive(Drop)]
pub struct Store {
    levels: u32,
    limit: u32,
    nodes: IndexSet<Triple>,
    makes: Makes,
    pub ghost few_levels: { levels ≤ 256 },
    pub ghost low_limit: { limit < 2 ^ 31 },
    pub ghost within_limit: { length nodes.keys ≤ limit },
    // deeper and earlier children that differ, and no triple twice
    pub ghost good: { IsGood levels nodes.keys },
}

impl Store {
    ghost use Rattle.bdd_nodes.specs.Store.{levels_of, limit_of, triples, makes_of, Has, level_of, node_of, value_of, triple, IsAbsent, Grows, IsNodeOf, IsFullFor};
    ghost use Rattle.bdd_nodes.specs.Refusal.{IsFull, IsRefusalOf};
    ghost use Rattle.std.specs.Prelude.{[]};

    /// An empty store for diagrams over `levels` bits, at most 256, that holds at most `limit`
    /// triples, less than 2^31. A limit reserves no memory: the table grows as triples come.
    pub fn new(alloc: Global, levels: u32, limit: u32) -> Result<Store, AllocError>
        requires levels { levels ≤ 256 }
        requires limit { limit < 2 ^ 31 }
        ensures levels { IfOk result (λ s. levels_of s ≡ levels) }
        ensures limit { IfOk result (λ s. limit_of s ≡ limit) }
        ensures empty { IfOk result (λ s. triples s ≡ []) }
        ensures makes { IfOk result (λ s. makes_of s ≡ 0) }
    {
        Store::with_room(alloc, levels, limit, 0)
    }

    /// The same, with memory for `room` triples before the first one comes.
    pub fn with_room(alloc: Global, levels: u32, limit: u32, room: u32) -> Result<Store, AllocError>
        requires levels { levels ≤ 256 }
        requires limit { limit < 2 ^ 31 }
        ensures levels { IfOk result (λ s. levels_of s ≡ levels) }
        ensures limit { IfOk result (λ s. limit_of s ≡ limit) }
        ensures empty { IfOk result (λ s. triples s ≡ []) }
        ensures makes { IfOk result (λ s. makes_of s ≡ 0) }
    {
        Ok(Store {
            levels,
            limit,
            nodes: IndexSet::with_capacity(alloc, room as usize)?,
            makes: Makes::none(),
        })
    }

    /// The number of levels.
    pub fn levels(&self) -> u32
        ensures { result ≡ levels_of self.now }
    {
        self.levels
    }

    /// The limit on the number of triples.
    pub fn limit(&self) -> u32
        ensures { result ≡ limit_of self.now }
    {
        self.limit
    }

    /// How many triples there are.
    pub fn count(&self) -> u32
        ensures { result ≡ length (triples self.now) }
    {
        self.nodes.len() as u32
    }

    /// Whether the store has the diagram.
    pub fn has(&self, r: Ref) -> bool
        ensures { IsTrue result ↔ Has self.now r }
    {
        (r.number as usize) < self.nodes.len() + 2
    }

    /// The triple of a diagram, which the constants alone lack.
    pub fn node(&self, r: Ref) -> Option<Triple>
        requires { Has self.now r }
        ensures node { result ≡ node_of self.now r }
        ensures constant { IsNone result ↔ (r < 2) }
    {
        if r.number < 2 {
            return None;
        }
        self.nodes.get_index(r.number as usize - 2).copied()
    }

    /// The level of a diagram's triple, and for a constant the number of levels.
    pub fn level(&self, r: Ref) -> u32
        requires { Has self.now r }
        ensures { result ≡ level_of self.now r }
    {
        match self.node(r) {
            Some(triple) => triple.level,
            None => self.levels,
        }
    }

    /// The value of a diagram at a list of bits, one for each level.
    pub fn value(&self, r: Ref, bits: &[bool]) -> bool
        requires has { Has self.now r }
        requires bits { length bits.now ≡ levels_of self.now }
        ensures { result ≡ value_of self.now r bits.now }
    {
        let mut at = r;
        while let Some(triple) = self.node(at) {
            at = triple.child(bits[triple.level as usize]);
        }
        at == Ref::TRUE
    }

    /// The diagram that is `high` where the level's bit is set and else `low`; both lie at deeper
    /// levels or are constants. Equal children give that child, and a triple that is there gives
    /// its diagram. `Full` comes where a new triple is wanted and the table holds `limit` triples,
    /// and `Memory` where it finds no memory; both leave the table as it was. Each call is counted,
    /// whatever comes of it, and no other call is: the count is there for contracts alone.
    pub fn make(&mut self, level: u32, low: Ref, high: Ref) -> Result<Ref, StoreRefusal>
        requires level { level < levels_of self.old }
        requires low { Has self.old low }
        requires high { Has self.old high }
        requires low_deeper { level < level_of self.old low }
        requires high_deeper { level < level_of self.old high }
        ensures equal { low ≡ high → result ≡ Ok low }
        ensures equal_stays { low ≡ high → triples self.new ≡ triples self.old }
        ensures there { (r : ℕ) → node_of self.old r ≡ Some (triple level low high)
            → result ≡ Ok r }
        ensures there_stays { (r : ℕ) → node_of self.old r ≡ Some (triple level low high)
            → triples self.new ≡ triples self.old }
        ensures added { low ≢ high → IsAbsent self.old level low high
            → OnOk result (triples self.new ≡ triples self.old ++ triple level low high ∷ []) }
        ensures node { IfOk result (IsNodeOf self.new level low high) }
        ensures has { IfOk result (Has self.new) }
        ensures full { IsFull result ↔ IsFullFor self.old level low high }
        ensures held { IfErr result (IsRefusalOf self.new) }
        ensures err { OnErr result (triples self.new ≡ triples self.old) }
        ensures one_more { length (triples self.new) ≤ length (triples self.old) + 1 }
        ensures grows { Grows self.old self.new }
        ensures makes { makes_of self.new ≡ makes_of self.old + 1 }
    {
        self.makes.raise();
        if low == high {
            return Ok(low);
        }
        let triple = decision(level, low, high);
        // below the limit one look-up finds the triple or adds it
        if self.nodes.len() < self.limit as usize {
            let Ok((place, _)) = self.nodes.insert_full(triple) else {
                return Err(StoreRefusal::Memory);
            };
            Ok(at_place(place))
        } else {
            let Some(place) = self.nodes.get_index_of(&triple) else {
                return Err(StoreRefusal::Full {
                    held: Held {
                        levels: self.levels,
                        number: self.limit,
                    },
                });
            };
            Ok(at_place(place))
        }
    }
}

/// The triple of a level and two diagrams.
fn decision(level: u32, low: Ref, high: Ref) -> Triple
    ensures level { result.level ≡ level }
    ensures low { result.low ≡ low }
    ensures high { result.high ≡ high }
{
    Triple {
        level,
        low: low.number,
        high: high.number,
    }
}

/// The diagram of the triple at a place of the table.
fn at_place(place: usize) -> Ref
    requires { place < 2 ^ 31 }
    ensures { result ≡ place + 2 }
{
    Ref {
        number: place as u32 + 2,
    }
}
