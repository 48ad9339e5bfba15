//! Layouts: which bit of a list speaks of which variable.

ghost use Rattle.std.specs.Prelude.{◌≡◌, ◌+◌, ◌*◌, ◌<◌, ◌≤◌, ℕ, IfOk, IfErr, OnOk, IfNone, IfSome, length};
ghost use Rattle.bit_encode.specs.Code.{IsOrder, IsStateOf, HasBit, IsValid, IsUnused, types_of, code, field, bit_place, bit_count, width_of};
ghost use Rattle.bit_encode.specs.Binary.{number};
ghost use Rattle.bit_encode.specs.Layouts.{Refuses, Accepts};
ghost use Rattle.bit_encode.specs.Laws.{CodesDiffer, CodesAreValid, ValidAreCodes, FieldsSpell, PlacesDiffer, PlacesWithin};

use crate::MAX_STATE_BITS;
use crate::binary::spelled;
use crate::domains::{Domain, domains_of};
use crate::orders::{first_bits, is_order, total_bits};
use kripke_model::models::Ruled;
use kripke_model::states::State;
use std::alloc::{AllocError, AllocFailed, Global};
use std::marker::Model;

/// Why there is no layout.
#[derive(Clone, Copy, PartialEq, Eq, Debug)]
pub enum LayoutRefusal {
    /// The variables take this many bits, more than `MAX_STATE_BITS`. This is answered before any other.
    TooManyBits { bits: u32 },
    /// The order does not name each variable once.
    BadOrder,
    /// Memory ran out.
    Memory,
}

impl From<AllocError> for LayoutRefusal {
    ghost use Rattle.std.specs.Prelude.{◌≡◌};
    ghost use Rattle.bit_encode.specs.declared.layout.LayoutRefusal.TheVariants.{Memory};

    ghost from_gives = { λ _ e. e ≡ Memory };

    fn from(_: AllocError) -> Self {
        LayoutRefusal::Memory
    }
}

impl<T: Drop> From<AllocFailed<T>> for LayoutRefusal {
    ghost use Rattle.std.specs.Prelude.{◌≡◌};
    ghost use Rattle.bit_encode.specs.declared.layout.LayoutRefusal.TheVariants.{Memory};

    ghost from_gives = { λ _ e. e ≡ Memory };

    fn from(_: AllocFailed<T>) -> Self {
        LayoutRefusal::Memory
    }
}

/// The bits of a model's states: those of the variables one after the other, in the layout's order. A variable of n
/// values has the least number of bits with 2 ^ bits >= n, the most significant one first, and they spell the place of
/// its value in its type. A variable of one value has no bits.
#[derive(Drop)]
pub struct Layout {
    domains: Vec<Domain>,
    order: Vec<u32>,
    /// For each variable the place of its first bit.
    firsts: Vec<u32>,
    bits: u32,
}

impl Model for Layout {
    ghost use Rattle.bit_encode.specs.Code.{Coding};
    ghost use Rattle.bit_encode.specs.Kept.{IsLaidOut};

    ghost Value = { Coding };

    ghost view = { λ l. record { types = l.domains.items; order = l.order.items } };

    ghost invariant = { λ l. IsLaidOut
        (record { types = l.domains.items; order = l.order.items }) l.firsts.items l.bits };
}

impl Layout {
    /// The layout of the model's variables in this order, which lists their numbers.
    pub fn new(alloc: Global, model: &Ruled, order: &[u32]) -> Result<Layout, LayoutRefusal>
        ensures layout { IfOk result
            (λ l. l ≡ record { types = types_of model.now; order = order.now }) }
        ensures accepted { OnOk result (Accepts (types_of model.now) order.now) }
        ensures refused { IfErr result (λ e. Refuses (types_of model.now) order.now e) }
    {
        model.rules_law();
        let domains = domains_of(alloc, model.vars())?;
        let bits = total_bits(&domains);
        if bits > MAX_STATE_BITS {
            return Err(LayoutRefusal::TooManyBits { bits });
        }
        if !is_order(alloc, domains.len(), order)? {
            return Err(LayoutRefusal::BadOrder);
        }
        let firsts = first_bits(alloc, &domains, order)?;
        Ok(Layout {
            domains,
            order: order.to_vec(alloc)?,
            firsts,
            bits,
        })
    }

    /// How many bits a state has, from 0 to `MAX_STATE_BITS`.
    pub fn bits(&self) -> u32
        ensures count { result ≡ bit_count self.now.types }
        ensures few { result ≤ MAX_STATE_BITS }
    {
        self.bits
    }

    /// How many bits a variable has, from 0 to 64.
    pub fn width(&self, var: u32) -> u32
        requires { var < length self.now.types }
        ensures bits { result ≡ width_of self.now.types var }
        ensures few { result ≤ 64 }
    {
        self.domains[var as usize].width()
    }

    /// The level of a variable's bit in the current state: twice its place among the bits. Bit 0 is the most
    /// significant one.
    pub fn level_of(&self, var: u32, bit: u32) -> u32
        requires { HasBit self.now var bit }
        ensures { result ≡ 2 * bit_place self.now var bit }
    {
        2 * (self.firsts[var as usize] + bit)
    }

    /// The level of a variable's bit in the next state, which stands right behind that of the current one.
    pub fn next_level_of(&self, var: u32, bit: u32) -> u32
        requires { HasBit self.now var bit }
        ensures { result ≡ 2 * bit_place self.now var bit + 1 }
    {
        self.level_of(var, bit) + 1
    }

    /// The bits of a state.
    pub fn encode(&self, alloc: Global, s: &State) -> Result<Vec<bool>, AllocError>
        requires { IsStateOf self.now.types s.now }
        ensures { IfOk result (λ bits. bits.items ≡ code self.now s.now) }
    {
        let mut bits = Vec::new(alloc);
        for x in &self.order {
            self.domains[*x as usize].push_code(s.value(*x), &mut bits)?;
        }
        Ok(bits)
    }

    /// The number that the bits of a variable spell.
    fn code_at(&self, x: usize, bits: &[bool]) -> usize
        requires known { x < length self.now.types }
        requires long { length bits.now ≡ bit_count self.now.types }
        ensures { result ≡ number (field self.now x bits.now) }
    {
        let first = self.firsts[x] as usize;
        let end = first + self.domains[x].width() as usize;
        spelled(&bits[first..end])
    }

    /// The state with these bits, and `None` where those of some variable are the code of none of its values.
    pub fn decode(&self, alloc: Global, bits: &[bool]) -> Result<Option<State>, AllocError>
        requires { length bits.now ≡ bit_count self.now.types }
        ensures unused { IfOk result (λ o. IfNone o
            ((x : ℕ) × (x < length self.now.types) × IsUnused self.now bits.now x)) }
        ensures valid { IfOk result (λ o. IfSome o (λ s. IsValid self.now bits.now)) }
        ensures state { IfOk result (λ o. IfSome o (λ s. IsStateOf self.now.types s)) }
        ensures code { IfOk result (λ o. IfSome o (λ s. code self.now s ≡ bits.now)) }
    {
        let mut s = State::new(alloc);
        for (x, domain) in self.domains.iter().enumerate() {
            match domain.get(self.code_at(x, bits)) {
                Some(value) => s.push(value)?,
                None => return Ok(None),
            }
        }
        Ok(Some(s))
    }

    /// States and valid codes are one to one.
    pub fn codes_law(&self)
        ensures differ { CodesDiffer self.now }
        ensures valid { CodesAreValid self.now }
        ensures codes { ValidAreCodes self.now }
        ensures fields { FieldsSpell self.now }
    {
        let _bits = self.bits;
    }

    /// The order names each variable once, and the bits of the variables have places of their own, below the number of
    /// bits.
    pub fn places_law(&self)
        ensures ordered { IsOrder (length self.now.types) self.now.order }
        ensures differ { PlacesDiffer self.now }
        ensures within { PlacesWithin self.now }
    {
        let _bits = self.bits;
    }
}
