ghost use Rattle.std.specs.Prelude.{◌≡◌, ℕ, ◌+◌, ◌<◌, ◌≤◌, ◌^◌, ◌⊎◌, if◌then◌else◌};
ghost use Rattle.std.specs.Prelude.{List, [], ◌∷◌, length, map, Option};
ghost use Rattle.std.specs.Prelude.{replicate, slice_get, is_some, None, Some, Contains, IfOk, IfSome, OnOk, OnErr};
ghost use Rattle.std.specs.Map.{lookup as found};
ghost use Rattle.std.specs.List.Sorted.{IsPermutation};
ghost use Rattle.std.specs.NonZero.{non_zero_usize_get};
ghost use Rattle.answer_memo.specs.Memo.{memo, entries_in};
ghost use Rattle.answer_memo.specs.declared.memo.Slot.{Slot as Cell};
ghost use Rattle.answer_memo.specs.declared.memo.Slot.TheVariants.{Free};
ghost use Rattle.answer_memo.specs.Slots.{swept, slot_value, may_rest, is_in, is_full, IfFull, settled, IsSpread};
ghost use Rattle.lru.specs.LruCache.{lru_cache};

use crate::place::place_of;
use lru::LruCache;
use std::alloc::{AllocError, Global};
use std::hash::Hash;
use std::marker::Model;
use std::num::NonZeroUsize;

/// The most slots that a memo has.
const SLOTS: usize = 0x10_0000;

/// An entry in a slot, with the round in which it came.
#[derive(Clone, Copy)]
pub(crate) struct Held<K, V> {
    key: K,
    value: V,
    round: u32,
    // whether it took the slot from another entry of its round, so that the cache may have one
    shared: bool,
}

/// What stands in a slot.
#[derive(Clone, Copy)]
pub(crate) enum Slot<K, V> {
    Full(Held<K, V>),
    Free,
}

/// A memo of bounded size. An entry of this round is kept as long as there are fewer of them than
/// the capacity; an older one gives way to any other that wants its slot, and all older ones give
/// way where the memo is full.
#[derive(Drop)]
pub struct Memo<K: Copy + Eq + Hash, V: Copy> {
    // each key has one slot, by its hash
    slots: Vec<Slot<K, V>>,
    // how many of the slots hold an entry
    filled: usize,
    // entries of this round whose slot was wanted by another
    rest: LruCache<K, V>,
    round: u32,
    // how many entries are of this round
    fresh: usize,
    capacity: usize,
    alloc: Global,
}

impl<K: Copy + Eq + Hash, V: Copy> Model for Memo<K, V> {
    ghost use Rattle.std.specs.Prelude.{◌++◌};
    ghost use Rattle.answer_memo.specs.Memo.{Memo as Entries, memo, memo_code};

    ghost Value = { Entries K V };

    ghost coded = { memo_code K.code V.code };

    ghost use Rattle.answer_memo.specs.Slots.{of_round, of_others, IsFit};

    ghost view = { λ m. memo (of_round m.round m.slots.items ++ m.rest.entries)
        (of_others m.round m.slots.items) m.capacity };

    ghost invariant = { λ m. IsFit K.eq K.hash_input m.slots.items m.filled m.rest m.round m.fresh
        m.capacity };
}

impl<K: Copy + Eq + Hash, V: Copy> Memo<K, V> {
    /// A memo of at most `capacity` entries, which holds none, and has slots for `room` entries, as
    /// far as there may be as many. Where there is no memory for slots it has none.
    pub fn new(alloc: Global, capacity: NonZeroUsize, room: usize) -> Result<Self, AllocError>
        ensures { IfOk result (λ m. m ≡ memo [] [] (non_zero_usize_get capacity)) }
    {
        let most = capacity.get();
        Ok(Memo {
            slots: empty_slots(alloc, most_slots(most).min(room)),
            filled: 0,
            rest: LruCache::sparse(alloc, capacity)?,
            round: 0,
            fresh: 0,
            capacity: most,
            alloc,
        })
    }

    /// The value of the key, if there is an entry with it.
    #[inline(never)]
    pub fn find(&self, key: &K) -> Option<V>
        ensures { result ≡ found (K.eq key.now) (entries_in self.now) }
    {
        self.look_up(key)
    }

    /// Whether there is an entry with the key.
    #[inline(always)]
    pub fn has(&self, key: &K) -> bool
        ensures { result ≡ is_some (found (K.eq key.now) (entries_in self.now)) }
    {
        self.look_up(key).is_some()
    }

    /// The value of the key. It is put into its callers, which have the key's hash from it.
    #[inline(always)]
    fn look_up(&self, key: &K) -> Option<V>
        ensures { result ≡ found (K.eq key.now) (entries_in self.now) }
    {
        let at = place_of(key, self.slots.len());
        if let Some(value) = value_at(self.slots.as_slice(), at, *key) {
            return Some(value);
        }
        if !is_shared(self.slots.as_slice(), at) {
            return None;
        }
        if self.rest.is_empty() {
            return None;
        }
        self.rest.peek(key).copied()
    }

    /// Adds an entry of this round, whose key no entry has. Where as many are of this round as the
    /// capacity, a new round begins first. Want of memory leaves the entry out.
    #[inline(always)]
    pub fn insert(&mut self, key: K, value: V) -> Result<(), AllocError>
        requires { found (K.eq key) (entries_in self.old) ≡ None }
        ensures fresh { length self.old.fresh < self.old.cap
            → OnOk result (IsPermutation ((key, value) ∷ self.old.fresh) self.new.fresh) }
        ensures full { self.old.cap ≤ length self.old.fresh
            → OnOk result (IsPermutation ((key, value) ∷ []) self.new.fresh) }
        ensures err_fresh { length self.old.fresh < self.old.cap
            → OnErr result (self.new.fresh ≡ self.old.fresh) }
        ensures err_full { self.old.cap ≤ length self.old.fresh
            → OnErr result (self.new.fresh ≡ []) }
        ensures err_within { OnErr result ((k : K) (v : V) → Contains (entries_in self.new) (k, v)
            → Contains (entries_in self.old) (k, v)) }
        ensures others { (k : K) (v : V) → Contains (entries_in self.new) (k, v)
            → ((k ≡ key) × (v ≡ value)) ⊎ Contains (entries_in self.old) (k, v) }
        ensures few { length (entries_in self.new) ≤ self.new.cap }
        ensures capacity { self.new.cap ≡ self.old.cap }
    {
        self.renew();
        self.make_room();
        let at = place_of(&key, self.slots.len());
        if at >= self.slots.len() {
            set_aside(&mut self.rest, key, value)?;
            self.fresh += 1;
            return Ok(());
        }
        let slot = self.slots[at];
        let newly = settle(&mut self.rest, slot, self.round)?;
        self.filled += newly;
        self.slots[at] = Slot::Full(Held {
            key,
            value,
            round: self.round,
            shared: is_of(slot, self.round),
        });
        self.fresh += 1;
        Ok(())
    }

    /// Begins a round where as many entries are of this one as the capacity.
    fn renew(&mut self)
        ensures kept { length self.old.fresh < self.old.cap → self.new ≡ self.old }
        ensures full { self.old.cap ≤ length self.old.fresh → self.new.fresh ≡ [] }
        ensures below { length self.new.fresh < self.new.cap }
        ensures within { (k : K) (v : V) → Contains (entries_in self.new) (k, v)
            → Contains (entries_in self.old) (k, v) }
        ensures capacity { self.new.cap ≡ self.old.cap }
    {
        if self.fresh >= self.capacity {
            self.begin();
        }
    }

    /// Makes room for one entry more.
    fn make_room(&mut self)
        requires { length self.old.fresh < self.old.cap }
        ensures fresh { self.new.fresh ≡ self.old.fresh }
        ensures within { (k : K) (v : V) → Contains (entries_in self.new) (k, v)
            → Contains (entries_in self.old) (k, v) }
        ensures room { length (entries_in self.new) < self.new.cap }
        ensures capacity { self.new.cap ≡ self.old.cap }
    {
        if self.filled + self.rest.len() >= self.capacity {
            sweep(&mut self.slots, Some(self.round));
            self.filled = self.fresh - self.rest.len();
        }
    }

    /// Begins a round: every entry is an older one from now on.
    pub fn begin(&mut self)
        ensures fresh { self.new.fresh ≡ [] }
        ensures within { (k : K) (v : V) → Contains self.new.old (k, v)
            → Contains (entries_in self.old) (k, v) }
        ensures few { length self.new.old ≤ self.new.cap }
        ensures some { 0 < self.new.cap }
        ensures capacity { self.new.cap ≡ self.old.cap }
    {
        if self.round == u32::MAX {
            self.clear();
            return;
        }
        forget(&mut self.rest);
        self.round += 1;
        self.fresh = 0;
        self.widen();
    }

    /// Makes four times as many slots where more than half of them are filled, as far as there may be
    /// more and memory allows. Of two entries that now want one slot the first is forgotten.
    fn widen(&mut self)
        requires { self.old.fresh ≡ [] }
        ensures fresh { self.new.fresh ≡ [] }
        ensures within { (k : K) (v : V) → Contains (entries_in self.new) (k, v)
            → Contains (entries_in self.old) (k, v) }
        ensures few { length (entries_in self.new) ≤ self.new.cap }
        ensures capacity { self.new.cap ≡ self.old.cap }
    {
        let held = self.slots.len();
        if self.filled <= held / 2 {
            return;
        }
        let wanted = most_slots(self.capacity).min(4 * held);
        if wanted <= held {
            return;
        }
        let mut slots = empty_slots(self.alloc, wanted);
        if slots.is_empty() {
            return;
        }
        self.filled = spread(self.slots.as_slice(), &mut slots);
        self.slots = slots;
    }

    /// Forgets every entry.
    pub fn clear(&mut self)
        ensures { self.new ≡ memo [] [] self.old.cap }
    {
        sweep(&mut self.slots, None);
        forget(&mut self.rest);
        self.filled = 0;
        self.round = 0;
        self.fresh = 0;
    }
}

/// The value in this slot, if it holds the key.
#[inline(always)]
fn value_at<K: Copy + Eq, V: Copy>(slots: &[Slot<K, V>], at: usize, key: K) -> Option<V>
    ensures { result ≡ slot_value (K.eq key) (slice_get slots.now at) }
{
    match slots.get(at) {
        Some(Slot::Full(held)) if held.key == key => Some(held.value),
        _ => None,
    }
}

/// Whether the cache may have an entry whose slot is this one.
#[inline(always)]
fn is_shared<K: Copy, V: Copy>(slots: &[Slot<K, V>], at: usize) -> bool
    ensures { result ≡ may_rest (slice_get slots.now at) }
{
    match slots.get(at) {
        Some(Slot::Full(held)) => held.shared,
        Some(Slot::Free) => false,
        None => true,
    }
}

/// Whether the slot holds an entry of this round.
#[inline(always)]
fn is_of<K: Copy, V: Copy>(slot: Slot<K, V>, round: u32) -> bool
    ensures { result ≡ is_in round slot }
{
    match slot {
        Slot::Full(held) => held.round == round,
        Slot::Free => false,
    }
}

/// How many slots a memo of this capacity has at most: fewer than entries, so that it is full only
/// where many entries are in the cache.
fn most_slots(capacity: usize) -> usize
    ensures few { result ≤ capacity }
    ensures most { result ≤ 2 ^ 20 }
{
    (capacity - capacity / 8).min(SLOTS)
}

/// The slots, all empty, or none where they find no memory.
fn empty_slots<K: Copy, V: Copy>(alloc: Global, count: usize) -> Vec<Slot<K, V>>
    ensures empty { result.items ≡ replicate (length result.items) Free }
    ensures few { length result.items ≤ count }
{
    match Vec::from_elem(alloc, Slot::Free, count) {
        Ok(slots) => slots,
        Err(_) => Vec::new(alloc),
    }
}

/// Empties the cache, entry by entry: `clear` would pass over all the room that its map once had.
fn forget<K: Copy + Eq + Hash, V: Copy>(rest: &mut LruCache<K, V>)
    ensures { rest.new ≡ lru_cache [] rest.old.cap }
{
    while !rest.is_empty() {
        rest.pop_lru();
    }
}

/// Moves an entry of this round out of a slot into the cache. Gives 1 where the slot was empty.
fn settle<K: Copy + Eq + Hash, V: Copy>(
    rest: &mut LruCache<K, V>,
    slot: Slot<K, V>,
    round: u32,
) -> Result<usize, AllocError>
    requires apart { IfFull slot (λ h. found (K.eq h.key) rest.old.entries ≡ None) }
    requires room { length rest.old.entries < rest.old.cap }
    ensures empty { IfOk result (λ n. n ≡ (if is_full slot then 0 else 1)) }
    ensures rest { OnOk result
        (rest.new ≡ lru_cache (settled round slot rest.old.entries) rest.old.cap) }
    ensures err { OnErr result (rest.new ≡ rest.old) }
{
    let Slot::Full(held) = slot else {
        return Ok(1);
    };
    if held.round == round {
        set_aside(rest, held.key, held.value)?;
    }
    Ok(0)
}

/// Puts an entry into the cache, which has none with its key.
fn set_aside<K: Copy + Eq + Hash, V: Copy>(
    rest: &mut LruCache<K, V>,
    key: K,
    value: V,
) -> Result<(), AllocError>
    requires apart { found (K.eq key) rest.old.entries ≡ None }
    requires room { length rest.old.entries < rest.old.cap }
    ensures ok { OnOk result (rest.new ≡ lru_cache ((key, value) ∷ rest.old.entries) rest.old.cap) }
    ensures err { OnErr result (rest.new ≡ rest.old) }
{
    rest.put(key, value)?;
    Ok(())
}

/// Moves the entries of the slots into others, which are empty. Gives how many are filled.
fn spread<K: Copy + Eq + Hash, V: Copy>(from: &[Slot<K, V>], to: &mut Vec<Slot<K, V>>) -> usize
    requires empty { to.old.items ≡ replicate (length to.old.items) Free }
    requires few { length to.old.items ≤ 2 ^ 20 }
    ensures spread { IsSpread K.hash_input from.now to.new.items result }
    ensures length { length to.new.items ≡ length to.old.items }
{
    let mut filled = 0;
    let mut i = 0;
    while i < from.len() {
        filled += move_in(from[i], to);
        i += 1;
    }
    filled
}

/// Moves the entry of a slot into its place. Gives 1 where that was empty.
fn move_in<K: Copy + Eq + Hash, V: Copy>(slot: Slot<K, V>, to: &mut Vec<Slot<K, V>>) -> usize
    requires { length to.old.items ≤ 2 ^ 20 }
    ensures spread { (from : List (Cell K V)) (i n : ℕ) → slice_get from i ≡ Some slot
        → IsSpread K.hash_input from to.old.items n
        → IsSpread K.hash_input from to.new.items (n + result) }
    ensures length { length to.new.items ≡ length to.old.items }
    ensures one { result ≤ 1 }
{
    let Slot::Full(held) = slot else {
        return 0;
    };
    let at = place_of(&held.key, to.len());
    if at >= to.len() {
        return 0;
    }
    let newly = one_if_free(&to[at]);
    to[at] = Slot::Full(held);
    newly
}

/// 1 for a free slot, and else 0.
#[inline(always)]
fn one_if_free<K: Copy, V: Copy>(slot: &Slot<K, V>) -> usize
    ensures { result ≡ (if is_full slot.now then 0 else 1) }
{
    match slot {
        Slot::Full(_) => 0,
        Slot::Free => 1,
    }
}

/// Empties the slots but for those with an entry of this round.
fn sweep<K: Copy, V: Copy>(slots: &mut Vec<Slot<K, V>>, round: Option<u32>)
    ensures { slots.new.items ≡ map (swept round) slots.old.items }
{
    let mut i = 0;
    while i < slots.len() {
        slots[i] = left_of(slots[i], round);
        i += 1;
    }
}

/// The slot, emptied where its entry is of another round.
#[inline(always)]
fn left_of<K: Copy, V: Copy>(slot: Slot<K, V>, round: Option<u32>) -> Slot<K, V>
    ensures { result ≡ swept round slot }
{
    match (slot, round) {
        (Slot::Full(held), Some(kept)) if held.round == kept => Slot::Full(held),
        _ => Slot::Free,
    }
}
