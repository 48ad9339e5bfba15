//! Builds diagrams that are known to be large, and says how many triples were made: all solutions
//! of the n queens problem; the carry of an n bit adder whose summands' bits stand one summand after
//! the other, which takes more than 2 to the n triples; and preimages of such carries under the
//! transition relation of an n bit counter.
//!
//! Without words a small case of each is counted. `queens N`, `carry N` and `counter N` count
//! one, and say how much processor time its operations took. A third word is the room: so many
//! triples and answers have their memory before the first operation. The steps that `Steps` counts
//! take no bytes at run time, so no program can print them.

ghost use Rattle.std.specs.Prelude.{◌≡◌, ◌<◌, ◌≤◌, true};
ghost use Rattle.std.specs.List.Sorted.{IsStrictlyIncreasing};
ghost use Rattle.bdd_nodes.specs.Steps.{IsBlankOf};

use crate::limits::{CACHE, LIMIT};
use anyhow::{Result, bail};
use bdd_nodes::{Ref, Steps, Store, StoreRefusal};
use bdd_ops::Engine;
use bdd_quantify::and_exists;
use std::alloc::{AllocError, Global};
use std::marker::Brand;
use std::sync::ledger::{Blank, Ledger};
use std::time::CpuClock;

/// Why a count has no answer.
#[derive(Drop)]
enum Failure {
    /// The store refused a triple.
    Refused,
    /// The store lacks a level or a diagram that an operation was to take.
    Absent,
    /// Memory ran out.
    Memory,
}

impl From<AllocError> for Failure {
    fn from(_error: AllocError) -> Failure {
        Failure::Memory
    }
}

/// What is built.
#[derive(Clone, Copy, PartialEq, Eq)]
enum Case {
    Queens,
    Carry,
    Counter,
}

impl Case {
    fn named(word: &str) -> Option<Case> {
        match word {
            "queens" => Some(Case::Queens),
            "carry" => Some(Case::Carry),
            "counter" => Some(Case::Counter),
            _ => None,
        }
    }

    fn name(self) -> &'static str {
        match self {
            Case::Queens => "queens",
            Case::Carry => "carry",
            Case::Counter => "counter",
        }
    }

    fn levels(self, n: u32) -> u32 {
        match self {
            Case::Queens => n.saturating_mul(n),
            Case::Carry | Case::Counter => n.saturating_mul(2),
        }
    }
}

impl From<StoreRefusal> for Failure {
    fn from(_refusal: StoreRefusal) -> Failure {
        Failure::Refused
    }
}

/// What a count made, and the processor time of its operations. The time that tables take before
/// and after them is left out.
struct Outcome {
    triples: u32,
    refused: u64,
    micros: u128,
}

/// The diagram that is true where the level's bit is set.
fn literal(engine: &mut Engine, level: u32) -> Result<Ref, Failure> {
    let (low, high) = (Ref::FALSE, Ref::TRUE);
    let store = engine.store();
    if level < store.levels()
        && store.has(low)
        && store.has(high)
        && level < store.level(low)
        && level < store.level(high)
    {
        Ok(engine.make(level, low, high)?)
    } else {
        Err(Failure::Absent)
    }
}

fn negation<L: Ledger>(engine: &mut Engine, f: Ref, steps: &mut Steps<L>) -> Result<Ref, Failure> {
    if !engine.store().has(f) {
        return Err(Failure::Absent);
    }
    Ok(engine.not(f, steps)?)
}

fn either<L: Ledger>(
    engine: &mut Engine,
    f: Ref,
    g: Ref,
    steps: &mut Steps<L>,
) -> Result<Ref, Failure> {
    if !engine.store().has(f) || !engine.store().has(g) {
        return Err(Failure::Absent);
    }
    Ok(engine.or(f, g, steps)?)
}

fn both<L: Ledger>(
    engine: &mut Engine,
    f: Ref,
    g: Ref,
    steps: &mut Steps<L>,
) -> Result<Ref, Failure> {
    if !engine.store().has(f) || !engine.store().has(g) {
        return Err(Failure::Absent);
    }
    Ok(engine.and(f, g, steps)?)
}

fn same<L: Ledger>(
    engine: &mut Engine,
    f: Ref,
    g: Ref,
    steps: &mut Steps<L>,
) -> Result<Ref, Failure> {
    if !engine.store().has(f) || !engine.store().has(g) {
        return Err(Failure::Absent);
    }
    Ok(engine.iff(f, g, steps)?)
}

fn attacks(a: (u32, u32), b: (u32, u32)) -> bool {
    let same = a.0 == b.0 && a.1 == b.1;
    let line = a.0 == b.0 || a.1 == b.1;
    let falling = a.0.saturating_add(a.1) == b.0.saturating_add(b.1);
    let rising = a.0.saturating_add(b.1) == b.0.saturating_add(a.1);
    !same && (line || falling || rising)
}

fn place(row: u32, column: u32, n: u32) -> u32 {
    row.saturating_mul(n).saturating_add(column)
}

fn some_in_row<L: Ledger>(
    engine: &mut Engine,
    row: u32,
    n: u32,
    steps: &mut Steps<L>,
) -> Result<Ref, Failure> {
    let mut some = Ref::FALSE;
    for column in 0..n {
        let here = literal(engine, place(row, column, n))?;
        some = either(engine, some, here, steps)?;
    }
    Ok(some)
}

fn safe_at<L: Ledger>(
    engine: &mut Engine,
    at: (u32, u32),
    n: u32,
    steps: &mut Steps<L>,
) -> Result<Ref, Failure> {
    let here = literal(engine, place(at.0, at.1, n))?;
    let free = negation(engine, here, steps)?;
    let mut safe = Ref::TRUE;
    for row in 0..n {
        for column in 0..n {
            if attacks(at, (row, column)) {
                let other = literal(engine, place(row, column, n))?;
                let other_free = negation(engine, other, steps)?;
                let apart = either(engine, free, other_free, steps)?;
                safe = both(engine, safe, apart, steps)?;
            }
        }
    }
    Ok(safe)
}

fn queens<L: Ledger>(engine: &mut Engine, n: u32, blank: Blank) -> Result<Ref, Failure>
    requires blank { IsBlankOf L.name L.parts blank }
{
    let mut count = Steps::<L>::new(blank);
    let steps = &mut count;
    let mut all = Ref::TRUE;
    for row in 0..n {
        let some = some_in_row(engine, row, n, steps)?;
        all = both(engine, all, some, steps)?;
    }
    for row in 0..n {
        for column in 0..n {
            let safe = safe_at(engine, (row, column), n, steps)?;
            all = both(engine, all, safe, steps)?;
        }
    }
    Ok(all)
}

/// The carry out of one more bit of two summands, at these levels.
fn carried<L: Ledger>(
    engine: &mut Engine,
    at: (u32, u32),
    carry: Ref,
    steps: &mut Steps<L>,
) -> Result<Ref, Failure> {
    let left = literal(engine, at.0)?;
    let right = literal(engine, at.1)?;
    let some = either(engine, left, right, steps)?;
    let passed = both(engine, some, carry, steps)?;
    let all = both(engine, left, right, steps)?;
    either(engine, passed, all, steps)
}

/// The carry out of the lowest `n` bits of two summands: the one's bits are the levels below `n`,
/// the other's those from `n` on.
fn carry<L: Ledger>(engine: &mut Engine, n: u32, blank: Blank) -> Result<Ref, Failure>
    requires blank { IsBlankOf L.name L.parts blank }
{
    let mut count = Steps::<L>::new(blank);
    let steps = &mut count;
    let mut carry = Ref::FALSE;
    for bit in 0..n {
        carry = carried(engine, (bit, n.saturating_add(bit)), carry, steps)?;
    }
    Ok(carry)
}

/// The level of a bit of the counter's current number. Bit 0 is the least significant.
fn current(bit: u32) -> u32 {
    bit.saturating_mul(2)
}

/// The level of a bit of the counter's next number.
fn next(bit: u32) -> u32 {
    bit.saturating_mul(2).saturating_add(1)
}

/// The transition relation of a counter of `n` bits: each next bit is the exclusive or of the
/// current one and of the conjunction of those below it.
fn counting<L: Ledger>(engine: &mut Engine, n: u32, steps: &mut Steps<L>) -> Result<Ref, Failure> {
    let mut relation = Ref::TRUE;
    let mut carry = Ref::TRUE;
    for bit in 0..n {
        let now = literal(engine, current(bit))?;
        let then = literal(engine, next(bit))?;
        let stays = same(engine, now, carry, steps)?;
        let flips = negation(engine, stays, steps)?;
        let step = same(engine, then, flips, steps)?;
        relation = both(engine, relation, step, steps)?;
        carry = both(engine, carry, now, steps)?;
    }
    Ok(relation)
}

/// The levels of all bits of the counter's next number.
fn next_levels(alloc: Global, n: u32) -> Result<Vec<u32>, AllocError> {
    let mut levels = Vec::new(alloc);
    for bit in 0..n {
        levels.push(next(bit))?;
    }
    Ok(levels)
}

/// Whether the levels rise strictly.
fn rises(levels: &[u32]) -> bool
    ensures { result ≡ true → IsStrictlyIncreasing levels.now }
{
    let mut i = 1;
    while i < levels.len() {
        if levels[i - 1] >= levels[i] {
            return false;
        }
        i += 1;
    }
    true
}

/// The states of which some successor is in the set.
fn preimage<L: Ledger>(
    engine: &mut Engine,
    relation: Ref,
    set: Ref,
    levels: &[u32],
    steps: &mut Steps<L>,
) -> Result<Ref, Failure> {
    if !engine.store().has(relation) || !engine.store().has(set) || !rises(levels) {
        return Err(Failure::Absent);
    }
    Ok(and_exists(engine, relation, set, levels, steps)?)
}

/// The preimages of half as many sets as the counter has bits. The set `k` has the numbers whose
/// lower and upper half, added, have a carry out of their lowest `k` bits. The last preimage is the
/// answer.
fn counter<L: Ledger>(
    engine: &mut Engine,
    alloc: Global,
    n: u32,
    blank: Blank,
) -> Result<Ref, Failure>
    requires blank { IsBlankOf L.name L.parts blank }
{
    let mut count = Steps::<L>::new(blank);
    let steps = &mut count;
    let levels = next_levels(alloc, n)?;
    let relation = counting(engine, n, steps)?;
    let half = n / 2;
    let mut set = Ref::FALSE;
    let mut before = Ref::FALSE;
    for bit in 0..half {
        let at = (next(bit), next(half.saturating_add(bit)));
        set = carried(engine, at, set, steps)?;
        before = preimage(engine, relation, set, &levels, steps)?;
    }
    Ok(before)
}

/// An engine of the benchmark's limits. Where a room is said, so many triples and answers have their
/// memory at once.
fn engine_of(alloc: Global, levels: u32, room: Option<u32>) -> Result<Engine, AllocError>
    requires { levels ≤ 256 }
{
    match room {
        Some(room) => {
            let store = Store::with_room(alloc, levels, LIMIT, room)?;
            Engine::with_room(alloc, store, CACHE, room)
        }
        None => Engine::new(alloc, Store::new(alloc, levels, LIMIT)?, CACHE),
    }
}

/// Builds a case in an engine of its own.
fn run(rt: &HostRuntime, case: Case, n: u32, room: Option<u32>) -> Result<Outcome> {
    let levels = case.levels(n);
    if levels > 256 {
        bail!("more than 256 levels");
    }
    let mut engine = engine_of(rt.alloc(), levels, room)?;
    let start = rt.process_cpu_time()?;
    let built = match case {
        Case::Queens => queens::<Brand>(&mut engine, n, Blank::new(1)),
        Case::Carry => carry::<Brand>(&mut engine, n, Blank::new(1)),
        Case::Counter => counter::<Brand>(&mut engine, rt.alloc(), n, Blank::new(1)),
    };
    let end = rt.process_cpu_time()?;
    let micros = end.saturating_sub(start).as_micros();
    if built.is_err() {
        bail!("no room for all triples");
    }
    Ok(Outcome {
        triples: engine.store().count(),
        refused: engine.refused(),
        micros,
    })
}

/// The room that the second of these words says, if there is one.
fn room_of(words: &[String]) -> Result<Option<u32>> {
    match words.get(1) {
        Some(word) => Ok(Some(word.as_str().parse::<u32>()?)),
        None => Ok(None),
    }
}

/// Counts the case of these words, or without words a small one of each.
pub fn measure_diagrams(rt: &HostRuntime, words: &[String]) -> Result<()> {
    let mut cases = [(Case::Queens, 5), (Case::Carry, 6), (Case::Counter, 8)];
    let mut timed = false;
    let mut room = None;
    if let [word, rest @ ..] = words {
        timed = true;
        let (Some(case), Some(number)) = (Case::named(word.as_str()), rest.first()) else {
            bail!("queens N, carry N or counter N, and the room");
        };
        let n = number.as_str().parse::<u32>()?;
        room = room_of(rest)?;
        cases = [(case, n), (case, 1), (case, 1)];
    }
    for (case, n) in cases {
        let outcome = run(rt, case, n, room)?;
        let name = case.name();
        let Outcome {
            triples,
            refused,
            micros,
        } = outcome;
        println!(rt; "{name} {n}: {triples} triples, {refused} refused")?;
        if timed {
            println!(rt; "{micros} microseconds")?;
            return Ok(());
        }
    }
    Ok(())
}
