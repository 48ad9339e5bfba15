//! What an engine of a measurement takes.

/// The most triples that a store takes.
pub const LIMIT: u32 = 2_000_000_000;

/// How many answers the engine remembers.
pub const CACHE: u32 = 1_000_000;
