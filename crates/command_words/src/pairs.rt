// Pairs of numbers of specifications.
ghost use Rattle.std.specs.Prelude.{◌≡◌, ◌<◌, ◌≤◌, [], ◌∷◌, ◌++◌, length, slice_get};
ghost use Rattle.command_words.specs.Listed.{pairs_in};

/// The most pairs that are asked for at once.
pub const MOST_PAIRS: usize = 16;

/// At most 16 pairs of numbers of specifications, which count from 1.
#[derive(Clone, Copy, Debug, PartialEq, Eq)]
pub struct SpecPairs {
    // Those at the head of the array.
    pairs: [(u32, u32); MOST_PAIRS],
    len: usize,
}

impl SpecPairs {
    /// No pairs.
    pub fn new() -> SpecPairs
        ensures { pairs_in result ≡ [] }
    {
        SpecPairs {
            pairs: [(0, 0); MOST_PAIRS],
            len: 0,
        }
    }

    /// How many there are.
    pub fn len(&self) -> usize
        ensures count { result ≡ length (pairs_in self.now) }
        ensures few { result ≤ 16 }
    {
        self.len.min(MOST_PAIRS)
    }

    /// The pair at this place, counted from 0.
    pub fn get(&self, place: usize) -> (u32, u32)
        requires { place < length (pairs_in self.now) }
        ensures { slice_get (pairs_in self.now) place ≡ Some result }
    {
        self.pairs[place]
    }

    /// Puts one more behind the others.
    pub fn push(&mut self, pair: (u32, u32))
        requires { length (pairs_in self.old) < 16 }
        ensures { pairs_in self.new ≡ pairs_in self.old ++ pair ∷ [] }
    {
        self.pairs[self.len] = pair;
        self.len += 1;
    }
}
