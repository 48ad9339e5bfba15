// A delay, as it is told.
ghost use Rattle.std.specs.Prelude.{◌≡◌, ◌++◌, OnOk};
ghost use Rattle.command_replies.specs.Delayed.{longest_word, shortest_word};
ghost use Rattle.command_replies.specs.SeenDelays.{delay_of};
ghost use Rattle.delay_bounds.specs.Form.{longest_delay, shortest_delay};
ghost use Rattle.delay_bounds.specs.Seen.{seen_longest, seen_shortest};

use delay_bounds::proof::{Longest, Shortest};
use std::alloc::AllocError;
use value_texts::text::Text;

/// A delay, in steps.
#[derive(Clone, Copy, Debug, PartialEq, Eq)]
pub enum Delay {
    /// There is none, since nothing starts.
    None,
    /// So many steps.
    Steps(u64),
    /// More than any number of steps: a goal is never reached, or need not be.
    Never,
}

impl Delay {
    /// The shortest delay, of which this is a proof.
    pub fn shortest(proof: &Shortest) -> Delay
        ensures { delay_of result ≡ shortest_delay (seen_shortest proof.now) }
    {
        match proof {
            Shortest::NoStart { .. } => Delay::None,
            Shortest::Never { .. } => Delay::Never,
            Shortest::Steps { back, .. } => Delay::Steps(back.len() as u64),
        }
    }

    /// The longest delay, of which this is a proof.
    pub fn longest(proof: &Longest) -> Delay
        ensures { delay_of result ≡ longest_delay (seen_longest proof.now) }
    {
        match proof {
            Longest::NoStart { .. } => Delay::None,
            Longest::Endless { .. } => Delay::Never,
            Longest::Steps { stay, .. } => Delay::Steps((stay.len() as u64).saturating_sub(1)),
        }
    }

    /// Adds the word for a shortest delay.
    pub(crate) fn push_shortest(self, text: &mut Text) -> Result<(), AllocError>
        ensures { OnOk result (text.new ≡ text.old ++ shortest_word (delay_of self)) }
    {
        match self {
            Delay::None => text.push(b"none"),
            Delay::Steps(n) => text.push_number(n),
            Delay::Never => text.push(b"never"),
        }
    }

    /// Adds the word for a longest delay.
    pub(crate) fn push_longest(self, text: &mut Text) -> Result<(), AllocError>
        ensures { OnOk result (text.new ≡ text.old ++ longest_word (delay_of self)) }
    {
        match self {
            Delay::None => text.push(b"none"),
            Delay::Steps(n) => text.push_number(n),
            Delay::Never => text.push(b"endless"),
        }
    }
}
