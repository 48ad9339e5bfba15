//! Lines as words with one space between.

ghost use Rattle.std.specs.Option.{option_copied};
ghost use Rattle.text_lines.specs.Words.{AreWords, TakesWord};

use crate::halves::halves;
use std::marker::Model;

/// The words of a line that are left. Contracts see the list of them.
#[derive(Drop)]
pub struct Words<'a> {
    left: Option<&'a [u8]>,
}

impl<'a> Model for Words<'a> {
    ghost use Rattle.std.specs.Prelude.{ℕ, List, []};
    ghost use Rattle.std.specs.Option.{option_copied, option_map_or};
    ghost use Rattle.text_lines.specs.Words.{words_in};

    ghost Value = { List (List ℕ) };

    ghost view = { λ w. option_map_or words_in (option_copied w.left) [] };
}

impl<'a> Words<'a> {
    /// The words of a line. Two spaces in a row have an empty word between them, and so has a space
    /// an empty word before it where the line begins, and behind it where the line ends.
    pub fn of(text: &'a [u8]) -> Words<'a>
        ensures { AreWords text.now result }
    {
        Words { left: Some(text) }
    }

    /// The next word, if one is left.
    pub fn next(&mut self) -> Option<&'a [u8]>
        ensures { TakesWord self.old (option_copied result) self.new }
    {
        let text = self.left?;
        match halves(text, b' ') {
            Some((word, left)) => {
                self.left = Some(left);
                Some(word)
            }
            None => {
                self.left = None;
                Some(text)
            }
        }
    }
}
