//! Places in a text that is read line by line.

ghost use Rattle.std.specs.Prelude.{◌≡◌, ◌+◌, ◌≤◌, ◌↔◌, [], length, IsTrue};
ghost use Rattle.std.specs.Option.{option_copied};
ghost use Rattle.text_lines.specs.Cursor.{Takes, Shows};

use crate::halves::halves;
use std::marker::Model;

/// A place in a text that is read line by line. Lines are counted from 1.
#[derive(Drop)]
pub struct Cursor<'a> {
    left: &'a [u8],
    line: u32,
}

impl<'a> Model for Cursor<'a> {
    ghost use Rattle.text_lines.specs.Cursor.{Place};

    ghost Value = { Place };

    ghost view = { λ c. record { left = c.left.now; line = c.line } };
}

impl<'a> Cursor<'a> {
    /// The place where the text begins.
    pub fn new(bytes: &'a [u8]) -> Cursor<'a>
        ensures left { result.left ≡ bytes.now }
        ensures line { result.line ≡ 1 }
    {
        Cursor {
            left: bytes,
            line: 1,
        }
    }

    /// The number of the line that begins here.
    pub fn line(&self) -> u32
        ensures { result ≡ self.now.line }
    {
        self.line
    }

    /// Whether the text ends here.
    pub fn is_done(&self) -> bool
        ensures { IsTrue result ↔ (self.now.left ≡ []) }
    {
        self.left.is_empty()
    }

    /// The next whole line without its line feed, and the place behind it; where there is none, the place stays.
    pub fn next(&mut self) -> Option<&'a [u8]>
        requires { self.old.line + length self.old.left ≤ 4294967295 }
        ensures { Takes self.old (option_copied result) self.new }
    {
        let (text, left) = halves(self.left, b'\n')?;
        self.left = left;
        self.line += 1;
        Some(text)
    }

    /// The line that `next` would take; the place stays.
    pub fn peek(&self) -> Option<&'a [u8]>
        ensures { Shows self.now (option_copied result) }
    {
        let (text, _) = halves(self.left, b'\n')?;
        Some(text)
    }
}
