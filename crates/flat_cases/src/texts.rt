//! The texts that questions are asked of.
//!
//! | In a text | Stands for |
//! |---|---|
//! | `?` | the text of the question. Where there is no `?` that stands at the end |
//! | `@0..9{PART}` | the part, once for each of these numbers; in it `#` is the number, and `#'` the one after it |

use case_text::fault::Fault;
use case_text::telling::Telling;
use std::alloc::Global;

/// Adds the text with the filling in the place of each `?`, or at its end.
fn fill(text: &str, filling: &str, whole: &mut Telling) {
    let mut pieces = text.split('?');
    whole.add(pieces.next().unwrap_or(""));
    if !text.contains('?') {
        whole.add(filling);
    }
    for piece in pieces {
        whole.add(filling);
        whole.add(piece);
    }
}

/// Adds the part with the number in the place of `#`, and the next one in that of `#'`.
fn push_part(part: &str, number: u32, whole: &mut Telling) {
    let next = number.saturating_add(1);
    let mut pieces = part.split('#');
    whole.add(pieces.next().unwrap_or(""));
    for piece in pieces {
        match piece.strip_prefix('\'') {
            Some(rest) => write!(whole, "{next}{rest}"),
            None => write!(whole, "{number}{piece}"),
        }
    }
}

/// The numbers of `FIRST..LAST`.
fn range_of(numbers: &str) -> Option<(u32, u32)> {
    let (first, last) = numbers.split_once("..")?;
    Some((first.parse::<u32>().ok()?, last.parse::<u32>().ok()?))
}

fn push_parts(numbers: &str, part: &str, whole: &mut Telling) {
    match range_of(numbers) {
        Some((first, last)) => {
            for number in first..=last {
                push_part(part, number, whole);
            }
        }
        None => whole.fail(Fault::NoNumber),
    }
}

/// The numbers of `FIRST..LAST{PART}` with the part, and what stands behind it.
fn part_of(piece: &str) -> Option<(&str, &str, &str)> {
    let (numbers, rest) = piece.split_once('{')?;
    let (part, rest) = rest.split_once('}')?;
    Some((numbers, part, rest))
}

/// Adds what `FIRST..LAST{PART}` stands for, and what stands behind it.
fn push_counted(piece: &str, whole: &mut Telling) {
    match part_of(piece) {
        Some((numbers, part, rest)) => {
            push_parts(numbers, part, whole);
            whole.add(rest);
        }
        None => whole.fail(Fault::Unasked),
    }
}

/// The text with each counted part written out.
fn counted(alloc: Global, text: &str) -> Result<String, Fault> {
    let mut whole = Telling::new(alloc);
    let mut pieces = text.split('@');
    whole.add(pieces.next().unwrap_or(""));
    for piece in pieces {
        push_counted(piece, &mut whole);
    }
    whole.text()
}

/// The text of a question: what is written, filled with this.
pub fn text_of(alloc: Global, text: &str, filling: &str) -> Result<String, Fault> {
    let mut whole = Telling::new(alloc);
    fill(text, filling, &mut whole);
    counted(alloc, whole.text()?.as_str())
}
