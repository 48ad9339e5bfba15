//! Answers that are lists.

use case_text::telling::Telling;

/// Adds what stands between a word and those before it.
pub fn push_gap(answer: &mut Telling, gap: &str) {
    if !answer.is_empty() {
        answer.add(gap);
    }
}

/// Adds a word, behind a space unless it is the first.
pub fn push_word(answer: &mut Telling, word: &str) {
    push_gap(answer, " ");
    answer.add(word);
}

/// Adds a number, behind a space unless it is the first.
pub fn push_number(answer: &mut Telling, number: usize) {
    push_gap(answer, " ");
    write!(answer, "{number}");
}

/// Adds a dash where nothing is listed.
pub fn push_none(answer: &mut Telling) {
    if answer.is_empty() {
        answer.add("-");
    }
}
