//! The command that the words of a command line are.

use case_text::fault::Fault;
use case_text::telling::Telling;
use command_words::{Command, Job, Source, SpecPairs, Work, read_words};
use std::alloc::{AllocError, Global};

/// The words of a text: its lines, or on one line what stands between spaces. `""` is the empty word.
fn words_of(alloc: Global, text: &str) -> Result<Vec<String>, AllocError> {
    let mut words = Vec::new(alloc);
    if text.is_empty() {
        return Ok(words);
    }
    let (text, separator) = match text.strip_suffix('\n') {
        Some(lines) => (lines, '\n'),
        None => (text, ' '),
    };
    for word in text.split(separator) {
        let word = if word == "\"\"" { "" } else { word };
        words.push(String::from_str(alloc, word)?)?;
    }
    Ok(words)
}

/// Adds where a model comes from.
fn tell_source(source: &Source<'_>, answer: &mut Telling) {
    match source {
        Source::File(name) => answer.add(name),
        Source::Ring(n) => write!(answer, "ring of {n}"),
    }
}

/// Adds the pairs of specifications, a word for each.
fn tell_pairs(pairs: &SpecPairs, answer: &mut Telling) {
    for place in 0..pairs.len() {
        let (p, q) = pairs.get(place);
        write!(answer, " {p}:{q}");
    }
}

fn job_word(job: &Job<'_>) -> &'static str {
    match job {
        Job::Decide { .. } => "check ",
        Job::Recheck { .. } => "recheck ",
        Job::Delay { .. } => "delay ",
        Job::Replay { .. } => "replay ",
        Job::Strong { .. } => "strong ",
    }
}

/// Adds what the job needs beside a model.
fn tell_needs(job: &Job<'_>, answer: &mut Telling) {
    match job {
        Job::Decide { .. } => {}
        Job::Recheck { proofs } => write!(answer, " {proofs}"),
        Job::Delay { from, to } => write!(answer, " from {from} to {to}"),
        Job::Replay { trace } => write!(answer, " {trace}"),
        Job::Strong { pairs } => tell_pairs(pairs, answer),
    }
}

/// Adds what work is asked for: its job, where its model comes from, what the job needs beside it, the limit on nodes,
/// and the file that the proofs are saved in.
fn tell_work(work: &Work<'_>, answer: &mut Telling) {
    answer.add(job_word(&work.job));
    tell_source(&work.source, answer);
    tell_needs(&work.job, answer);
    write!(answer, " {}", work.limit);
    if let Job::Decide { proofs: Some(name) } = &work.job {
        write!(answer, " proof {name}");
    }
}

fn tell_command(command: &Command<'_>, answer: &mut Telling) {
    match command {
        Command::Usage => answer.add("usage"),
        Command::Print(n) => write!(answer, "print ring of {n}"),
        Command::Do(work) => tell_work(work, answer),
    }
}

/// The command that words are is told.
fn tell_read(alloc: Global, words: &[String], answer: &mut Telling) {
    match read_words(alloc, words) {
        Ok(command) => tell_command(&command, answer),
        Err(error) => answer.fail(Fault::Memory(error)),
    }
}

/// Adds the command that the words of a text are.
pub fn tell_words(alloc: Global, text: &[u8], answer: &mut Telling) {
    let Ok(text) = str::from_utf8(text) else {
        return answer.fail(Fault::NoText);
    };
    match words_of(alloc, text) {
        Ok(words) => tell_read(alloc, &words, answer),
        Err(error) => answer.fail(Fault::Memory(error)),
    }
}
