//! The notation of texts: what a backslash stands for.
//!
//! | Written | Stands for |
//! |---|---|
//! | `\n`, `\r`, `\t`, `\\`, `\}` | a line feed, a carriage return, a tab, a backslash, a closing brace |
//! | `\xff` | the byte of this number, by two digits `0` to `9`, `a` to `f` |
//! | `\256{!}` | `!` so many times; between the braces all but another repetition may stand |
//! | `\` at the end of a line | no line feed |

use crate::fault::Fault;
use std::alloc::{AllocError, Global};

/// Where in the notation the next byte stands.
#[derive(Clone, Copy)]
enum Place {
    Plain,
    /// Behind a backslash.
    Backslash,
    /// Behind `\x`.
    FirstDigit,
    SecondDigit { first: u8 },
    /// Among the digits of a repetition.
    Times { times: usize },
}

/// Reads a line byte by byte.
#[derive(Drop)]
struct Decoder {
    text: Vec<u8>,
    place: Place,
    /// How often the part between the braces is to stand, while it is read.
    times: Option<usize>,
    part: Vec<u8>,
}

impl Decoder {
    fn new(alloc: Global) -> Decoder {
        Decoder {
            text: Vec::new(alloc),
            place: Place::Plain,
            times: None,
            part: Vec::new(alloc),
        }
    }

    fn push(&mut self, byte: u8) -> Result<(), AllocError> {
        self.place = Place::Plain;
        match self.times {
            Some(_) => self.part.push(byte)?,
            None => self.text.push(byte)?,
        }
        Ok(())
    }

    fn repeat(&mut self, times: usize) -> Result<(), AllocError> {
        for _ in 0..times {
            self.text.extend_from_slice(&self.part)?;
        }
        self.part.clear();
        self.times = None;
        Ok(())
    }

    fn read_plain(&mut self, byte: u8) -> Result<(), Fault> {
        match (byte, self.times) {
            (b'\\', _) => self.place = Place::Backslash,
            (b'}', Some(times)) => self.repeat(times)?,
            _ => self.push(byte)?,
        }
        Ok(())
    }

    fn read_backslash(&mut self, byte: u8) -> Result<(), Fault> {
        match byte {
            b'n' => self.push(b'\n')?,
            b'r' => self.push(b'\r')?,
            b't' => self.push(b'\t')?,
            b'\\' | b'}' => self.push(byte)?,
            b'x' => self.place = Place::FirstDigit,
            _ if self.times.is_none() => self.read_times(0, byte)?,
            _ => return Err(Fault::BadBackslash),
        }
        Ok(())
    }

    fn read_times(&mut self, times: usize, byte: u8) -> Result<(), Fault> {
        match byte {
            b'{' => {
                self.place = Place::Plain;
                self.times = Some(times);
            }
            b'0'..=b'9' => {
                let times = add_digit(times, byte).ok_or(Fault::NoNumber)?;
                self.place = Place::Times { times };
            }
            _ => return Err(Fault::BadBackslash),
        }
        Ok(())
    }

    fn read(&mut self, byte: u8) -> Result<(), Fault> {
        match self.place {
            Place::Plain => self.read_plain(byte),
            Place::Backslash => self.read_backslash(byte),
            Place::FirstDigit => {
                let first = hex_digit(byte).ok_or(Fault::BadBackslash)?;
                self.place = Place::SecondDigit { first };
                Ok(())
            }
            Place::SecondDigit { first } => {
                let second = hex_digit(byte).ok_or(Fault::BadBackslash)?;
                self.push((first << 4) | second)?;
                Ok(())
            }
            Place::Times { times } => self.read_times(times, byte),
        }
    }

    /// Ends the line: with a line feed, unless a backslash stands at its end.
    fn end_line(&mut self) -> Result<(), Fault> {
        match (self.place, self.times) {
            (Place::Plain, None) => {
                self.text.push(b'\n')?;
                Ok(())
            }
            (Place::Backslash, None) => Ok(()),
            _ => Err(Fault::BadBackslash),
        }
    }
}

fn add_digit(number: usize, digit: u8) -> Option<usize> {
    let digit = char::from(digit).to_digit(10)?;
    number.checked_mul(10)?.checked_add(digit as usize)
}

fn hex_digit(byte: u8) -> Option<u8> {
    match byte {
        b'0'..=b'9' => Some(byte - b'0'),
        b'a'..=b'f' => Some(byte - b'a' + 10),
        _ => None,
    }
}

/// Adds what a line of a text stands for.
pub fn read_line(alloc: Global, line: &str, text: &mut Vec<u8>) -> Result<(), Fault> {
    let mut decoder = Decoder::new(alloc);
    for byte in line.bytes() {
        decoder.read(byte)?;
    }
    decoder.end_line()?;
    text.extend_from_slice(&decoder.text)?;
    Ok(())
}

/// What a text on one line stands for.
pub fn read_text(alloc: Global, text: &str) -> Result<Vec<u8>, Fault> {
    let mut decoder = Decoder::new(alloc);
    for byte in text.bytes() {
        decoder.read(byte)?;
    }
    match (decoder.place, decoder.times) {
        (Place::Plain, None) => Ok(decoder.text),
        _ => Err(Fault::BadBackslash),
    }
}

/// What a word stands for. `""` is the empty word.
pub fn read_word(alloc: Global, word: &str) -> Result<String, Fault> {
    match word {
        "" => Err(Fault::EmptyWord),
        "\"\"" => Ok(String::new(alloc)),
        _ => String::from_utf8(read_text(alloc, word)?).map_err(|_| Fault::NoText),
    }
}

/// Adds the text in the notation, its lines behind four spaces.
pub fn show(text: &[u8], shown: &mut String) -> Result<(), AllocError> {
    for line in text.split_inclusive(|byte| *byte == b'\n') {
        shown.push_str("    ")?;
        for byte in line {
            show_byte(*byte, shown)?;
        }
        if !line.ends_with(b"\n") {
            shown.push('\\')?;
        }
        shown.push('\n')?;
    }
    Ok(())
}

fn show_byte(byte: u8, shown: &mut String) -> Result<(), AllocError> {
    match byte {
        b'\n' => Ok(()),
        b'\\' => shown.push_str("\\\\"),
        b' '..=b'~' => shown.push(char::from(byte)),
        _ => write!(shown, "\\x{byte:02x}"),
    }
}
