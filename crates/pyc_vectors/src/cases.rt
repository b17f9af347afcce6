//! The cases, as lines tell them.

use std::io::ErrorKind;

/// Bytes that go by pieces of this size, and the call that fails, counted from 1; 0 where none does.
#[derive(Clone, Copy)]
pub struct Piecewise {
    pub size: u32,
    pub failing: u32,
}

/// The devices of a run.
#[derive(Clone, Copy)]
pub enum Devices {
    /// None fails, and the sinks have so much room.
    Clean {
        out: u32,
        err: u32,
    },
    /// The input is read, and the text is written, by pieces.
    Pieces {
        read: Piecewise,
        write: Piecewise,
        room: u32,
    },
}

/// What a line asks.
#[derive(Clone, Copy)]
pub enum Case<'a> {
    /// How a run with these words over this input ends.
    Run {
        devices: Devices,
        words: &'a str,
        input: &'a str,
    },
    /// What a source answers over a reader of std whose first calls fail so.
    Read {
        kind: ErrorKind,
        calls: u32,
    },
    /// What a sink answers over a writer of std whose first calls fail so.
    Write {
        kind: ErrorKind,
        calls: u32,
    },
}

impl<'a> Case<'a> {
    /// The case of a line. None where the line is no case.
    pub fn of_line(line: &'a str) -> Option<Case<'a>> {
        let Some((head, rest)) = line.split_once(" | ") else {
            return failing_case(line);
        };
        let (words, input) = rest.split_once(" | ")?;
        let devices = devices_of(head)?;
        Some(Case::Run {
            devices,
            words,
            input,
        })
    }
}

/// The case of a line that begins with `read` or `write`.
fn failing_case<'a>(line: &'a str) -> Option<Case<'a>> {
    let (name, rest) = line.split_once(' ')?;
    let (kind, rest) = rest.split_once(' ')?;
    let kind = match kind {
        "interrupted" => ErrorKind::Interrupted,
        "other" => ErrorKind::Other,
        _ => return None,
    };
    let (calls, _) = number(rest)?;
    match name {
        "read" => Some(Case::Read { kind, calls }),
        "write" => Some(Case::Write { kind, calls }),
        _ => None,
    }
}

/// The devices of these words.
fn devices_of(words: &str) -> Option<Devices> {
    match words.split_once(' ')? {
        ("clean", rest) => {
            let (out, rest) = number(rest)?;
            let (err, _) = number(rest)?;
            Some(Devices::Clean { out, err })
        }
        ("pieces", rest) => {
            let (read, rest) = pieces_of(rest)?;
            let (write, rest) = pieces_of(rest)?;
            let (room, _) = number(rest)?;
            Some(Devices::Pieces { read, write, room })
        }
        _ => None,
    }
}

/// The pieces that two numbers tell, and what stands after them.
fn pieces_of(words: &str) -> Option<(Piecewise, &str)> {
    let (size, rest) = number(words)?;
    let (failing, rest) = number(rest)?;
    Some((Piecewise { size, failing }, rest))
}

/// The number that is the first word, and the other words.
fn number(words: &str) -> Option<(u32, &str)> {
    let (word, rest) = words.split_once(' ').unwrap_or((words, ""));
    let number = word.parse::<u32>().ok()?;
    Some((number, rest))
}
