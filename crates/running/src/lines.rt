// What the lines of a log and of a list of records have in common: octets, and where a run stops.
use crate::files::Failure;
use arguments::{Octets, Why};
use book_writer::WriteError;
use std::alloc::AllocError;
use std::fs;

// Why a line of a log or of a list stops the run.
#[derive(Clone, Copy)]
pub enum Stop {
    Memory,
    Line(Why),
    NoDigest,
    TooLong,
}

impl From<AllocError> for Stop {
    fn from(_e: AllocError) -> Stop {
        Stop::Memory
    }
}

impl From<Why> for Stop {
    fn from(why: Why) -> Stop {
        Stop::Line(why)
    }
}

impl From<WriteError> for Stop {
    fn from(e: WriteError) -> Stop {
        match e {
            WriteError::TooLong => Stop::TooLong,
            WriteError::Memory => Stop::Memory,
        }
    }
}

// The octets that a word of a log says.
pub fn find_octets(rt: &HostRuntime, word: Octets<'_>) -> Result<Vec<u8>, Stop> {
    match word {
        Octets::Digits(digits) => match hex_text::decode(rt.alloc(), digits)? {
            Some(octets) => Ok(octets),
            None => Err(Stop::Line(Why::NoDigit)),
        },
        Octets::Path(path) => {
            let Ok(path) = std::str::from_utf8(path) else {
                return Err(Stop::Line(Why::NoFile));
            };
            match fs::read(rt, path) {
                Ok(octets) => Ok(octets),
                Err(_) => Err(Stop::Line(Why::NoFile)),
            }
        },
    }
}

// Says at which line a run stopped, and why.
pub fn tell_line(rt: &HostRuntime, number: usize, stop: Stop) -> Failure {
    let told = match stop {
        Stop::Memory => return Failure::Memory,
        Stop::Line(why) => eprintln!(rt; "line {number}: {why}"),
        Stop::NoDigest => eprintln!(rt; "line {number}: a digest has 32 octets"),
        Stop::TooLong => eprintln!(rt;
            "line {number}: a field of a book has fewer than 16777216 octets"
        ),
    };
    match told {
        Ok(()) => Failure::Told,
        Err(_) => Failure::Output,
    }
}
