// Files, standard input and output, and why a run ends before its end.
use std::alloc::{AllocError, AllocFailed};
use std::io::Read;
use std::{fs, io};

// Why a run ends with status 1. The message is out where it is `Told`.
#[derive(Drop)]
pub enum Failure {
    Told,
    Memory,
    Output,
}

impl From<AllocError> for Failure {
    fn from(_e: AllocError) -> Failure {
        Failure::Memory
    }
}

impl<T: Drop> From<AllocFailed<T>> for Failure {
    fn from(_e: AllocFailed<T>) -> Failure {
        Failure::Memory
    }
}

impl From<io::Error> for Failure {
    fn from(_e: io::Error) -> Failure {
        Failure::Output
    }
}

// The octets of a file, or a message and a failure.
pub fn read_file(rt: &HostRuntime, path: &str) -> Result<Vec<u8>, Failure> {
    match fs::read(rt, path) {
        Ok(octets) => Ok(octets),
        Err(e) => {
            eprintln!(rt; "zapuhoti: cannot read {path}: {e}")?;
            Err(Failure::Told)
        },
    }
}

// The octets of a log, by its path or from standard input.
pub fn read_log(rt: &HostRuntime, path: &str) -> Result<Vec<u8>, Failure> {
    if path != "-" {
        return read_file(rt, path);
    }
    let mut octets = Vec::new(rt.alloc());
    match rt.stdin().read_to_end(&mut octets) {
        Ok(_) => Ok(octets),
        Err(e) => {
            eprintln!(rt; "zapuhoti: cannot read standard input: {e}")?;
            Err(Failure::Told)
        },
    }
}

// Prints a text and empties it, where it is long enough or the rest is wanted now.
pub fn flush(rt: &HostRuntime, text: &mut String, now: bool) -> Result<(), Failure> {
    if now || text.len() > 65_536 {
        print!(rt; "{text}")?;
        text.clear();
    }
    Ok(())
}
