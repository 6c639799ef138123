// `zapuhoti book`: a verdict book from a list of records.
use arguments::{Known, Why, Words};
use book_writer::{write_digest, write_verdict};
use oracle::Claim;
use running::files::{Failure, read_log};
use running::lines::{Stop, find_octets, tell_line};
use std::fs;

// Appends the record of a line `digest OCTETS DIGEST`, from its arguments.
fn add_digest(rt: &HostRuntime, words: &mut Words<'_>, book: &mut Vec<u8>) -> Result<(), Stop> {
    let octets = find_octets(rt, words.octets()?)?;
    let digest = find_octets(rt, words.octets()?)?;
    words.end()?;
    let Ok(digest) = digest.as_slice().try_into() else {
        return Err(Stop::NoDigest);
    };
    write_digest(book, octets.as_slice(), digest)?;
    Ok(())
}

// Appends the record of a line `verdict KEY MESSAGE SIGNATURE`, from its arguments.
fn add_verdict(rt: &HostRuntime, words: &mut Words<'_>, book: &mut Vec<u8>) -> Result<(), Stop> {
    let key = find_octets(rt, words.octets()?)?;
    let message = find_octets(rt, words.octets()?)?;
    let signature = find_octets(rt, words.octets()?)?;
    words.end()?;
    let claim = Claim {
        key: key.as_slice(),
        message: message.as_slice(),
        signature: signature.as_slice(),
    };
    write_verdict(book, claim)?;
    Ok(())
}

// Appends the record that a line of a list says.
fn add_record(rt: &HostRuntime, line: &[u8], book: &mut Vec<u8>) -> Result<(), Stop> {
    if line.is_empty() || line.starts_with(b"#") {
        return Ok(());
    }
    let mut words = Words::of(line);
    match words.next()? {
        b"digest" => add_digest(rt, &mut words, book),
        b"verdict" => add_verdict(rt, &mut words, book),
        _ => Err(Stop::Line(Why::UnknownCall(Known::Oracles))),
    }
}

// The verdict book of a list of records, where every line of the list is one.
fn make_book(rt: &HostRuntime, lines: &[u8]) -> Result<Vec<u8>, Failure> {
    let mut book = Vec::new(rt.alloc());
    for (number, line) in lines.split_inclusive(|c| *c == b'\n').enumerate() {
        let line = line.strip_suffix(b"\n").unwrap_or(line);
        if let Err(stop) = add_record(rt, line, &mut book) {
            return Err(tell_line(rt, number + 1, stop));
        }
    }
    Ok(book)
}

// Writes the verdict book of a list of records; nothing is written where a line is none.
pub fn run_book(rt: &HostRuntime, list: &str, out: &str) -> Result<(), Failure> {
    let lines = read_log(rt, list)?;
    let book = make_book(rt, lines.as_slice())?;
    match fs::write(rt, out, book.as_slice()) {
        Ok(()) => Ok(()),
        Err(e) => {
            eprintln!(rt; "zapuhoti: cannot write {out}: {e}")?;
            Err(Failure::Told)
        },
    }
}
