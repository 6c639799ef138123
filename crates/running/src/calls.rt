// The calls of a log in order, and the answers of those on elements and oracles.
use crate::files::{Failure, flush};
use crate::lines::{Stop, find_octets, tell_line};
use arguments::OracleWord;
use book::Book;
use log_lines::{Call, Calls, read_line};
use oracle::{Claim, Oracle, Scheme};
use replay::{digest_answer, element_answer, verdict_answer};
use std::alloc::AllocError;

// What a call asks an oracle.
#[derive(Clone, Copy)]
enum Question<'a> {
    Digest(&'a [u8]),
    Verdict(Claim<'a>),
}

// What an oracle answers.
fn answer_by<O: Oracle>(
    rt: &HostRuntime,
    oracle: &O,
    question: Question<'_>,
) -> Result<String, AllocError> {
    match question {
        Question::Digest(octets) => digest_answer(rt.alloc(), oracle, octets),
        Question::Verdict(claim) => verdict_answer(rt.alloc(), oracle, claim),
    }
}

// Asks the oracle that a word names.
fn ask(rt: &HostRuntime, oracle: OracleWord<'_>, question: Question<'_>) -> Result<String, Stop> {
    match oracle {
        OracleWord::Scheme => Ok(answer_by(rt, &Scheme, question)?),
        OracleWord::Book(word) => {
            let book = find_octets(rt, word)?;
            let oracle = Book {
                octets: book.as_slice(),
            };
            Ok(answer_by(rt, &oracle, question)?)
        },
    }
}

// Makes a call on elements or oracles and gives its answer, or says why it is none.
pub fn answer(rt: &HostRuntime, call: Call<'_>) -> Result<String, Stop> {
    match call {
        Call::Element(word) => {
            let octets = find_octets(rt, word)?;
            Ok(element_answer(rt.alloc(), octets.as_slice())?)
        },
        Call::Digest { oracle, octets } => {
            let octets = find_octets(rt, octets)?;
            ask(rt, oracle, Question::Digest(octets.as_slice()))
        },
        Call::Verdict {
            oracle,
            key,
            message,
            signature,
        } => {
            let key = find_octets(rt, key)?;
            let message = find_octets(rt, message)?;
            let signature = find_octets(rt, signature)?;
            let claim = Claim {
                key: key.as_slice(),
                message: message.as_slice(),
                signature: signature.as_slice(),
            };
            ask(rt, oracle, Question::Verdict(claim))
        },
    }
}

// Who answers the calls of a log.
pub trait Answers<C> {
    // Makes a call and gives its answer, or says why it is none.
    fn answer(&self, call: C) -> Result<String, Stop>;
}

// Runs a line of a log, and appends its answer.
fn answer_line<'a, C: Calls<'a>, A: Answers<C>>(
    line: &'a [u8],
    answers: &A,
    text: &mut String,
) -> Result<(), Stop> {
    if let Some(call) = read_line::<C>(line)? {
        let answer = answers.answer(call)?;
        text.push_str(answer.as_str())?;
    }
    Ok(())
}

// Runs the lines of a log in order, up to the first that is no call, and prints the answers.
pub fn answer_calls<'a, C: Calls<'a>, A: Answers<C>>(
    rt: &HostRuntime,
    log: &'a [u8],
    answers: &A,
) -> Result<(), Failure> {
    let mut text = String::new(rt.alloc());
    for (number, line) in log.split_inclusive(|c| *c == b'\n').enumerate() {
        let line = line.strip_suffix(b"\n").unwrap_or(line);
        if let Err(stop) = answer_line(line, answers, &mut text) {
            flush(rt, &mut text, true)?;
            return Err(tell_line(rt, number + 1, stop));
        }
        flush(rt, &mut text, false)?;
    }
    flush(rt, &mut text, true)
}

// Runs a line of a log, and appends the answer of a closure.
fn run_line<'a, C: Calls<'a>, F: Fn(C) -> Result<String, Stop>>(
    line: &'a [u8],
    answer: &F,
    text: &mut String,
) -> Result<(), Stop>
    requires { F.IsAlwaysCallable answer.now }
{
    if let Some(call) = read_line::<C>(line)? {
        let answer = answer(call)?;
        text.push_str(answer.as_str())?;
    }
    Ok(())
}

// Runs the lines of a log in order, up to the first that is no call, and prints the answers that a closure gives. The closure has to be callable at
// any call. A type that holds it cannot keep that so that it may still be called, and so cannot answer for `answer_calls`: the loop stands here again.
pub fn run_calls<'a, C: Calls<'a>, F: Fn(C) -> Result<String, Stop>>(
    rt: &HostRuntime,
    log: &'a [u8],
    answer: F,
) -> Result<(), Failure>
    requires { F.IsAlwaysCallable answer }
{
    let mut text = String::new(rt.alloc());
    for (number, line) in log.split_inclusive(|c| *c == b'\n').enumerate() {
        let line = line.strip_suffix(b"\n").unwrap_or(line);
        if let Err(stop) = run_line(line, &answer, &mut text) {
            flush(rt, &mut text, true)?;
            return Err(tell_line(rt, number + 1, stop));
        }
        flush(rt, &mut text, false)?;
    }
    flush(rt, &mut text, true)
}
