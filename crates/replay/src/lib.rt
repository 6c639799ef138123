// What the calls of a log answer, as lines of text.
//
// Each `.._answer` makes one call and gives its answer with a newline. The text is a definition in
// specs/Answers.antt over the definition of the call's result, and each function promises just that text.
// It rests on `element` for the reading, on `oracle` for who is asked and on `hex_text` for octets.
#![tactic(auto)]

ghost use Rattle.std.specs.Prelude.{◌≡◌, IfOk, Ok, string_bytes};
ghost use Rattle.hex_text.specs.Digits.{hex_text};
ghost use Rattle.oracle.specs.Meaning.{answer_on};
ghost use Rattle.element.specs.Reading.{seen, octets_of, read_of};
ghost use Rattle.replay.specs.Answers.{fault_line, element_answer, digest_line, digest_answer, verdict_answer};

use element::{Element, Part, read_first};
use fault::Fault;
use hex_text::push_octets;
use oracle::{Claim, Oracle};
use std::alloc::{AllocError, Global};

// Octets in hexadecimal.
fn octets_text(heap: Global, octets: &[u8]) -> Result<String, AllocError>
    ensures { IfOk result (λ s. string_bytes s ≡ hex_text octets.now) }
{
    let mut text = String::new(heap);
    push_octets(&mut text, octets)?;
    Ok(text)
}

// The answer of a call that read an element.
fn found_answer(heap: Global, element: &Element<'_>, rest: &Part<'_>) -> Result<String, AllocError>
    ensures { IfOk result (λ s. string_bytes s ≡ element_answer (Ok (seen element.now, octets_of rest.now))) }
{
    let tag = octets_text(heap, &[element.tag])?;
    let place = element.content.place;
    let size = element.content.octets.len();
    let after = rest.place;
    let left = rest.octets.len();
    format!(in heap; "element ok {tag} {place}+{size} {after}+{left}\n")
}

// The answer of a call that found no element, by the number of the fault and its place.
fn fault_answer(heap: Global, number: u8, place: usize) -> Result<String, AllocError>
    ensures { IfOk result (λ s. string_bytes s ≡ fault_line number place) }
{
    format!(in heap; "element fault {number} at {place}\n")
}

// The answer of `element OCTETS`.
pub fn element_answer(heap: Global, octets: &[u8]) -> Result<String, AllocError>
    ensures { IfOk result (λ s. string_bytes s ≡ element_answer (read_of octets.now 0)) }
{
    match read_first(octets) {
        Ok((element, rest)) => found_answer(heap, &element, &rest),
        Err(fault) => {
            let report = fault.report();
            fault_answer(heap, report.rule.number(), report.place)
        },
    }
}

// The answer of a call that asked for a digest and got it.
fn digest_line(heap: Global, digest: &[u8; 32]) -> Result<String, AllocError>
    ensures { IfOk result (λ s. string_bytes s ≡ digest_line digest.now) }
{
    let text = octets_text(heap, digest)?;
    format!(in heap; "digest {text}\n")
}

// The answer of `digest ORACLE OCTETS`.
pub fn digest_answer<O: Oracle>(
    heap: Global,
    oracle: &O,
    octets: &[u8],
) -> Result<String, AllocError>
    ensures { IfOk result (λ s. string_bytes s ≡ digest_answer (O.digest_of oracle.now octets.now)) }
{
    match oracle.digest(octets) {
        Some(digest) => digest_line(heap, &digest),
        None => String::from_str(heap, "digest unknown\n"),
    }
}

// The answer of a call that asked for a verdict.
fn verdict_line(yes: bool) -> &'static str
    ensures { result.now ≡ verdict_answer yes }
{
    if yes { "verdict yes\n" } else { "verdict no\n" }
}

// The answer of `verdict ORACLE KEY MESSAGE SIGNATURE`.
pub fn verdict_answer<O: Oracle>(
    heap: Global,
    oracle: &O,
    claim: Claim<'_>,
) -> Result<String, AllocError>
    ensures { IfOk result (λ s. string_bytes s ≡ verdict_answer (answer_on (O.verdict_on oracle.now) claim.entry)) }
{
    String::from_str(heap, verdict_line(oracle.verifies(claim)))
}
