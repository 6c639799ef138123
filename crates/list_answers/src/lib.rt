// What the calls on lists of resources answer, as lines of text.
//
// `join_answer` joins two lists, `write_answer` writes one into an area, and `addresses_answer` and `asn_answer` read the value of a resource extension, in which a list and what is inherited may
// both stand. Each makes its call and gives the answer with a newline: the text is a definition in specs/Replies.antt over the definition of the call's
// result, and each function promises just that text. It rests on `ranges`, `list_writer` and `resources` for the calls,
// on `list_text` for lists as text and on `hex_text` for octets.
#![tactic(auto)]

ghost use Rattle.std.specs.Prelude.{◌≡◌, ◌≤◌, ◌++◌, length, take, IfOk, string_bytes};
ghost use Rattle.fault.specs.Faults.{set_report, reported};
ghost use Rattle.fault.specs.declared.Layer.TheVariants.{Set};
ghost use Rattle.list_text.specs.Lists.{list_text};
ghost use Rattle.resources.specs.Values.{addresses_of, asn_of, alone};
ghost use Rattle.resources.specs.declared.May.TheVariants.{Either};
ghost use Rattle.list_answers.specs.Replies.{refusal, joined_line, join_reply, fault_line, fault_answer, read_reply, written_line, write_reply, room_given};

use entry_writer::WrittenResource;
use fault::{Fault, Report, Rule, SetFault};
use hex_text::push_octets;
use list_text::push_list;
use list_writer::write;
use point_text::PointText;
use ranges::{Range, join};
use resources::{May, Tables, read_addresses_value, read_asn_value};
use std::alloc::{AllocError, Global};

// The answer of a call that was refused by a rule.
fn refused(heap: Global, call: &str, rule: Rule) -> Result<String, AllocError>
    ensures { IfOk result (λ s. string_bytes s ≡ refusal call.now rule) }
{
    let number = rule.number();
    format!(in heap; "{call} refused {number}\n")
}

// The answer of a call that joined two lists to one.
fn joined_line<P: PointText>(heap: Global, list: &[Range<P>]) -> Result<String, AllocError>
    ensures { IfOk result (λ s. string_bytes s ≡ joined_line P.text list.now) }
{
    let mut line = String::from_str(heap, "join ok ")?;
    push_list(&mut line, list)?;
    line.push_str("\n")?;
    Ok(line)
}

// The answer of `join`, where the joined list is left in the area.
pub fn join_answer<P: PointText>(
    heap: Global,
    one: &[Range<P>],
    other: &[Range<P>],
    area: &mut [Range<P>],
) -> Result<String, AllocError>
    ensures { IfOk result (λ s. string_bytes s ≡ join_reply P.Point.rank P.text one.now other.now (length area.old)) }
{
    match join(one, other, area) {
        Ok(count) => joined_line(heap, &area[..count]),
        Err(rule) => refused(heap, "join", rule),
    }
}

// The answer of a call that found a fault: its number, its place and the word of its layer.
fn fault_answer(heap: Global, report: Report) -> Result<String, AllocError>
    ensures { IfOk result (λ s. string_bytes s ≡ fault_answer report) }
{
    let number = report.rule.number();
    let place = report.place;
    let layer = report.layer.word();
    format!(in heap; "read fault {number} at {place} in {layer}\n")
}

// The answer of a call that reads the value of a resource extension, by what its reader answered.
fn read_answer<V: Drop>(heap: Global, answer: Result<V, SetFault>) -> Result<String, AllocError>
    ensures { IfOk result (λ s. string_bytes s ≡ read_reply (reported set_report answer)) }
{
    match answer {
        Ok(_) => String::from_str(heap, "read ok\n"),
        Err(fault) => fault_answer(heap, fault.report()),
    }
}

// The answer of `read addresses OCTETS`.
pub fn addresses_answer(heap: Global, octets: &[u8]) -> Result<String, AllocError>
    ensures { IfOk result (λ s. string_bytes s ≡ read_reply (addresses_of Either (alone octets.now))) }
{
    let mut tables = Tables::new();
    read_answer(heap, read_addresses_value(octets, May::Either, &mut tables))
}

// The answer of `read asn OCTETS`.
pub fn asn_answer(heap: Global, octets: &[u8]) -> Result<String, AllocError>
    ensures { IfOk result (λ s. string_bytes s ≡ read_reply (asn_of Either (alone octets.now))) }
{
    let mut tables = Tables::new();
    read_answer(heap, read_asn_value(octets, May::Either, &mut tables))
}

// The answer of a call that wrote a list.
fn written_line(heap: Global, octets: &[u8]) -> Result<String, AllocError>
    ensures { IfOk result (λ s. string_bytes s ≡ written_line octets.now) }
{
    let mut line = String::from_str(heap, "write ok ")?;
    push_octets(&mut line, octets)?;
    line.push_str("\n")?;
    Ok(line)
}

// The answer of `write` with the area.
fn written<P: WrittenResource>(
    heap: Global,
    list: &[Range<P>],
    area: &mut [u8],
) -> Result<String, AllocError>
    ensures { IfOk result (λ s. string_bytes s ≡ write_reply P.Point.rank P.text list.now (length area.old)) }
{
    match write(list, area) {
        Ok(size) => written_line(heap, &area[..size]),
        Err(rule) => refused(heap, "write", rule),
    }
}

// The octets of the longest text of a list.
const LONGEST: usize = 10_244;

// The octets of the area that a call asks for: no list has a text longer than all of it.
fn room_given(room: Option<u64>) -> usize
    ensures value { result ≡ room_given room }
    ensures bound { result ≤ 10244 }
{
    room.unwrap_or(LONGEST as u64).min(LONGEST as u64) as usize
}

// The answer of `write`.
pub fn write_answer<P: WrittenResource>(
    heap: Global,
    list: &[Range<P>],
    room: Option<u64>,
) -> Result<String, AllocError>
    ensures { IfOk result (λ s. string_bytes s ≡ write_reply P.Point.rank P.text list.now (room_given room)) }
{
    let mut area = [0u8; LONGEST];
    let size = room_given(room);
    written(heap, list, &mut area[..size])
}
