// The calls of a log, on lists too, and the answer of each.
use arguments::{Form, Kind, Why};
use entry_writer::WrittenResource;
use list_answers::{addresses_answer, asn_answer, join_answer, write_answer};
use list_log::Call;
use list_text::read_list;
use point_text::PointText;
use points::{Asn, V4, V6};
use ranges::{MOST, Range};
use running::calls::{Answers, answer, answer_calls};
use running::files::{Failure, read_log};
use running::lines::{Stop, find_octets};
use std::alloc::AllocError;

// The list that a word of a log writes.
fn find_list<P: PointText>(rt: &HostRuntime, word: &[u8]) -> Result<Vec<Range<P>>, Stop> {
    read_list::<P>(rt.alloc(), word)?.ok_or(Stop::Line(Why::NoList))
}

// An area of as many ranges as a list may have.
fn find_area<P: PointText>(rt: &HostRuntime) -> Result<Vec<Range<P>>, AllocError> {
    let blank = Range {
        first: P::first(),
        last: P::first(),
    };
    Ok(vec![in rt.alloc(); blank; MOST]?)
}

// Joins two lists of a kind.
fn ask_join<P: PointText>(rt: &HostRuntime, one: &[u8], other: &[u8]) -> Result<String, Stop> {
    let one = find_list::<P>(rt, one)?;
    let other = find_list::<P>(rt, other)?;
    let mut area = find_area::<P>(rt)?;
    Ok(join_answer(
        rt.alloc(),
        one.as_slice(),
        other.as_slice(),
        area.as_mut_slice(),
    )?)
}

// Writes a list of a kind into an area.
fn ask_write<P: PointText + WrittenResource>(
    rt: &HostRuntime,
    list: &[u8],
    area: Option<u64>,
) -> Result<String, Stop> {
    let list = find_list::<P>(rt, list)?;
    Ok(write_answer(rt.alloc(), list.as_slice(), area)?)
}

// Reads the value of a resource extension.
fn ask_read(rt: &HostRuntime, form: Form, octets: &[u8]) -> Result<String, Stop> {
    match form {
        Form::Addresses => Ok(addresses_answer(rt.alloc(), octets)?),
        Form::Asn => Ok(asn_answer(rt.alloc(), octets)?),
    }
}

// Makes a call and gives its answer, or says why it is none.
fn run_call(rt: &HostRuntime, call: Call<'_>) -> Result<String, Stop> {
    match call {
        Call::Base(call) => answer(rt, call),
        Call::Join { kind, one, other } => match kind {
            Kind::V4 => ask_join::<V4>(rt, one, other),
            Kind::V6 => ask_join::<V6>(rt, one, other),
            Kind::Asn => ask_join::<Asn>(rt, one, other),
        },
        Call::Write { kind, list, area } => match kind {
            Kind::V4 => ask_write::<V4>(rt, list, area),
            Kind::V6 => ask_write::<V6>(rt, list, area),
            Kind::Asn => ask_write::<Asn>(rt, list, area),
        },
        Call::Read { form, octets } => {
            let octets = find_octets(rt, octets)?;
            ask_read(rt, form, octets.as_slice())
        },
    }
}

// Answers the calls of a log, on lists too.
#[derive(Clone, Copy)]
struct Replay<'r> {
    rt: &'r HostRuntime,
}

impl<'a> Answers<Call<'a>> for Replay<'_> {
    fn answer(&self, call: Call<'a>) -> Result<String, Stop> {
        run_call(self.rt, call)
    }
}

// Runs the lines of a log in order, up to the first that is no call.
pub fn run_replay(rt: &HostRuntime, path: &str) -> Result<(), Failure> {
    let log = read_log(rt, path)?;
    answer_calls(rt, log.as_slice(), &Replay { rt })
}
