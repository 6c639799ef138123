// `zapuhoti judge`: the verdict on a route by a printed list of payloads.
use fault::Rule;
use listing::put_line;
use listing_reader::{BadLine, read};
use payload::{Family, Payload, PayloadList, Prefix};
use route_text::{Misspelt, read_origin, read_route};
use running::files::{Failure, flush, read_log};
use std::alloc::AllocError;
use verdict::{Relation, Route, judge, relate};

// How many payloads a list holds.
const ROOM: usize = 4096;

// Says that a word of the command is misspelt.
fn tell_word(rt: &HostRuntime, word: &str, why: Misspelt) -> Failure {
    match eprintln!(rt; "zapuhoti: {word}: {why}") {
        Ok(()) => Failure::Told,
        Err(_) => Failure::Output,
    }
}

// Says by which rule a route is refused.
fn tell_refusal(rt: &HostRuntime, word: &str, rule: Rule) -> Failure {
    let number = rule.number();
    match eprintln!(rt;
        "zapuhoti: {word}: fault {number}: write a length up to 32, or up to 128 for IPv6, and an address with no bits set past it"
    ) {
        Ok(()) => Failure::Told,
        Err(_) => Failure::Output,
    }
}

// A payload that stands in the room of a list before it is read.
const BLANK: Payload = Payload {
    asn: 0,
    prefix: Prefix {
        family: Family::Ipv4,
        address: 0,
        length: 0,
    },
    max: 0,
};

// The line of a payload without its newline, as it is printed.
fn line_of<'a>(p: Payload, area: &'a mut [u8; 256]) -> &'a str {
    let size = put_line(area, p);
    match std::str::from_utf8(&area[..size]) {
        Ok(line) => line.trim_end(),
        Err(_) => "",
    }
}

// Appends the line of a payload that covers a route, and why it does not match; nothing of one that does not cover it.
fn push_relation(text: &mut String, p: Payload, relation: Relation) -> Result<(), AllocError> {
    let mut area = [0u8; 256];
    let line = line_of(p, &mut area);
    match relation {
        Relation::Apart => Ok(()),
        Relation::Matches => writeln!(text, "matches {line}"),
        Relation::AsZero => writeln!(text, "covers {line}: AS 0 matches no route"),
        Relation::NoOrigin => writeln!(text, "covers {line}: the route has no origin"),
        Relation::OtherAs => writeln!(text, "covers {line}: another AS"),
        Relation::TooLong => writeln!(text, "covers {line}: the route is longer than the maximum"),
    }
}

// Prints the verdict, and a line for each payload that covers the route.
fn print_verdict(
    rt: &HostRuntime,
    list: &PayloadList<'_>,
    word: &str,
    route: Route,
) -> Result<(), Failure> {
    match judge(list, route) {
        Ok(verdict) => println!(rt; "{}", verdict.word())?,
        Err(rule) => return Err(tell_refusal(rt, word, rule)),
    }
    let mut text = String::new(rt.alloc());
    for p in list.payloads() {
        match relate(*p, route) {
            Err(_) | Ok(Relation::Apart) => {},
            Ok(relation) => {
                push_relation(&mut text, *p, relation)?;
                flush(rt, &mut text, false)?;
            },
        }
    }
    flush(rt, &mut text, true)
}

// Judges a route with its origin by the payloads of a printed list.
pub fn run_judge(
    rt: &HostRuntime,
    path: &str,
    route_word: &str,
    origin_word: &str,
) -> Result<(), Failure> {
    let prefix = match read_route(route_word.as_bytes()) {
        Ok(prefix) => prefix,
        Err(why) => return Err(tell_word(rt, route_word, why)),
    };
    let origin = match read_origin(origin_word.as_bytes()) {
        Ok(origin) => origin,
        Err(why) => return Err(tell_word(rt, origin_word, why)),
    };
    let octets = read_log(rt, path)?;
    let mut entries = vec![in rt.alloc(); BLANK; ROOM]?;
    let mut list = PayloadList::new(entries.as_mut_slice());
    if let Err(BadLine { line, why }) = read(octets.as_slice(), &mut list) {
        eprintln!(rt; "line {line}: {why}")?;
        return Err(Failure::Told);
    }
    print_verdict(rt, &list, route_word, Route { prefix, origin })
}
