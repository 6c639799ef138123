// The verdict on a route by the payloads of a list (RFC 6811).
//
// `judge` answers whether a route with its origin is valid, invalid or not found by the payloads of a list, and
// refuses a route whose prefix is too long for its family or has bits set past its length. Its contract says so
// twice: in the words of RFC 6811 (covers, matches), as a relation on the payloads that there are, and as an
// equation. `Verdict::word` is the word of a verdict. `relate` says how one
// payload stands to a route: whether it covers it, and why it does not match it. `verdicts_stand` has the laws: the verdict depends on the
// payloads that cover the route alone. Where every prefix of the list is lawful, only the payloads of the at most
// 33 or 129 prefixes that cover the route are looked at, and else all. It rests on `payload` for the list.
#![tactic(auto)]

ghost use Rattle.std.specs.Prelude.{◌≡◌, ℕ, ◌-◌, ◌*◌, ◌/◌, ◌^◌, ◌≤◌, Bool, true};
ghost use Rattle.payload.specs.Lists.{held};
ghost use Rattle.payload.specs.Order.{lawful, all_lawful};
ghost use Rattle.verdict.specs.Laws.{OneVerdict, SameVerdict, UncoveredStays, NoneCovers, LongerCoversNot, NoOriginMatchesNot, DifferInCover};
ghost use Rattle.verdict.specs.Routes.{covers, names, matches, verdict_of, judged, word_of, Judgement, reason_of, related, Relates};

use fault::Rule;
use payload::{Payload, PayloadList, Prefix};
use std::fmt;

// What the payloads of a list say of a route.
#[derive(Clone, Copy, PartialEq, Eq, Debug)]
pub enum Verdict {
    Valid,
    Invalid,
    NotFound,
}

impl Verdict {
    // The word by which answers name the verdict.
    pub fn word(self) -> &'static str
        ensures { result.now ≡ word_of self }
    {
        match self {
            Verdict::Valid => "valid",
            Verdict::Invalid => "invalid",
            Verdict::NotFound => "not-found",
        }
    }
}

impl fmt::Display for Verdict {
    fn fmt<W: fmt::Write>(&self, f: &mut fmt::Formatter<W>) -> fmt::Result {
        f.write_str(self.word())
    }
}

// A route: its prefix, and its origin, if it has one.
#[derive(Clone, Copy, PartialEq, Eq, Debug)]
pub struct Route {
    pub prefix: Prefix,
    pub origin: Option<u32>,
}

// Whether the route lies within the payload's prefix. The last test says all of it but the lengths; the family is asked for before,
// since no prefix has to be cut for a payload of the other one.
fn covers(p: Payload, route: Prefix) -> bool
    ensures { result ≡ covers p route }
{
    let length = p.prefix.length;
    p.prefix.family == route.family
        && length <= route.length
        && p.prefix.cut(length) == route.cut(length)
}

// Whether the payload allows a route that it covers to have this length and this origin.
fn allows(p: Payload, route: Route) -> bool
    ensures { result ≡ names p route.prefix route.origin }
{
    match route.origin {
        Some(asn) => route.prefix.length <= p.max && p.asn != 0 && asn == p.asn,
        None => false,
    }
}

// The verdict by some payloads, by a walk over them.
fn walk(payloads: &[Payload], route: Route) -> Verdict
    ensures { result ≡ verdict_of payloads.now route.prefix route.origin }
{
    let mut verdict = Verdict::NotFound;
    for p in payloads {
        if covers(*p, route.prefix) {
            if allows(*p, route) {
                return Verdict::Valid;
            }
            verdict = Verdict::Invalid;
        }
    }
    verdict
}

// The verdict by a list of lawful prefixes: of each length up to the route's, only the payloads of the one prefix
// that covers the route are looked at.
fn judge_tidy(list: &PayloadList<'_>, route: Route) -> Verdict
    requires { all_lawful (held list.now) ≡ true }
    ensures { result ≡ verdict_of (held list.now) route.prefix route.origin }
{
    let mut verdict = Verdict::NotFound;
    for length in 0..=route.prefix.length {
        match walk(list.around(route.prefix.cut(length)), route) {
            Verdict::Valid => return Verdict::Valid,
            Verdict::Invalid => verdict = Verdict::Invalid,
            Verdict::NotFound => {}
        }
    }
    verdict
}

// The verdict on a route. Refused where its prefix is too long for its family or has bits set past its length.
pub fn judge(list: &PayloadList<'_>, route: Route) -> Result<Verdict, Rule>
    ensures value { result ≡ judged (held list.now) route.prefix route.origin }
    ensures rfc { Judgement (held list.now) route.prefix route.origin result }
{
    if !route.prefix.is_lawful() {
        return Err(Rule::Prefix); // too long for its family, or with bits past its length
    }
    if list.is_tidy() {
        return Ok(judge_tidy(list, route));
    }
    Ok(walk(list.payloads(), route))
}

// How a payload stands to a route: it covers it or not, and where it covers it, it matches it or says why
// not. Where several reasons hold, the first of these stands.
#[derive(Clone, Copy, PartialEq, Eq, Debug)]
pub enum Relation {
    Apart,
    AsZero,
    NoOrigin,
    OtherAs,
    TooLong,
    Matches,
}

// Why a payload that covers a route does not match it, or that it does.
fn reason(p: Payload, route: Route) -> Relation
    ensures { result ≡ reason_of p route.prefix route.origin }
{
    if p.asn == 0 {
        return Relation::AsZero;
    }
    match route.origin {
        None => Relation::NoOrigin,
        Some(asn) if asn != p.asn => Relation::OtherAs,
        Some(_) if route.prefix.length > p.max => Relation::TooLong,
        Some(_) => Relation::Matches,
    }
}

// How a payload stands to a route. Refused as a judgement is.
pub fn relate(p: Payload, route: Route) -> Result<Relation, Rule>
    ensures value { result ≡ related p route.prefix route.origin }
    ensures rfc { Relates p route.prefix route.origin result }
{
    if !route.prefix.is_lawful() {
        return Err(Rule::Prefix);
    }
    if covers(p, route.prefix) {
        Ok(reason(p, route))
    } else {
        Ok(Relation::Apart)
    }
}

// What a verdict depends on: RFC 6811 gives one; lists of the same payloads give the same; a payload that does not
// cover the route changes nothing; a route that no payload covers is not found; a payload longer than the route
// covers it never; AS 0 and an absent origin match none; and lists that give different verdicts differ in a payload
// that covers the route.
pub fn verdicts_stand() -> bool
    ensures shown { result ≡ true }
    ensures one { OneVerdict }
    ensures same { SameVerdict }
    ensures stays { UncoveredStays }
    ensures none { NoneCovers }
    ensures longer { LongerCoversNot }
    ensures origins { NoOriginMatchesNot }
    ensures differ { DifferInCover }
{
    true
}
