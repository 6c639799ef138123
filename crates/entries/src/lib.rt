// One entry of a list of resources: for addresses a prefix or a range, for AS numbers a number or a range.
//
// A `Resource` is a kind of points that certificates list; `V4`, `V6` and `Asn` are such kinds. It rests on
// `prefixes` for bit strings as addresses and on `layout` for what a layout wants.
#![tactic(auto)]

ghost use Rattle.std.specs.Prelude.{◌≡◌, ◌^◌, ◌<◌, ◌≤◌, length, IfSome, IfOk, Result};
ghost use Rattle.std.specs.Int.Digits.{number_from_digits};
ghost use Rattle.fault.specs.declared.Report.{Report};
ghost use Rattle.fault.specs.Faults.{set_report, reported};
ghost use Rattle.family.specs.Widths.{width};
ghost use Rattle.element.specs.Reading.{Seen, seen, octets_of};
ghost use Rattle.layout.specs.Expecting.{told_by};
ghost use Rattle.ranges.specs.declared.Range.{Range};
ghost use Rattle.entries.specs.Numbers.{as_number};
ghost use Rattle.entries.specs.Addresses.{ends_of};
ghost use Rattle.entries.specs.Forms.{bits, tag, both, low, high, stands, standing, pair_in, entry_in};
ghost use Rattle.entries.specs.Kinds.{v4_entry, v6_entry, asn_entry};

use content::{read_bit_string, tag};
use element::{Element, Part};
use family::Family;
use fault::{Rule, SetFault};
use layout::{LayerFault, end, expect};
use points::{Asn, Point, V4, V6};
use prefixes::{ends_in_one, high_end, is_prefix, low_end};
use ranges::Range;

// A kind of points that certificates list: how one entry is read.
pub trait Resource: Point {
    // the range that an element says, or the fault in it
    ghost entry: { Seen → Result (Range Self) Report };

    fn read_entry(element: &Element<'_>) -> Result<Range<Self>, SetFault>
        ensures { reported set_report result ≡ entry (seen element.now) };
}

// How the points of an entry are written: as the addresses of a family, or as AS numbers.
#[derive(Clone, Copy, PartialEq, Eq, Debug)]
enum Form {
    Addresses(Family),
    Numbers,
}

impl Form {
    // The tag of a point.
    fn tag(self) -> u8
        ensures { result ≡ tag self }
    {
        match self {
            Form::Addresses(_) => tag::BIT_STRING,
            Form::Numbers => tag::INTEGER,
        }
    }

    // Both ends of an entry that is no range: a prefix, or one number.
    fn both(self, content: &[u8]) -> Option<(u128, u128)>
        ensures value { result ≡ both self content.now }
        ensures bound { IfSome result (λ p. (p.0 < 2 ^ bits self) × (p.1 < 2 ^ bits self)) }
    {
        match self {
            Form::Addresses(family) => {
                let prefix = read_bit_string(content)?;
                Some((low_end(prefix, family)?, high_end(prefix, family)?))
            },
            Form::Numbers => {
                let number = u128::from(as_number(content)?);
                Some((number, number))
            },
        }
    }

    // The first point of a range: the bits of an address do not end in a zero.
    fn low(self, content: &[u8]) -> Option<u128>
        ensures value { result ≡ low self content.now }
        ensures bound { IfSome result (λ a. a < 2 ^ bits self) }
    {
        match self {
            Form::Addresses(family) => {
                let first = read_bit_string(content)?;
                if let Some(false) = ends_in_one(first) {
                    return None;
                }
                low_end(first, family)
            },
            Form::Numbers => Some(u128::from(as_number(content)?)),
        }
    }

    // The last point of a range: the bits of an address do not end in a one.
    fn high(self, content: &[u8]) -> Option<u128>
        ensures value { result ≡ high self content.now }
        ensures bound { IfSome result (λ z. z < 2 ^ bits self) }
    {
        match self {
            Form::Addresses(family) => {
                let last = read_bit_string(content)?;
                if let Some(true) = ends_in_one(last) {
                    return None;
                }
                high_end(last, family)
            },
            Form::Numbers => Some(u128::from(as_number(content)?)),
        }
    }

    // Whether two points may stand as the ends of a range: they ascend, and are those of no prefix.
    fn stands(self, first: u128, last: u128) -> bool
        ensures { result ≡ stands self first last }
    {
        match self {
            Form::Addresses(family) => first < last && !is_prefix(first, last, family),
            Form::Numbers => first < last,
        }
    }
}

// The first and the last point of a range, from its two elements, and the octets after them.
fn read_ends<'a>(content: Part<'a>, form: Form) -> Result<(u128, u128, Part<'a>), SetFault>
    ensures value { told_by set_report (λ h. (h.0, h.1, octets_of h.2)) result ≡ ends_of (tag form) (low form) (high form) (standing form) (octets_of content.entry) }
    ensures bound { IfOk result (λ h. (h.0 < 2 ^ bits form) × (h.1 < 2 ^ bits form)) }
{
    let (low, rest) = expect::<SetFault>(content, form.tag())?;
    let Some(first) = form.low(low.content.octets) else {
        return Err(SetFault::own(Rule::Value, low.place));
    };
    let (high, rest) = expect::<SetFault>(rest, form.tag())?;
    let Some(last) = form.high(high.content.octets) else {
        return Err(SetFault::own(Rule::Value, high.place));
    };
    if !form.stands(first, last) {
        return Err(SetFault::own(Rule::Value, high.place));
    }
    Ok((first, last, rest))
}

// The first and the last point of a range, whose content is two elements and nothing more.
fn read_pair(content: Part<'_>, form: Form) -> Result<(u128, u128), SetFault>
    ensures value { reported set_report result ≡ pair_in form (octets_of content.entry) }
    ensures bound { IfOk result (λ p. (p.0 < 2 ^ bits form) × (p.1 < 2 ^ bits form)) }
{
    let (first, last, rest) = read_ends(content, form)?;
    end::<SetFault>(rest)?;
    Ok((first, last))
}

// The first and the last point of an entry: a prefix or one number, or a range.
fn read_points(element: &Element<'_>, form: Form) -> Result<(u128, u128), SetFault>
    ensures value { reported set_report result ≡ entry_in form (seen element.now) }
    ensures bound { IfOk result (λ p. (p.0 < 2 ^ bits form) × (p.1 < 2 ^ bits form)) }
{
    if element.tag == form.tag() {
        return match form.both(element.content.octets) {
            Some(ends) => Ok(ends),
            None => Err(SetFault::own(Rule::Value, element.place)),
        };
    }
    if element.tag != tag::SEQUENCE {
        return Err(SetFault::own(Rule::Structure, element.place));
    }
    read_pair(element.content, form)
}

impl Resource for V4 {
    ghost entry = { v4_entry };

    fn read_entry(element: &Element<'_>) -> Result<Range<V4>, SetFault> {
        let (first, last) = read_points(element, Form::Addresses(Family::Ipv4))?;
        Ok(Range {
            first: V4 { word: first as u32 },
            last: V4 { word: last as u32 },
        })
    }
}

impl Resource for V6 {
    ghost entry = { v6_entry };

    fn read_entry(element: &Element<'_>) -> Result<Range<V6>, SetFault> {
        let (first, last) = read_points(element, Form::Addresses(Family::Ipv6))?;
        Ok(Range {
            first: V6::from(first),
            last: V6::from(last),
        })
    }
}

impl Resource for Asn {
    ghost entry = { asn_entry };

    fn read_entry(element: &Element<'_>) -> Result<Range<Asn>, SetFault> {
        let (first, last) = read_points(element, Form::Numbers)?;
        Ok(Range {
            first: Asn {
                number: first as u32,
            },
            last: Asn {
                number: last as u32,
            },
        })
    }
}

// The number that few octets write, the highest first.
fn big_endian(octets: &[u8]) -> u64
    requires { length octets.now ≤ 5 }
    ensures { result ≡ number_from_digits 256 octets.now }
{
    let mut value: u64 = 0;
    for octet in octets {
        value = value * 256 + u64::from(*octet);
    }
    value
}

// An AS number, from the content of an INTEGER.
pub fn as_number(content: &[u8]) -> Option<u32>
    ensures { result ≡ as_number content.now }
{
    if content.is_empty() || content.len() > 5 || content[0] >= 128 {
        return None;
    }
    u32::try_from(big_endian(content)).ok()
}
