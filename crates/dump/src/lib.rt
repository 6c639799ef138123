// Elements as text: a line for each, with its offset, its nesting by indentation, the name of its tag, the
// length of its content and, where no elements stand inside, the value in readable form.
//
// `push_line` appends such a line to a text and leaves what stands before it. Long values are cut after
// `SHOWN` octets unless the whole is asked for, and indentation stops at `DEEPEST`, so that no file makes
// the text longer than a fixed number of times its own length. It rests on `walk` and `content`.
#![tactic(auto)]

ghost use Rattle.std.specs.Prelude.{◌≡◌};

use content::{BitString, Integer, Kind, read_bit_string, read_boolean, read_integer, tag};
use hex_text::push_octets;
use moment::{Moment, generalized_time, utc_time};
use std::alloc::{AllocError, Global};
use walk::{Node, is_constructed};

// How many octets of a value are shown where not all are asked for.
pub const SHOWN: usize = 128;

// How many levels are indented; deeper ones are counted.
pub const DEEPEST: usize = 32;

// How much of a long value is shown.
#[derive(Clone, Copy, PartialEq, Eq)]
pub enum Values {
    Cut,
    Whole,
}

// What the line of an element shows: its offset, how many elements stand around it, its tag and its content.
#[derive(Clone, Copy)]
pub struct Line<'a> {
    pub place: usize,
    pub depth: usize,
    pub tag: u8,
    pub octets: &'a [u8],
}

impl<'a> From<&Node<'a>> for Line<'a> {
    ghost from_gives = { λ node line. (line.place ≡ node.now.element.place) × (line.depth ≡ node.now.depth) × (line.tag ≡ node.now.element.tag)
        × (line.octets.now ≡ node.now.element.content.octets.now) };

    fn from(node: &Node<'a>) -> Line<'a> {
        Line {
            place: node.element.place,
            depth: node.depth,
            tag: node.element.tag,
            octets: node.element.content.octets,
        }
    }
}

// The name of a tag that has one.
fn tag_name(tag: u8) -> Option<&'static str> {
    match tag {
        tag::BOOLEAN => Some("BOOLEAN"),
        tag::INTEGER => Some("INTEGER"),
        tag::BIT_STRING => Some("BIT STRING"),
        tag::OCTET_STRING => Some("OCTET STRING"),
        tag::NULL => Some("NULL"),
        tag::OID => Some("OBJECT IDENTIFIER"),
        tag::ENUMERATED => Some("ENUMERATED"),
        tag::UTF8_STRING => Some("UTF8String"),
        tag::PRINTABLE_STRING => Some("PrintableString"),
        tag::IA5_STRING => Some("IA5String"),
        tag::UTC_TIME => Some("UTCTime"),
        tag::GENERALIZED_TIME => Some("GeneralizedTime"),
        tag::SEQUENCE => Some("SEQUENCE"),
        tag::SET => Some("SET"),
        _ => None,
    }
}

// The number that the octets of an INTEGER of at most 64 bits write.
fn number_of(value: &Integer<'_>) -> i64 {
    let sign = if value.negative { -1 } else { 0 };
    value
        .octets
        .iter()
        .fold(sign, |number, octet| (number << 8) | i64::from(*octet))
}

// Whether an octet is the last of a number of an OBJECT IDENTIFIER.
fn ends_arc(octet: u8) -> bool {
    octet < 128
}

// Whether no number of an OBJECT IDENTIFIER is past 128 bits; the octets are read up to the first that makes one so.
fn arcs_fit(octets: &[u8]) -> bool {
    let last = octets.iter().try_fold(0u128, |number, octet| {
        let number = number.checked_mul(128)? | u128::from(octet % 128);
        Some(if ends_arc(*octet) { 0 } else { number })
    });
    last.is_some()
}

// One number of an OBJECT IDENTIFIER, which is not past 128 bits.
fn arc(octets: &[u8]) -> u128 {
    octets.iter().fold(
        0u128,
        |number, octet| (number << 7) | u128::from(octet % 128),
    )
}

// The first number of the octets is forty times the first of the identifier, which is at most 2, and the second.
fn first_two(number: u128) -> (u128, u128) {
    let first = (number / 40).min(2);
    (first, number - first * 40)
}

// An OBJECT IDENTIFIER in dotted form, or none where a number in it is past 128 bits. A last number that does not end
// is left out.
fn dotted(heap: Global, octets: &[u8]) -> Result<Option<String>, AllocError> {
    if !arcs_fit(octets) {
        return Ok(None);
    }
    let mut text = String::new(heap);
    for part in octets.split_inclusive(|octet| ends_arc(*octet)) {
        if !part.last().is_some_and(|octet| ends_arc(*octet)) {
            break;
        }
        let number = arc(part);
        if text.is_empty() {
            let (first, second) = first_two(number);
            write!(text, "{first}.{second}")?;
        } else {
            write!(text, ".{number}")?;
        }
    }
    Ok(Some(text))
}

// What the identifiers that RPKI files have are called.
const NAMES: [(&str, &str); 28] = [
    ("1.2.840.113549.1.1.1", "rsaEncryption"),
    ("1.2.840.113549.1.1.11", "sha256WithRSAEncryption"),
    ("1.2.840.113549.1.7.2", "signedData"),
    ("1.2.840.113549.1.9.3", "contentType"),
    ("1.2.840.113549.1.9.4", "messageDigest"),
    ("1.2.840.113549.1.9.5", "signingTime"),
    ("1.2.840.113549.1.9.16.1.24", "routeOriginAuthz"),
    ("1.2.840.113549.1.9.16.1.26", "rpkiManifest"),
    ("2.16.840.1.101.3.4.2.1", "sha256"),
    ("2.5.4.3", "commonName"),
    ("2.5.4.5", "serialNumber"),
    ("2.5.29.14", "subjectKeyIdentifier"),
    ("2.5.29.15", "keyUsage"),
    ("2.5.29.19", "basicConstraints"),
    ("2.5.29.20", "cRLNumber"),
    ("2.5.29.31", "cRLDistributionPoints"),
    ("2.5.29.32", "certificatePolicies"),
    ("2.5.29.35", "authorityKeyIdentifier"),
    ("1.3.6.1.5.5.7.1.1", "authorityInfoAccess"),
    ("1.3.6.1.5.5.7.1.7", "ipAddrBlocks"),
    ("1.3.6.1.5.5.7.1.8", "autonomousSysIds"),
    ("1.3.6.1.5.5.7.1.11", "subjectInfoAccess"),
    ("1.3.6.1.5.5.7.14.2", "ipAddr-asNumber"),
    ("1.3.6.1.5.5.7.48.2", "caIssuers"),
    ("1.3.6.1.5.5.7.48.5", "caRepository"),
    ("1.3.6.1.5.5.7.48.10", "rpkiManifest"),
    ("1.3.6.1.5.5.7.48.11", "signedObject"),
    ("1.3.6.1.5.5.7.48.13", "rpkiNotify"),
];

// The name of an identifier in dotted form, where it has one.
fn oid_name(dotted: &str) -> Option<&'static str> {
    NAMES
        .iter()
        .find(|entry| entry.0 == dotted)
        .map(|entry| entry.1)
}

// Whether an octet is a printable ASCII character.
fn is_printable(octet: u8) -> bool {
    matches!(octet, b' '..=b'~')
}

// Whether octets are printable ASCII throughout, at least one.
fn is_text(octets: &[u8]) -> bool {
    !octets.is_empty() && octets.iter().all(|octet| is_printable(*octet))
}

// A text to append to, and how much of each value it shows.
#[derive(Drop)]
struct Printer<'t> {
    text: &'t mut String,
    values: Values,
}

impl Printer<'_> {
    // Those of some octets that are shown.
    fn shown<'o>(&self, octets: &'o [u8]) -> &'o [u8] {
        match self.values {
            Values::Cut => &octets[..octets.len().min(SHOWN)],
            Values::Whole => octets,
        }
    }

    // Appends how many octets there are where they are cut.
    fn push_count(&mut self, octets: &[u8]) -> Result<(), AllocError> {
        let count = octets.len();
        if self.shown(octets).len() < count {
            write!(self.text, ".. ({count} octets)")?;
        }
        Ok(())
    }

    // Appends two spaces for each level, and past the deepest that is indented the level itself.
    fn push_indent(&mut self, depth: usize) -> Result<(), AllocError> {
        for _ in 0..depth.min(DEEPEST) {
            self.text.push_str("  ")?;
        }
        if depth > DEEPEST {
            write!(self.text, "<level {depth}> ")?;
        }
        Ok(())
    }

    // Appends the name of a tag: that of a universal one, `[N]` for the context's own, or the octet itself.
    fn push_tag(&mut self, tag: u8) -> Result<(), AllocError> {
        if let Some(name) = tag_name(tag) {
            return self.text.push_str(name);
        }
        if tag >= 0x80 && tag < 0xc0 {
            return write!(self.text, "[{}]", tag % 32);
        }
        write!(self.text, "tag {tag:02x}")
    }

    // Appends octets in hexadecimal, and where they are cut how many there are.
    fn push_hex(&mut self, octets: &[u8]) -> Result<(), AllocError> {
        let shown = self.shown(octets);
        push_octets(self.text, shown)?;
        self.push_count(octets)
    }

    // Appends an INTEGER: in decimal up to eight octets, and a longer one in hexadecimal.
    fn push_integer(&mut self, value: &Integer<'_>) -> Result<(), AllocError> {
        if value.octets.len() <= 8 {
            return write!(self.text, "{}", number_of(value));
        }
        self.text.push_str(if value.negative {
            "(negative) 0x"
        } else {
            "0x"
        })?;
        self.push_hex(value.octets)
    }

    // Appends a BIT STRING: its octets, and how many bits they hold.
    fn push_bits(&mut self, value: &BitString<'_>) -> Result<(), AllocError> {
        self.push_hex(value.octets)?;
        let bits = value
            .octets
            .len()
            .wrapping_mul(8)
            .wrapping_sub(value.unused as usize);
        write!(self.text, " ({bits} bits)")
    }

    // Appends an OBJECT IDENTIFIER: in dotted form with its name, or in hexadecimal where a number or the whole is too long.
    fn push_oid(&mut self, octets: &[u8]) -> Result<(), AllocError> {
        let heap = *self.text.allocator();
        let form = match dotted(heap, octets)? {
            Some(form) if self.values == Values::Whole || form.len() <= 2 * SHOWN => form,
            _ => {
                self.text.push_str("0x")?;
                return self.push_hex(octets);
            },
        };
        self.text.push_str(form.as_str())?;
        match oid_name(form.as_str()) {
            Some(name) => write!(self.text, " ({name})"),
            None => Ok(()),
        }
    }

    // Appends a text in quotes, with every octet that is no printable ASCII as a backslash and two digits.
    fn push_text(&mut self, octets: &[u8]) -> Result<(), AllocError> {
        let shown = self.shown(octets);
        let text = &mut *self.text;
        text.push('"')?;
        for octet in shown {
            if is_printable(*octet) && *octet != b'"' && *octet != b'\\' {
                text.push(*octet as char)?;
            } else {
                text.push('\\')?;
                push_octets(text, &[*octet])?;
            }
        }
        text.push('"')?;
        self.push_count(octets)
    }

    // Appends a moment as a date and a time.
    fn push_moment(&mut self, moment: Moment) -> Result<(), AllocError> {
        let date = moment.number() / 1_000_000;
        let time = moment.number() % 1_000_000;
        let (year, month, day) = (date / 10_000, date / 100 % 100, date % 100);
        let (hour, minute, second) = (time / 10_000, time / 100 % 100, time % 100);
        write!(
            self.text,
            "{year:04}-{month:02}-{day:02} {hour:02}:{minute:02}:{second:02} UTC"
        )
    }

    // Appends the octets of a tag without a typed value: in hexadecimal, and as text too where they are such.
    fn push_other(&mut self, tag: u8, octets: &[u8]) -> Result<(), AllocError> {
        if tag == tag::UTF8_STRING || tag == tag::PRINTABLE_STRING {
            return self.push_text(octets);
        }
        self.push_hex(octets)?;
        if tag >= 0x80 && is_text(octets) {
            self.text.push(' ')?;
            self.push_text(octets)?;
        }
        Ok(())
    }

    // Appends a time as the moment that it says, or its octets where it says none, which are always cut.
    fn push_time(&mut self, time: Option<Moment>, octets: &[u8]) -> Result<(), AllocError> {
        match time {
            Some(moment) => self.push_moment(moment),
            None => {
                let mut cut = Printer {
                    text: self.text,
                    values: Values::Cut,
                };
                cut.push_hex(octets)
            },
        }
    }

    // Appends the value of a content. The octets have the form of their tag; where a typed value has none, they
    // are shown as they stand.
    fn push_value(&mut self, tag: u8, octets: &[u8]) -> Result<(), AllocError> {
        match Kind::from(tag) {
            Kind::Boolean => match read_boolean(octets) {
                Some(true) => self.text.push_str("TRUE"),
                Some(false) => self.text.push_str("FALSE"),
                None => self.push_hex(octets),
            },
            Kind::Integer => match read_integer(octets) {
                Some(value) => self.push_integer(&value),
                None => self.push_hex(octets),
            },
            Kind::BitString => match read_bit_string(octets) {
                Some(value) => self.push_bits(&value),
                None => self.push_hex(octets),
            },
            Kind::Oid => self.push_oid(octets),
            Kind::Ia5String => self.push_text(octets),
            Kind::UtcTime => self.push_time(utc_time(octets), octets),
            Kind::GeneralizedTime => self.push_time(generalized_time(octets), octets),
            _ => self.push_other(tag, octets),
        }
    }

    // Appends the line of an element, with its newline.
    fn push_line(&mut self, line: Line<'_>) -> Result<(), AllocError> {
        let place = line.place;
        write!(self.text, "{place:>7}  ")?;
        self.push_indent(line.depth)?;
        self.push_tag(line.tag)?;
        let size = line.octets.len();
        write!(self.text, " ({size})")?;
        if !is_constructed(line.tag) && !line.octets.is_empty() {
            self.text.push(' ')?;
            self.push_value(line.tag, line.octets)?;
        }
        self.text.push('\n')
    }
}

// Appends the line of an element, with its newline: offset, indentation, the tag's name, the length and the
// value.
pub fn push_line(text: &mut String, line: Line<'_>, values: Values) -> Result<(), AllocError> {
    let mut printer = Printer { text, values };
    printer.push_line(line)
}
