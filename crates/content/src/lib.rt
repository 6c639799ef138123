// The contents of DER elements by their tags: which octets a content of each kind may have, and the typed
// value that they write.
//
// `Kind::from` says which tag is which, `check_form` whether a content has the form of its tag, and `read_boolean`,
// `read_integer`, `read_bit_string` and `read_oid` give the value. Each promises the exact answer for all octets, and that
// a value has one content only. It rests on `moment` for the two kinds of time.
#![tactic(auto)]

ghost use Rattle.std.specs.Prelude.{◌≡◌, ℕ, ◌+◌, ◌<◌, ◌≤◌, true, cond, Ok, Err, length};
ghost use Rattle.content.specs.Tags.{kind_of};
ghost use Rattle.content.specs.Forms.{form_of, boolean_form, integer_form, bits_formed, bits_form, oid_form};
ghost use Rattle.content.specs.Grammar.{Checked, ValueIn, BooleanValue, IntegerValue, BitStringValue, OidValue, ValuesOneToOne};
ghost use Rattle.content.specs.Values.{boolean_of, integer_seen, integer_of, bits_seen, bits_of, oid_seen, oid_of};

pub mod tag;

use fault::Breach;
use moment::{generalized_time, utc_time};

// What the tag of an element says of its content.
#[derive(Clone, Copy, PartialEq, Eq, Debug)]
pub enum Kind {
    Boolean,
    Integer,
    BitString,
    OctetString,
    Null,
    Oid,
    Ia5String,
    UtcTime,
    GeneralizedTime,
    Sequence,
    Set,
    // any other tag: its content has no form of its own
    Other,
}

impl From<u8> for Kind {
    ghost from_gives = { λ tag kind. kind ≡ kind_of tag };

    // Which tag is which.
    fn from(tag: u8) -> Kind
        ensures { result ≡ kind_of tag }
    {
        match tag {
            tag::BOOLEAN => Kind::Boolean,
            tag::INTEGER => Kind::Integer,
            tag::BIT_STRING => Kind::BitString,
            tag::OCTET_STRING => Kind::OctetString,
            tag::NULL => Kind::Null,
            tag::OID => Kind::Oid,
            tag::IA5_STRING => Kind::Ia5String,
            tag::UTC_TIME => Kind::UtcTime,
            tag::GENERALIZED_TIME => Kind::GeneralizedTime,
            tag::SEQUENCE => Kind::Sequence,
            tag::SET => Kind::Set,
            _ => Kind::Other,
        }
    }
}

fn is_boolean(content: &[u8]) -> bool
    ensures { result ≡ boolean_form content.now }
{
    content.len() == 1 && (content[0] == 0 || content[0] == 0xff)
}

fn is_integer(content: &[u8]) -> bool
    ensures { result ≡ integer_form content.now }
{
    if content.len() < 2 {
        return content.len() == 1;
    }
    if content[1] < 128 {
        content[0] != 0
    } else {
        content[0] != 0xff
    }
}

fn is_oid(content: &[u8]) -> bool
    ensures { result ≡ oid_form content.now }
{
    if content.is_empty() {
        return false;
    }
    let mut begins = true;
    for octet in content {
        if begins && *octet == 0x80 {
            return false;
        }
        begins = *octet < 0x80;
    }
    begins
}

// That a form holds, or the breach of it.
fn formed_or(formed: bool, breach: Breach) -> Result<(), Breach>
    ensures { result ≡ cond formed (Ok tt) (Err breach) }
{
    if formed { Ok(()) } else { Err(breach) }
}

// Whether a content has the form of its kind, or how it breaks it.
fn form_of(kind: Kind, content: &[u8]) -> Result<(), Breach>
    ensures { result ≡ form_of kind content.now }
{
    match kind {
        Kind::Boolean => formed_or(is_boolean(content), Breach::Boolean),
        Kind::Integer => formed_or(is_integer(content), Breach::Integer),
        Kind::BitString => formed_or(read_bit_string(content).is_some(), Breach::BitString),
        Kind::Null => formed_or(content.is_empty(), Breach::Null),
        Kind::Oid => formed_or(is_oid(content), Breach::Oid),
        Kind::Ia5String => formed_or(content.is_ascii(), Breach::Ia5String),
        Kind::UtcTime => formed_or(utc_time(content).is_some(), Breach::Time),
        Kind::GeneralizedTime => formed_or(generalized_time(content).is_some(), Breach::Time),
        Kind::OctetString | Kind::Sequence | Kind::Set | Kind::Other => Ok(()),
    }
}

// Whether a content has the form that its tag asks for, or how it breaks it.
pub fn check_form(tag: u8, content: &[u8]) -> Result<(), Breach>
    ensures value { result ≡ form_of (kind_of tag) content.now }
    ensures grammar { Checked (kind_of tag) content.now result }
{
    form_of(Kind::from(tag), content)
}

// The value of a BOOLEAN.
pub fn read_boolean(content: &[u8]) -> Option<bool>
    ensures value { result ≡ boolean_of content.now }
    ensures grammar { ValueIn BooleanValue content.now result }
{
    let first = content.first()?;
    is_boolean(content).then_some(*first == 0xff)
}

// An INTEGER: its octets in two's complement, the highest first, and whether it lies below zero.
#[derive(Clone, Copy)]
pub struct Integer<'a> {
    pub octets: &'a [u8],
    pub negative: bool,
}

// The value of an INTEGER.
pub fn read_integer<'a>(content: &'a [u8]) -> Option<Integer<'a>>
    ensures value { integer_seen result ≡ integer_of content.now }
    ensures grammar { ValueIn IntegerValue content.now (integer_seen result) }
{
    let first = content.first()?;
    is_integer(content).then_some(Integer {
        octets: content,
        negative: *first >= 0x80,
    })
}

// A BIT STRING: its octets, and how many bits at the end of the last are not part of it.
#[derive(Clone, Copy)]
pub struct BitString<'a> {
    pub octets: &'a [u8],
    pub unused: u8,
}

impl BitString<'_> {
    // Whether the count is 0 to 7 and the unused bits are zeros, and without octets there are none.
    pub fn is_formed(self) -> bool
        ensures { result ≡ bits_formed self.entry.octets.now self.entry.unused }
    {
        if self.unused > 7 {
            return false;
        }
        match self.octets.last() {
            Some(last) => *last % (1 << self.unused) == 0,
            None => self.unused == 0,
        }
    }
}

// The value of a BIT STRING.
pub fn read_bit_string<'a>(content: &'a [u8]) -> Option<BitString<'a>>
    ensures value { bits_seen result ≡ bits_of content.now }
    ensures grammar { ValueIn BitStringValue content.now (bits_seen result) }
{
    let (unused, octets) = content.split_first()?;
    let bits = BitString {
        octets,
        unused: *unused,
    };
    bits.is_formed().then_some(bits)
}

// An OBJECT IDENTIFIER: its numbers in base 128.
#[derive(Clone, Copy)]
pub struct Oid<'a> {
    pub octets: &'a [u8],
}

// The value of an OBJECT IDENTIFIER.
pub fn read_oid<'a>(content: &'a [u8]) -> Option<Oid<'a>>
    ensures value { oid_seen result ≡ oid_of content.now }
    ensures grammar { ValueIn OidValue content.now (oid_seen result) }
{
    is_oid(content).then_some(Oid { octets: content })
}

// No content has two values, and no value two contents, for each kind that has a typed value.
pub fn values_have_one_content() -> bool
    ensures shown { result ≡ true }
    ensures theorem { ValuesOneToOne }
{
    let shown = true;
    shown
}
