// The records of a verdict book: what digests and verdicts someone once computed, as a run of octets.
//
// A record is a kind octet and its fields, each a length of three octets, high octet first, and that many
// octets. Kind 44 has octets and their digest, which has 32 octets, kind 59 the claim that was found good: a key, a
// message and a signature. `read_record` answers the record at the front of some octets and the octets after it,
// as parts of the input, or none where no whole record of this shape stands there. The records of a book are those
// read so one after another, and octets appended to a book leave its records in their places. It rests on `oracle`
// for the claim alone.
#![tactic(auto)]

ghost use Rattle.std.specs.Prelude.{◌≡◌, MatchResult};
ghost use Rattle.std.specs.Iterator.{YieldsFirstBy, item_count};
ghost use Rattle.record.specs.Format.{field_of, digest_record, verdict_record, record_of, records};
ghost use Rattle.record.specs.Views.{kind_octet, StandsForNone, field_seen, reading_seen, record_seen, records_left};
ghost use Rattle.record.specs.Promises.{AppendedOctetsKeepRecords, AppendedRecordIsTheLast, BookIsItsRecords, WrittenRecordsAreRead, LeftoverSaysNothing};

use oracle::Claim;

// The kinds of records, and the octet that stands for each.
#[derive(Clone, Copy, PartialEq, Eq)]
pub enum Kind {
    // octets and their digest
    Digest = 0x44,
    // a claim that was found good
    Verdict = 0x59,
}

// The octet that stands for kind 44.
pub const DIGEST: u8 = Kind::Digest as u8;

// The octet that stands for kind 59.
pub const VERDICT: u8 = Kind::Verdict as u8;

// An octet that stands for no kind.
#[derive(Clone, Copy, PartialEq, Eq, Debug)]
pub struct UnknownKind;

impl TryFrom<u8> for Kind {
    type Error = UnknownKind;

    ghost try_from_gives = { λ octet r. MatchResult r (λ kind. kind_octet kind ≡ octet) (λ _. StandsForNone octet) };

    fn try_from(octet: u8) -> Result<Kind, UnknownKind> {
        match octet {
            0x44 => Ok(Kind::Digest),
            0x59 => Ok(Kind::Verdict),
            _ => Err(UnknownKind),
        }
    }
}

// Octets, and their digest.
#[derive(Clone, Copy, PartialEq, Eq)]
pub struct KnownDigest<'a> {
    pub octets: &'a [u8],
    pub digest: [u8; 32],
}

// A record: a known digest, or a claim that was found good.
#[derive(Clone, Copy, PartialEq, Eq)]
pub enum Record<'a> {
    Digest(KnownDigest<'a>),
    Verdict(Claim<'a>),
}

// What was read at the front of some octets, and the octets after it.
#[derive(Clone, Copy)]
pub struct Reading<'a, T> {
    pub value: T,
    pub rest: &'a [u8],
}

// The field at the front of some octets, where it is whole.
fn read_field<'a>(s: &'a [u8]) -> Option<Reading<'a, &'a [u8]>>
    ensures { field_seen result ≡ field_of s.now }
{
    let [high, middle, low, after @ ..] = s else {
        return None;
    };
    let length = u32::from_be_bytes([0, *high, *middle, *low]);
    let (value, rest) = after.split_at_checked(length as usize)?;
    Some(Reading { value, rest })
}

// The record of kind 44 whose fields stand at the front of some octets.
fn read_digest<'a>(fields: &'a [u8]) -> Option<Reading<'a, Record<'a>>>
    ensures { reading_seen result ≡ digest_record fields.now }
{
    let first = read_field(fields)?;
    let second = read_field(first.rest)?;
    let octets = first.value;
    let digest = <[u8; 32]>::try_from(second.value).ok()?;
    Some(Reading {
        value: Record::Digest(KnownDigest { octets, digest }),
        rest: second.rest,
    })
}

// The record of kind 59 whose fields stand at the front of some octets.
fn read_verdict<'a>(fields: &'a [u8]) -> Option<Reading<'a, Record<'a>>>
    ensures { reading_seen result ≡ verdict_record fields.now }
{
    let first = read_field(fields)?;
    let second = read_field(first.rest)?;
    let third = read_field(second.rest)?;
    let key = first.value;
    let message = second.value;
    let signature = third.value;
    Some(Reading {
        value: Record::Verdict(Claim {
            key,
            message,
            signature,
        }),
        rest: third.rest,
    })
}

// The record at the front of some octets, where it is whole and of its kind's shape.
pub fn read_record<'a>(s: &'a [u8]) -> Option<Reading<'a, Record<'a>>>
    ensures { reading_seen result ≡ record_of s.now }
{
    let (kind, fields) = s.split_first()?;
    match Kind::try_from(*kind) {
        Ok(Kind::Digest) => read_digest(fields),
        Ok(Kind::Verdict) => read_verdict(fields),
        Err(UnknownKind) => None,
    }
}

// The records of a book, one after another: those of the octets that are left.
#[derive(Clone, Copy)]
pub struct Records<'a> {
    rest: &'a [u8],
}

impl<'a> Records<'a> {
    // The records of a book from its front on.
    pub fn of(book: &'a [u8]) -> Records<'a>
        ensures { records_left result ≡ records book.now }
    {
        Records { rest: book }
    }
}

impl<'a> Iterator for Records<'a> {
    type Item = Record<'a>;

    ghost next_gives = { YieldsFirstBy record_seen records_left };

    ghost remaining = { item_count records_left };

    fn next(&mut self) -> Option<Record<'a>> {
        let reading = read_record(self.rest)?;
        self.rest = reading.rest;
        Some(reading.value)
    }
}

// Octets appended to a book leave its records as they were.
pub fn appended_octets_keep_records() -> bool
    ensures { AppendedOctetsKeepRecords }
{
    true
}

// A record appended to a whole book is its last record.
pub fn appended_record_is_the_last() -> bool
    ensures { AppendedRecordIsTheLast }
{
    true
}

// A book is its records and then octets that begin with none.
pub fn book_is_its_records() -> bool
    ensures { BookIsItsRecords }
{
    true
}

// Records that can be written are read again, whatever follows.
pub fn written_records_are_read() -> bool
    ensures { WrittenRecordsAreRead }
{
    true
}

// What stands after the last whole record says nothing.
pub fn leftover_says_nothing() -> bool
    ensures { LeftoverSaysNothing }
{
    true
}
