// The verdict book as an oracle: it answers what its records say, and nothing else.
//
// A `Book` lies over the octets of a verdict book. The first record of kind 44 with the same octets gives their
// digest, and a claim is good exactly where an equal record of kind 59 stands among the records; what stands
// after the last whole record says nothing. Each question walks over the records by their lengths, and compares
// a record's octets only where the lengths agree. It rests on `record` for the format and on `oracle` for what an
// oracle is.
#![tactic(auto)]

ghost use Rattle.std.specs.Prelude.{◌≡◌};
ghost use Rattle.oracle.specs.Meaning.{answer_on};
ghost use Rattle.record.specs.Views.{record_seen};
ghost use Rattle.book.specs.Meaning.{digest_said, yes_said, book_digest, book_verdict};
ghost use Rattle.book.specs.Promises.{YesIsARecord, DigestIsTheFirst, UnknownIsNoRecord, NoVerdictRecordNoYes, AlwaysNoIsNoBookWithAVerdict, AnswersDependOnRecordsOnly, AppendedOctetsKeepAnswers};

use oracle::{Claim, Oracle};
use record::{Record, Records};

// A verdict book over its octets.
#[derive(Clone, Copy)]
pub struct Book<'a> {
    pub octets: &'a [u8],
}

// What one record says of the digest of some octets.
fn digest_said(found: Record<'_>, octets: &[u8]) -> Option<[u8; 32]>
    ensures { result ≡ digest_said octets.now (record_seen found.entry) }
{
    match found {
        Record::Digest(known) if known.octets == octets => Some(known.digest),
        _ => None,
    }
}

// Whether one record says yes to a claim.
fn yes_said(found: Record<'_>, claim: Claim<'_>) -> bool
    ensures { result ≡ yes_said claim.entry.key.now claim.entry.message.now claim.entry.signature.now (record_seen found.entry) }
{
    found == Record::Verdict(claim)
}

// The digest that the first record with these octets gives.
fn first_digest(book: &[u8], octets: &[u8]) -> Option<[u8; 32]>
    ensures { result ≡ book_digest book.now octets.now }
{
    for found in Records::of(book) {
        let said = digest_said(found, octets);
        if said.is_some() {
            return said;
        }
    }
    None
}

// Whether some record says yes to this claim.
fn some_verdict(book: &[u8], claim: Claim<'_>) -> bool
    ensures { result ≡ answer_on (book_verdict book.now) claim.entry }
{
    Records::of(book).any(|found| yes_said(found, claim))
}

impl Oracle for Book<'_> {
    ghost digest_of = { λ b s. book_digest b.octets.now s };

    ghost verdict_on = { λ b k m g. book_verdict b.octets.now k m g };

    fn digest(&self, octets: &[u8]) -> Option<[u8; 32]> {
        first_digest(self.octets, octets)
    }

    fn verifies(&self, claim: Claim<'_>) -> bool {
        some_verdict(self.octets, claim)
    }
}

// A book says yes exactly where an equal record stands among its records.
pub fn yes_is_a_record() -> bool
    ensures { YesIsARecord }
{
    true
}

// A known digest is that of the first record with these octets.
pub fn digest_is_the_first() -> bool
    ensures { DigestIsTheFirst }
{
    true
}

// A digest is unknown exactly where no record has these octets.
pub fn unknown_is_no_record() -> bool
    ensures { UnknownIsNoRecord }
{
    true
}

// A book with no whole record of kind 59 says yes to nothing.
pub fn no_verdict_record_no_yes() -> bool
    ensures { NoVerdictRecordNoYes }
{
    true
}

// Whoever always says no does not answer by a book with a whole record of kind 59.
pub fn always_no_is_no_book_with_a_verdict() -> bool
    ensures { AlwaysNoIsNoBookWithAVerdict }
{
    true
}

// Books with the same whole records answer alike.
pub fn answers_depend_on_records_only() -> bool
    ensures { AnswersDependOnRecordsOnly }
{
    true
}

// Whatever is appended to a book, a known digest stays that digest and a yes stays a yes.
pub fn appended_octets_keep_answers() -> bool
    ensures { AppendedOctetsKeepAnswers }
{
    true
}
