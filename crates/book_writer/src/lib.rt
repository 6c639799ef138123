// A writer for verdict books: it appends one record after another.
//
// `write_record` appends one record to a book in memory, or refuses and leaves the book as it was: a field of 2^24
// octets or more has no length in the book's format, and memory may run out. Where each octet of the book belonged
// to a whole record, the records afterwards are those before and then the new one, and again each octet belongs to
// one. `write_digest` and `write_verdict` write the two kinds. It rests on `record` for the format and on `oracle`
// for the claim.
#![tactic(auto)]

ghost use Rattle.std.specs.Prelude.{◌≡◌, ℕ, ◌^◌, ◌<◌, length, Decides};
ghost use Rattle.record.specs.Format.{Known, Signed};
ghost use Rattle.record.specs.Views.{known_seen, claim_seen, record_seen};
ghost use Rattle.record.specs.Writing.{field_octets, record_octets, Writable};
ghost use Rattle.book_writer.specs.Writer.{Appended, Written, Refused as RefusedBy};

use oracle::Claim;
use record::{Kind, KnownDigest, Record};
use std::alloc::AllocError;

// Why a record was not written.
#[derive(Clone, Copy, PartialEq, Eq, Debug)]
pub enum WriteError {
    // a field has 2^24 octets or more
    TooLong,
    // there is no memory for the record
    Memory,
}

// The first length that three octets do not write.
pub const TOO_LONG: usize = 0x100_0000;

// Appends a field: its length in three octets, high octet first, and its octets.
fn append_field(book: &mut Vec<u8>, octets: &[u8]) -> Result<(), AllocError>
    requires { length octets.now < 2 ^ 24 }
    ensures { Appended result book.old.items book.new.items (field_octets octets.now) }
{
    let [_, high, middle, low] = (octets.len() as u32).to_be_bytes();
    book.extend_from_slice(&[high, middle, low])?;
    book.extend_from_slice(octets)
}

// Appends a record of kind 44.
fn append_digest(book: &mut Vec<u8>, known: KnownDigest<'_>) -> Result<(), AllocError>
    requires { Writable (known_seen known) }
    ensures { Appended result book.old.items book.new.items (record_octets (known_seen known.entry)) }
{
    book.push(Kind::Digest as u8)?;
    append_field(book, known.octets)?;
    append_field(book, &known.digest)
}

// Appends a record of kind 59.
fn append_verdict(book: &mut Vec<u8>, claim: Claim<'_>) -> Result<(), AllocError>
    requires { Writable (claim_seen claim) }
    ensures { Appended result book.old.items book.new.items (record_octets (claim_seen claim.entry)) }
{
    book.push(Kind::Verdict as u8)?;
    append_field(book, claim.key)?;
    append_field(book, claim.message)?;
    append_field(book, claim.signature)
}

// Appends a record of either kind.
fn append_record(book: &mut Vec<u8>, added: Record<'_>) -> Result<(), AllocError>
    requires { Writable (record_seen added) }
    ensures { Appended result book.old.items book.new.items (record_octets (record_seen added.entry)) }
{
    match added {
        Record::Digest(known) => append_digest(book, known),
        Record::Verdict(claim) => append_verdict(book, claim),
    }
}

// Whether each field of a record has a length that three octets write.
fn is_writable(added: Record<'_>) -> bool
    ensures { Decides result (Writable (record_seen added.entry)) }
{
    match added {
        Record::Digest(known) => known.octets.len() < TOO_LONG,
        Record::Verdict(claim) => {
            claim.key.len() < TOO_LONG
                && claim.message.len() < TOO_LONG
                && claim.signature.len() < TOO_LONG
        }
    }
}

// Writes a record of either kind.
pub fn write_record(book: &mut Vec<u8>, added: Record<'_>) -> Result<(), WriteError>
    ensures written { Written result book.old.items book.new.items (record_seen added.entry) }
    ensures refused { RefusedBy result (record_seen added.entry) }
{
    if !is_writable(added) {
        return Err(WriteError::TooLong);
    }
    let before = book.len();
    match append_record(book, added) {
        Ok(()) => Ok(()),
        Err(_) => {
            book.truncate(before);
            Err(WriteError::Memory)
        }
    }
}

// Writes a record of kind 44: octets and their digest.
pub fn write_digest(book: &mut Vec<u8>, octets: &[u8], digest: &[u8; 32]) -> Result<(), WriteError>
    ensures written { Written result book.old.items book.new.items (Known octets.now digest.now) }
    ensures refused { RefusedBy result (Known octets.now digest.now) }
{
    let digest = *digest;
    write_record(book, Record::Digest(KnownDigest { octets, digest }))
}

// Writes a record of kind 59: a claim that is good.
pub fn write_verdict(book: &mut Vec<u8>, claim: Claim<'_>) -> Result<(), WriteError>
    ensures written { Written result book.old.items book.new.items (claim_seen claim.entry) }
    ensures refused { RefusedBy result (claim_seen claim.entry) }
{
    write_record(book, Record::Verdict(claim))
}
