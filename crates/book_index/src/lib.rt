// An index of a verdict book: its records listed once, so that a question reads no octets between them.
//
// `Index::open` walks over a book once and keeps where each whole record's fields lie, those of kind 44 and those
// of kind 59 apart. The index then answers every question as the book does: `open` promises it, and what the
// index means is fixed by what it holds. A question compares lengths first, and octets only where they agree. It
// rests on `record` for the format, on `book` for the meaning and on `oracle` for what an oracle is.
#![tactic(auto)]

ghost use Rattle.std.specs.Prelude.{◌≡◌, map, IfOk, OnOk};
ghost use Rattle.oracle.specs.Meaning.{answer_on};
ghost use Rattle.record.specs.Views.{known_seen, claim_seen};
ghost use Rattle.book.specs.Meaning.{first_digest, some_verdict};
ghost use Rattle.book_index.specs.Held.{index_digest, index_verdict, Listed, AnswersAs};

use oracle::{Claim, Oracle};
use record::{KnownDigest, Record, Records};
use std::alloc::{AllocError, Global};

// The records of a book by their kind, in its order.
#[derive(Drop)]
pub struct Index<'a> {
    known: Vec<KnownDigest<'a>>,
    signed: Vec<Claim<'a>>,
}

// The digest that the first of these records with the same octets gives.
fn find_digest(known: &[KnownDigest<'_>], octets: &[u8]) -> Option<[u8; 32]>
    ensures { result ≡ first_digest octets.now (map known_seen known.now) }
{
    let found = known.iter().find(|k| k.octets == octets)?;
    Some(found.digest)
}

// Whether this claim is one of those that were found good.
fn find_verdict(signed: &[Claim<'_>], claim: Claim<'_>) -> bool
    ensures { result ≡ answer_on (λ k m g. some_verdict k m g (map claim_seen signed.now)) claim.entry }
{
    signed.iter().any(|s| *s == claim)
}

impl<'a> Index<'a> {
    // Lists one more record, after those of its kind.
    fn list(&mut self, found: Record<'a>) -> Result<(), AllocError>
        ensures { OnOk result (Listed self.old self.new found.entry) }
    {
        match found {
            Record::Digest(known) => self.known.push(known)?,
            Record::Verdict(claim) => self.signed.push(claim)?,
        }
        Ok(())
    }

    // The index of a book, or no memory for it.
    pub fn open(heap: Global, book: &'a [u8]) -> Result<Index<'a>, AllocError>
        ensures { IfOk result (λ i. AnswersAs i book.now) }
    {
        let mut index = Index {
            known: Vec::new(heap),
            signed: Vec::new(heap),
        };
        for found in Records::of(book) {
            index.list(found)?;
        }
        Ok(index)
    }
}

impl Oracle for Index<'_> {
    ghost digest_of = { λ i s. index_digest i s };

    ghost verdict_on = { λ i k m g. index_verdict i k m g };

    fn digest(&self, octets: &[u8]) -> Option<[u8; 32]> {
        find_digest(self.known.as_slice(), octets)
    }

    fn verifies(&self, claim: Claim<'_>) -> bool {
        find_verdict(self.signed.as_slice(), claim)
    }
}
