// Validated ROA payloads (VRPs) and the list of them in one order, without repeats, in lent memory.
//
// A `Payload` is an AS, a prefix and a maximum length. `compare` orders payloads by family (IPv4 first), address,
// length, maximum and AS, which together are the key of a payload; `same_key` says whether two keys are one, and
// `Prefix::is_lawful` whether a prefix fits its family and has no bits set past its length; `Prefix::cut` is the prefix of
// fewer bits that it lies in. A `PayloadList` holds
// payloads in that order in entries that its caller lends: `insert` puts a payload at its place, or says that it is
// there already or that no room is left, and then changes nothing; `contains`, `position`, `payloads`, `len`, `room`
// and `clear` do what they say. `around` gives a part of the list with every payload of one prefix, and `is_tidy` says
// whether every prefix of the list is known to be lawful: both let a caller look at few payloads in place of all.
// That the list is in order stands in its type, so no call asks anything of its caller.
// specs/Order.antt and specs/Lists.antt have what each call promises, and specs/Laws.antt what the order is worth:
// payloads have one list. The crate rests on `family` for the families of addresses.
#![tactic(auto)]

ghost use Rattle.std.specs.Prelude.{◌≡◌, ◌+◌, ◌-◌, ◌/◌, ◌%◌, ◌^◌, ◌<◌, ◌≤◌, true, Decides};
ghost use Rattle.std.specs.Ordering.{MatchOrdering};
ghost use Rattle.payload.specs.Order.{cut, rank, lawful, Small};
ghost use Rattle.payload.specs.Laws.{Ordered, InsertedRises, OneList};

use std::cmp::Ordering;
use std::fmt;

mod list;

pub use family::Family;
pub use list::{Inserted, PayloadList};

// A prefix. The address is its bits from the highest down, so that an IPv4 address stands in the first 32 of the
// 128 bits, and both families are one case.
#[derive(Clone, Copy, PartialEq, Eq, PartialOrd, Ord, Debug)]
pub struct Prefix {
    pub family: Family,
    pub address: u128,
    pub length: u8,
}

// A validated ROA payload: the AS may originate routes within the prefix, up to the maximum length.
#[derive(Clone, Copy, PartialEq, Eq, PartialOrd, Ord)]
pub struct Payload {
    pub prefix: Prefix,
    pub max: u8,
    pub asn: u32,
}

// The AS first, as in the text of a list; the order of the fields is that of payloads.
impl fmt::Debug for Payload {
    fn fmt<W: fmt::Write>(&self, f: &mut fmt::Formatter<W>) -> fmt::Result {
        f.debug_struct("Payload")
            .field("asn", &self.asn)
            .field("prefix", &self.prefix)
            .field("max", &self.max)
            .finish()
    }
}

impl Prefix {
    // The prefix of so many bits at the front of this one: no bit past them is set.
    pub fn cut(self, length: u8) -> Prefix
        ensures { result ≡ cut self length }
    {
        let unused = 128u8.saturating_sub(length);
        let address = match self.address.checked_shr(u32::from(unused)) {
            Some(front) => front << unused,
            None => 0,
        };
        Prefix {
            address,
            length,
            ..self
        }
    }

    // Whether the prefix is no longer than an address, and no bit past its length is set.
    pub fn is_lawful(self) -> bool
        ensures { result ≡ lawful self }
    {
        self.length <= self.family.width() && self == self.cut(self.length)
    }
}

impl Payload {
    // Whether the payload's prefix is lawful.
    pub fn is_lawful(self) -> bool
        ensures value { result ≡ lawful self.prefix }
        ensures small { Small self }
    {
        self.prefix.is_lawful()
    }
}

// Which of two payloads comes first: by family, IPv4 before IPv6, then by address, length, maximum and AS.
pub fn compare(a: Payload, b: Payload) -> Ordering
    ensures { MatchOrdering result (rank a < rank b) (rank a ≡ rank b) (rank b < rank a) }
{
    a.cmp(&b)
}

// Whether two payloads have one key.
pub fn same_key(a: Payload, b: Payload) -> bool
    ensures { Decides result (rank a ≡ rank b) }
{
    a == b
}

// The order by ranks is IPv4 before IPv6, then address, length, maximum and AS; a payload put into a rising list
// leaves a rising list of the payloads that there were and it; and payloads have one rising list.
pub fn lists_stand() -> bool
    ensures shown { result ≡ true }
    ensures order { Ordered }
    ensures inserted { InsertedRises }
    ensures one { OneList }
{
    true
}
