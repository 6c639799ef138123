// How a range of a list of resources is written as an entry (RFC 3779), and what reading an entry is to that.
//
// specs/Texts.antt has the octets: a range of addresses that is one prefix is one BIT STRING with its fewest octets, and every
// other one a SEQUENCE of two, the first address without its zeros at the end and the last without its ones at the end; one AS
// number is an INTEGER, and several are a SEQUENCE of two. The two calls state theorems and do no work: what is written for a
// range that is not empty reads back as that range, whatever follows it, and octets that read as a range are what is written
// for it, so that a range has one encoding. They rest on `prefixes` for addresses as bit strings, on `element` for the octets
// of an element, and on `entries` for what an entry is read as.
#![tactic(auto)]

ghost use Rattle.std.specs.Prelude.{◌≡◌, true};
ghost use Rattle.points.specs.Ranks.{v4_rank, v4_fits, v6_rank, v6_fits, asn_rank, asn_fits};
ghost use Rattle.entries.specs.Kinds.{v4_entry, v6_entry, asn_entry};
ghost use Rattle.entry_text.specs.Texts.{v4_text, v6_text, asn_text};
ghost use Rattle.entry_text.specs.Laws.{EntryLaws};

// That an entry of AS numbers reads back as the range that it was written for, and that a range has one encoding.
pub fn numbers_have_one_encoding() -> bool
    ensures shown { result ≡ true }
    ensures theorem { EntryLaws asn_rank asn_fits asn_entry asn_text }
{
    let shown = true;
    shown
}

// The same of entries of addresses of each family.
pub fn addresses_have_one_encoding() -> bool
    ensures shown { result ≡ true }
    ensures v4 { EntryLaws v4_rank v4_fits v4_entry v4_text }
    ensures v6 { EntryLaws v6_rank v6_fits v6_entry v6_text }
{
    let shown = true;
    shown
}
