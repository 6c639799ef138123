// One entry of a list of resources, written into an area: for addresses a prefix or a range, for AS numbers a number or a range.
//
// A `WrittenResource` is a kind of points whose ranges are written; `V4`, `V6` and `Asn` are such kinds, with one text for both
// widths of addresses. `entry_of` puts the entry of a range together as a `Text`, 40 octets at most, and `entry_size` counts its
// octets without that. `write_entry` writes them at a place of an area that has room for them, and answers the place after them;
// all else in the area stays. The law of the trait says that an entry reads back as the range that it was written for, that a
// range has one encoding, and that this has at most 40 octets.
// It rests on `entry_text` for the octets and for the law, and on `prefixes` for addresses as bit strings.
#![tactic(auto)]

ghost use Rattle.std.specs.Prelude.{◌≡◌, ℕ, ◌+◌, ◌<◌, ◌≤◌, List, ◌∷◌, [], ◌++◌, length};
ghost use Rattle.family.specs.Widths.{width};
ghost use Rattle.prefixes.specs.Writing.{low_count, high_count};
ghost use Rattle.ranges.specs.declared.Range.{Range};
ghost use Rattle.entry_text.specs.Texts.{bit_text, address_text, number_size, integer_text, number_text, v4_text, v6_text, asn_text};
ghost use Rattle.entry_text.specs.Laws.{EntryLaws};
ghost use Rattle.entry_writer.specs.Areas.{laid_at};
ghost use Rattle.entry_text.proofs.AsNumbers.{asn_laws};
ghost use Rattle.entry_text.proofs.Families.{v4_laws, v6_laws};

mod text;

use content::tag;
use entries::Resource;
use family::Family;
use points::{Asn, Point, V4, V6};
use prefixes::{
    bit_count_high, bit_count_low, bit_count_prefix, is_prefix, octet_at, octet_count, unused,
};
use ranges::Range;
pub use text::Text;

// A kind of points whose ranges are written as entries.
pub trait WrittenResource: Resource {
    // the octets of the entry that a range is written as
    ghost text: { Range Self → List ℕ };

    // The entry of a range.
    fn entry_of(range: Range<Self>) -> Text
        ensures { result ≡ text range };

    // How many octets the entry of a range has.
    fn entry_size(range: Range<Self>) -> usize
        ensures { result ≡ length (text range) };

    // Writes the entry of a range at a place, and answers the place after it.
    final fn write_entry(range: Range<Self>, area: &mut [u8], at: usize) -> usize
        requires { at + length (text range) ≤ length area.old }
        ensures end { result ≡ at + length (text range) }
        ensures after { area.new ≡ laid_at at (text range) area.old }
    {
        let entry = Self::entry_of(range);
        put(entry.as_slice(), area, at)
    }

    ghost entry_laws: { EntryLaws Self.rank Self.fits Self.entry text };
}

// Writes octets at a place, and answers the place after them.
fn put(octets: &[u8], area: &mut [u8], at: usize) -> usize
    requires { at + length octets.now ≤ length area.old }
    ensures end { result ≡ at + length octets.now }
    ensures after { area.new ≡ laid_at at octets.now area.old }
{
    let end = at + octets.len();
    area[at..end].copy_from_slice(octets);
    end
}

// Puts a tag and a length of one octet at the end of a text.
fn extend_head(text: &mut Text, tag: u8, size: usize)
    requires { (size < 128) × (length text.old + 2 ≤ 40) }
    ensures { text.new ≡ text.old ++ (tag ∷ (size ∷ [])) }
{
    text.extend(&[tag, size as u8]);
}

// How many octets the INTEGER of a number has: its bits, and a zero before them.
fn number_size(number: u32) -> usize
    ensures value { result ≡ number_size number }
    ensures most { result ≤ 5 }
{
    let bits = u32::BITS - number.leading_zeros();
    1 + bits as usize / 8
}

// How many octets a number takes as an INTEGER.
fn integer_size(number: u32) -> usize
    ensures value { result ≡ length (integer_text number) }
    ensures most { result ≤ 7 }
{
    2 + number_size(number)
}

// Puts a number as an INTEGER at the end of a text.
fn extend_integer(text: &mut Text, number: u32)
    requires { length text.old + length (integer_text number) ≤ 40 }
    ensures { text.new ≡ text.old ++ integer_text number }
{
    let size = number_size(number);
    let octets = u64::from(number).to_be_bytes();
    extend_head(text, tag::INTEGER, size);
    text.extend(&octets[8 - size..]);
}

// How many octets the content of the entry of the numbers from `first` to `last` has.
fn numbers_size(first: u32, last: u32) -> usize
    ensures value { 2 + result ≡ length (number_text first last) }
    ensures most { result ≤ 14 }
{
    if first == last {
        number_size(first)
    } else {
        integer_size(first) + integer_size(last)
    }
}

// The entry of the numbers from `first` to `last`.
fn numbers(first: u32, last: u32) -> Text
    ensures { result ≡ number_text first last }
{
    let mut text = Text::new();
    if first == last {
        extend_integer(&mut text, first);
        return text;
    }
    extend_head(&mut text, tag::SEQUENCE, numbers_size(first, last));
    extend_integer(&mut text, first);
    extend_integer(&mut text, last);
    text
}

// How many octets a BIT STRING of so many bits takes.
fn bit_string_size(bits: u32, family: Family) -> usize
    requires { bits ≤ width family }
    ensures value { (a : ℕ) → result ≡ length (bit_text (width family) a bits) }
    ensures most { result ≤ 19 }
{
    3 + octet_count(bits)
}

// Puts the first bits of an address as a BIT STRING at the end of a text.
fn extend_bit_string(text: &mut Text, address: u128, bits: u32, family: Family)
    requires { (bits ≤ width family) × (length text.old + length (bit_text (width family) address bits) ≤ 40) }
    ensures { text.new ≡ text.old ++ bit_text (width family) address bits }
{
    let count = octet_count(bits);
    extend_head(text, tag::BIT_STRING, 1 + count);
    text.extend(&[unused(bits)]);
    for i in 0..count {
        text.extend(&[octet_at(address, bits, i, family)]);
    }
}

// How many bits the ends of a range that is no prefix are written with: the first address without its zeros at the end, and the
// last without its ones at the end.
fn end_bits(first: u128, last: u128, family: Family) -> (u32, u32)
    ensures value { (result.0 ≡ low_count (width family) first) × (result.1 ≡ high_count (width family) last) }
    ensures most { (result.0 ≤ width family) × (result.1 ≤ width family) }
{
    let low = bit_count_low(first, family);
    let high = bit_count_high(last, family);
    (low, high)
}

// How many octets the content of the entry of the addresses from `first` to `last` has.
fn addresses_size(first: u128, last: u128, family: Family) -> usize
    ensures value { 2 + result ≡ length (address_text (width family) first last) }
    ensures most { result ≤ 38 }
{
    if is_prefix(first, last, family) {
        return 1 + octet_count(bit_count_prefix(first, last, family));
    }
    let bits = end_bits(first, last, family);
    bit_string_size(bits.0, family) + bit_string_size(bits.1, family)
}

// The entry of the addresses from `first` to `last`.
fn addresses(first: u128, last: u128, family: Family) -> Text
    ensures { result ≡ address_text (width family) first last }
{
    let mut text = Text::new();
    if is_prefix(first, last, family) {
        let bits = bit_count_prefix(first, last, family);
        extend_bit_string(&mut text, first, bits, family);
        return text;
    }
    let bits = end_bits(first, last, family);
    let size = bit_string_size(bits.0, family) + bit_string_size(bits.1, family);
    extend_head(&mut text, tag::SEQUENCE, size);
    extend_bit_string(&mut text, first, bits.0, family);
    extend_bit_string(&mut text, last, bits.1, family);
    text
}

impl WrittenResource for Asn {
    ghost text = { asn_text };

    ghost entry_laws = { asn_laws };

    fn entry_of(range: Range<Asn>) -> Text
        ensures { result ≡ asn_text range }
    {
        numbers(range.first.number, range.last.number)
    }

    fn entry_size(range: Range<Asn>) -> usize
        ensures { result ≡ length (asn_text range) }
    {
        2 + numbers_size(range.first.number, range.last.number)
    }
}

impl WrittenResource for V4 {
    ghost text = { v4_text };

    ghost entry_laws = { v4_laws };

    fn entry_of(range: Range<V4>) -> Text
        ensures { result ≡ v4_text range }
    {
        let first = u128::from(range.first.word);
        let last = u128::from(range.last.word);
        addresses(first, last, Family::Ipv4)
    }

    fn entry_size(range: Range<V4>) -> usize
        ensures { result ≡ length (v4_text range) }
    {
        2 + addresses_size(
            u128::from(range.first.word),
            u128::from(range.last.word),
            Family::Ipv4,
        )
    }
}

impl WrittenResource for V6 {
    ghost text = { v6_text };

    ghost entry_laws = { v6_laws };

    fn entry_of(range: Range<V6>) -> Text
        ensures { result ≡ v6_text range }
    {
        let first = u128::from(range.first);
        let last = u128::from(range.last);
        addresses(first, last, Family::Ipv6)
    }

    fn entry_size(range: Range<V6>) -> usize
        ensures { result ≡ length (v6_text range) }
    {
        2 + addresses_size(
            u128::from(range.first),
            u128::from(range.last),
            Family::Ipv6,
        )
    }
}
