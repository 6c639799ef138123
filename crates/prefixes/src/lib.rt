// The bit strings of RFC 3779: how prefixes and the ends of ranges of IPv4 and IPv6 addresses are read and written.
//
// An address is a number below 2 to the power of its width, and a `content::BitString` is octets with a count of unused bits at
// the end of the last. `low_end` and `high_end` follow the bits with zeros or with ones up to the width, and answer none exactly
// where the octets and the count are no bit string, or one of more bits than an address has; `ends_in_one` tells the last bit.
// `is_prefix` tells the ranges that are one prefix, and `bit_count_prefix` how many bits these are written with;
// `bit_count_low` and `bit_count_high` give the fewest bits that the ends of another range are written with, and `octet_count`,
// `unused` and `octet_at` the bit string of so many bits of an address. What is written is read back, no range has two bit
// strings, and the last bit tells the fewest. No call asks anything of its caller. All rests on binary and base 256 digits, as the
// files of specs/ state them, and on what `content` calls a bit string.
#![tactic(auto)]

ghost use Rattle.std.specs.Prelude.{◌≡◌, ◌+◌, ◌-◌, ◌*◌, ◌/◌, ◌%◌, ◌^◌, ◌<◌, ◌≤◌, true, ◌++◌, length, replicate, IfSome, Decides, MatchOption, ◌==◌, slice_index};
ghost use Rattle.family.specs.Widths.{width};
ghost use Rattle.prefixes.specs.Reading.{readable, Readable, low_of, low_end, high_end, LowEnd, HighEnd, last_bit, LastBit};
ghost use Rattle.prefixes.specs.Ranges.{zero_tail, one_tail, shared_tail, one_prefix, OnePrefix};
ghost use Rattle.prefixes.specs.Writing.{prefix_count, low_count, high_count, BeforeZeros, BeforeOnes, octets_for, unused_for, bits_of};
ghost use Rattle.prefixes.specs.Theorems.{HasOctets, ReadsBack, PrefixReadsBack, RangeReadsBack, OneEncoding, OneBitString, IsOnePrefix, FewestBits};

use content::BitString;
use family::Family;

// Whether they are a bit string of no more bits than an address has.
fn is_readable(bits: BitString<'_>, family: Family) -> bool
    ensures { result ≡ readable (width family) bits.entry.octets.now bits.entry.unused }
{
    bits.is_formed() && bits.octets.len() <= usize::from(family.width() / 8)
}

// Sixteen octets: zeros in front, then these, and zeros after them.
fn between_zeros(front: usize, octets: &[u8]) -> [u8; 16]
    requires { front + length octets.now ≤ 16 }
    ensures { result ≡ replicate front 0 ++ (octets.now ++ replicate (16 - front - length octets.now) 0) }
{
    let mut all = [0; 16];
    all[front..front + octets.len()].copy_from_slice(octets);
    all
}

// The octets, and then zeros up to the width, as one number.
fn padded(octets: &[u8], family: Family) -> u128
    requires { length octets.now ≤ width family / 8 }
    ensures value { result ≡ low_of (width family) octets.now }
    ensures bound { result < 2 ^ width family }
{
    let front = 16 - usize::from(family.width() / 8);
    u128::from_be_bytes(between_zeros(front, octets))
}

// The number of `count` ones.
fn ones(count: u32) -> u128
    requires { count ≤ 128 }
    ensures { result + 1 ≡ 2 ^ count }
{
    if count < 128 {
        (1 << count) - 1
    } else {
        u128::MAX
    }
}

// The address that begins with the bits, and has zeros after them.
pub fn low_end(bits: BitString<'_>, family: Family) -> Option<u128>
    ensures value { result ≡ low_end (width family) bits.entry.octets.now bits.entry.unused }
    ensures relation { MatchOption result (Readable (width family) bits.entry.octets.now bits.entry.unused → ⊥) (λ a. LowEnd (width family) bits.entry.octets.now bits.entry.unused a) }
    ensures bound { IfSome result (λ a. a < 2 ^ width family) }
{
    if is_readable(bits, family) {
        Some(padded(bits.octets, family))
    } else {
        None
    }
}

// The address that begins with the bits, and has ones after them.
pub fn high_end(bits: BitString<'_>, family: Family) -> Option<u128>
    ensures value { result ≡ high_end (width family) bits.entry.octets.now bits.entry.unused }
    ensures relation { MatchOption result (Readable (width family) bits.entry.octets.now bits.entry.unused → ⊥) (λ a. HighEnd (width family) bits.entry.octets.now bits.entry.unused a) }
    ensures bound { IfSome result (λ a. a < 2 ^ width family) }
{
    if !is_readable(bits, family) {
        return None;
    }
    let rest = u32::from(family.width()) - 8 * bits.octets.len() as u32 + u32::from(bits.unused);
    Some(padded(bits.octets, family) + ones(rest))
}

// Whether the last bit of a bit string is one, and none where it has no bit.
pub fn ends_in_one(bits: BitString<'_>) -> Option<bool>
    ensures value { result ≡ last_bit bits.entry.octets.now bits.entry.unused }
    ensures relation { LastBit bits.entry.octets.now bits.entry.unused result }
{
    let last = bits.octets.last()?;
    if bits.unused > 7 {
        return None;
    }
    Some((*last >> bits.unused) % 2 == 1)
}

// How many bits at the end of an address are zeros.
fn zero_tail(address: u128, family: Family) -> u32
    ensures value { result ≡ zero_tail (width family) address }
    ensures most { result ≤ width family }
{
    address.trailing_zeros().min(u32::from(family.width()))
}

// How many bits at the end of an address are ones.
fn one_tail(address: u128, family: Family) -> u32
    ensures value { result ≡ one_tail (width family) address }
    ensures most { result ≤ width family }
{
    address.trailing_ones().min(u32::from(family.width()))
}

// An address without its `count` last bits.
fn above(address: u128, count: u32) -> u128
    ensures { result ≡ address / 2 ^ count }
{
    if count < 128 { address >> count } else { 0 }
}

// How many bits at the end are zeros in the first address and ones in the last.
fn shared_tail(first: u128, last: u128, family: Family) -> u32
    ensures value { result ≡ shared_tail (width family) first last }
    ensures most { result ≤ width family }
{
    zero_tail(first, family).min(one_tail(last, family))
}

// Whether two addresses agree in all but their `count` last bits.
fn agree(first: u128, last: u128, count: u32) -> bool
    ensures { result ≡ (first / 2 ^ count == last / 2 ^ count) }
{
    above(first, count) == above(last, count)
}

// Whether a range of addresses is one prefix: the addresses that begin with the same bits.
pub fn is_prefix(first: u128, last: u128, family: Family) -> bool
    ensures value { result ≡ one_prefix (width family) first last }
    ensures relation { Decides result (OnePrefix (width family) first last) }
{
    agree(first, last, shared_tail(first, last, family))
}

// How many bits a range that is one prefix is written with: those that all its addresses begin with.
pub fn bit_count_prefix(first: u128, last: u128, family: Family) -> u32
    ensures value { result ≡ prefix_count (width family) first last }
    ensures most { result ≤ width family }
{
    u32::from(family.width()) - shared_tail(first, last, family)
}

// How many bits the low end of a range is written with: those before its zeros at the end.
pub fn bit_count_low(first: u128, family: Family) -> u32
    ensures value { result ≡ low_count (width family) first }
    ensures relation { BeforeZeros (width family) first result }
{
    u32::from(family.width()) - zero_tail(first, family)
}

// How many bits the high end of a range is written with: those before its ones at the end.
pub fn bit_count_high(last: u128, family: Family) -> u32
    ensures value { result ≡ high_count (width family) last }
    ensures relation { BeforeOnes (width family) last result }
{
    u32::from(family.width()) - one_tail(last, family)
}

// How many octets a bit string of so many bits has.
pub fn octet_count(bits: u32) -> usize
    ensures { result ≡ octets_for bits }
{
    (bits as usize + 7) / 8
}

// How many bits of its last octet are unused.
pub fn unused(bits: u32) -> u8
    ensures { result ≡ unused_for bits }
{
    ((8 - bits % 8) % 8) as u8
}

// An address with zeros for its `count` last bits.
fn cleared(address: u128, count: u32) -> u128
    ensures { result ≡ address - address % 2 ^ count }
{
    if count < 128 {
        address - address % (1 << count)
    } else {
        0
    }
}

// The octet at the place `i` of the bit string of the first `bits` bits of an address, and 0 past its last.
pub fn octet_at(address: u128, bits: u32, i: usize, family: Family) -> u8
    ensures { result ≡ slice_index (bits_of (width family) address bits) i }
{
    let size = u32::from(family.width());
    let count = bits.min(size);
    if i >= octet_count(count) {
        return 0;
    }
    let kept = cleared(address, size - count);
    let octet = above(kept, size - 8 - 8 * i as u32) % 256;
    octet as u8
}

// That an address whose bits past a count are zeros, written with that many bits, is read back; and so is a range that is one
// prefix, and so are the ends of any range, each written with its fewest bits.
pub fn written_is_read_back() -> bool
    ensures shown { result ≡ true }
    ensures octets { HasOctets }
    ensures bits { ReadsBack }
    ensures prefix { PrefixReadsBack }
    ensures range { RangeReadsBack }
{
    true
}

// That every bit string is the one that is written for its low end and its count of bits, that no two stand for the same
// range, that what each stands for is one prefix, and that its last bit tells whether an end needs all its bits.
pub fn bit_strings_are_prefixes() -> bool
    ensures shown { result ≡ true }
    ensures encoding { OneEncoding }
    ensures unique { OneBitString }
    ensures prefix { IsOnePrefix }
    ensures fewest { FewestBits }
{
    true
}
