// Prefixes and origins as an operator writes them: `192.0.2.0/24`, `2001:db8::/32`, `AS64496`.
//
// `after_word`, `number` and `read_prefix` read a word, a decimal number and a prefix from the front of a text, and give
// the text after it; `read_route` and `read_origin` read a whole word. Each answers what a definition of specs/ says of
// the octets, or none where they are spelt otherwise. IPv6 addresses may be short, with `::` once and digits of either
// case; a number has no leading zeros. A prefix need not be lawful: whoever judges it refuses it by its number.
// `words_stand` says that the printed form of a number, a lawful prefix, a route and an origin is read as itself.
// The crate rests on `hex` for digits, on `payload` for prefixes and on `listing` for what is printed.
#![tactic(auto)]

ghost use Rattle.std.specs.Prelude.{◌≡◌, ◌+◌, ◌*◌, ◌^◌, ◌<◌, ◌≤◌, true, IfSome};
ghost use Rattle.std.specs.Option.{option_map};
ghost use Rattle.route_text.specs.Pieces.{beside, after_word, is_digit, with_digit, digits_from, number_from, number_of, octet_of, octet_dot, quad_of, grow, four_of, starts_hex, group_of, past_colon, run_of, with_group, groups_of, joined, six_from, six_of, addressed, address_of, length_of, prefix_of};
ghost use Rattle.std.specs.Str.{bytes_eq};
ghost use Rattle.route_text.specs.Words.{route_of, asn_of, origin_of};
ghost use Rattle.route_text.specs.Laws.{ReadsNumber, ReadsPrefix, ReadsRoute, ReadsOrigin};

mod groups;

use groups::Groups;
use hex_text::nibble;
use payload::{Family, Prefix};
use std::fmt;

// What follows a word, where the text begins with it.
pub fn after_word<'a>(s: &'a [u8], word: &[u8]) -> Option<&'a [u8]>
    ensures { option_map (λ x. x.now) result ≡ after_word word.now s.now }
{
    s.strip_prefix(word)
}

// Whether a character is a decimal digit.
fn is_digit(c: u8) -> bool
    ensures { result ≡ is_digit c }
{
    c.is_ascii_digit()
}

// A number with one digit more, if it is not large already.
fn with_digit(value: u64, c: u8) -> u64
    requires { value < 2 ^ 44 }
    ensures value { result ≡ with_digit value c }
    ensures bound { result < 2 ^ 44 }
{
    if value < 1_099_511_627_776 {
        value * 10 + u64::from(c.saturating_sub(b'0'))
    } else {
        value
    }
}

// A number of which some digits are read, with those that follow.
fn digits_from<'a>(start: u64, s: &'a [u8]) -> (u64, &'a [u8])
    requires { start < 2 ^ 44 }
    ensures value { beside result ≡ digits_from start s.now }
    ensures bound { result.0 < 2 ^ 44 }
{
    let mut value = start;
    for (i, c) in s.iter().enumerate() {
        if !is_digit(*c) {
            return (value, &s[i..]);
        }
        value = with_digit(value, *c);
    }
    (value, &s[s.len()..])
}

// A decimal number by its first character: 0 alone, or a digit that is not 0 and those that follow.
fn number_from<'a>(first: u8, rest: &'a [u8]) -> Option<(u64, &'a [u8])>
    ensures value { option_map beside result ≡ number_from first rest.now }
    ensures bound { IfSome result (λ p. p.0 < 2 ^ 44) }
{
    if !is_digit(first) {
        return None;
    }
    if first == b'0' {
        return Some((0, rest));
    }
    Some(digits_from(u64::from(first.saturating_sub(b'0')), rest))
}

// The decimal number at the front of a text, without leading zeros, and the text after it.
pub fn number<'a>(s: &'a [u8]) -> Option<(u64, &'a [u8])>
    ensures value { option_map beside result ≡ number_of s.now }
    ensures bound { IfSome result (λ p. p.0 < 2 ^ 44) }
{
    match s {
        [] => None,
        [first, rest @ ..] => number_from(*first, rest),
    }
}

// A decimal number below 256 at the front of a text.
fn octet<'a>(s: &'a [u8]) -> Option<(u8, &'a [u8])>
    ensures { option_map beside result ≡ octet_of s.now }
{
    let (value, rest) = number(s)?;
    let value = u8::try_from(value).ok()?;
    Some((value, rest))
}

// An octet with the dot after it.
fn octet_dot<'a>(s: &'a [u8]) -> Option<(u8, &'a [u8])>
    ensures { option_map beside result ≡ octet_dot s.now }
{
    let (value, rest) = octet(s)?;
    let rest = after_word(rest, b".")?;
    Some((value, rest))
}

// The IPv4 address at the front of a text.
fn quad<'a>(s: &'a [u8]) -> Option<(u128, &'a [u8])>
    ensures { option_map beside result ≡ quad_of s.now }
{
    let (a, s) = octet_dot(s)?;
    let (b, s) = octet_dot(s)?;
    let (c, s) = octet_dot(s)?;
    let (d, s) = octet(s)?;
    let word = u32::from_be_bytes([a, b, c, d]);
    Some((u128::from(word) << 96, s))
}

// A value with one hexadecimal digit more, if one follows.
fn grow<'a>(value: u16, s: &'a [u8]) -> (u16, &'a [u8])
    requires { value < 4096 }
    ensures value { beside result ≡ grow value s.now }
    ensures bound { result.0 < value * 16 + 16 }
{
    match s {
        [] => (value, s),
        [first, rest @ ..] => match nibble(*first) {
            Some(digit) => (value * 16 + u16::from(digit), rest),
            None => (value, s),
        },
    }
}

// The value of up to four hexadecimal digits.
fn four<'a>(s: &'a [u8]) -> (u16, &'a [u8])
    ensures { beside result ≡ four_of s.now }
{
    let (value, s) = grow(0, s);
    let (value, s) = grow(value, s);
    let (value, s) = grow(value, s);
    grow(value, s)
}

// Whether a text begins with a hexadecimal digit.
fn starts_hex(s: &[u8]) -> bool
    ensures { result ≡ starts_hex s.now }
{
    match s {
        [] => false,
        [first, ..] => nibble(*first).is_some(),
    }
}

// The group of one to four hexadecimal digits at the front of a text.
fn group<'a>(s: &'a [u8]) -> Option<(u16, &'a [u8])>
    ensures { option_map beside result ≡ group_of s.now }
{
    if !starts_hex(s) {
        return None;
    }
    let (value, rest) = four(s);
    if starts_hex(rest) {
        return None;
    }
    Some((value, rest))
}

// What follows a colon, where that begins with a group, and else all of the text.
fn past_colon<'a>(s: &'a [u8]) -> &'a [u8]
    ensures { result.now ≡ past_colon s.now }
{
    let Some(rest) = after_word(s, b":") else {
        return s;
    };
    if starts_hex(rest) { rest } else { s }
}

// One group more, if one follows.
fn next_group<'a>(run: Groups<'a>) -> Groups<'a>
    requires { run.count < 8 }
    ensures value { run_of result ≡ with_group (run_of run.entry) (group_of run.entry.rest.now) }
    ensures bound { result.count ≤ run.entry.count + 1 }
{
    let Some((value, rest)) = group(run.rest) else {
        return run;
    };
    Groups {
        value: run.value * 65_536 + u128::from(value),
        count: run.count + 1,
        rest: past_colon(rest),
    }
}

// The groups at the front of a text, up to eight.
fn up_to_eight<'a>(s: &'a [u8]) -> Groups<'a>
    ensures { run_of result ≡ groups_of 8 s.now }
{
    let mut run = Groups {
        value: 0,
        count: 0,
        rest: s,
    };
    for _i in 0..8usize {
        run = next_group(run);
    }
    run
}

// The address of groups before and after a double colon, which stands for at least one group of zeros.
fn join<'a>(head: Groups<'a>, tail: Groups<'a>) -> Option<(u128, &'a [u8])>
    ensures { option_map beside result ≡ joined (run_of head.entry) (run_of tail.entry) }
{
    if head.count + tail.count > 7 {
        return None;
    }
    if head.count == 0 {
        return Some((tail.value, tail.rest));
    }
    Some((
        (head.value << (128 - 16 * head.count)) + tail.value,
        tail.rest,
    ))
}

// The IPv6 address that begins with these groups: all eight, or fewer and then a double colon.
fn six_from<'a>(head: Groups<'a>) -> Option<(u128, &'a [u8])>
    ensures { option_map beside result ≡ six_from (run_of head.entry) }
{
    if head.count == 8 {
        return Some((head.value, head.rest));
    }
    let rest = after_word(head.rest, b"::")?;
    join(head, up_to_eight(rest))
}

// The IPv6 address at the front of a text.
fn six<'a>(s: &'a [u8]) -> Option<(u128, &'a [u8])>
    ensures { option_map beside result ≡ six_of s.now }
{
    six_from(up_to_eight(s))
}

// The address at the front of a text.
fn read_address<'a>(s: &'a [u8]) -> Option<(Family, u128, &'a [u8])>
    ensures { option_map addressed result ≡ address_of s.now }
{
    if let Some((address, rest)) = quad(s) {
        return Some((Family::Ipv4, address, rest));
    }
    let (address, rest) = six(s)?;
    Some((Family::Ipv6, address, rest))
}

// A length as an octet: one that fits none is as unlawful as the largest.
fn length_of(number: u64) -> u8
    ensures { result ≡ length_of number }
{
    u8::try_from(number).unwrap_or(u8::MAX)
}

// The prefix at the front of a text, an address with a length, and the text after it. It need not be lawful.
pub fn read_prefix<'a>(s: &'a [u8]) -> Option<(Prefix, &'a [u8])>
    ensures { option_map beside result ≡ prefix_of s.now }
{
    let (family, address, rest) = read_address(s)?;
    let rest = after_word(rest, b"/")?;
    let (number, rest) = number(rest)?;
    let prefix = Prefix {
        family,
        address,
        length: length_of(number),
    };
    Some((prefix, rest))
}

// Why a word is no route or no origin.
#[derive(Clone, Copy, PartialEq, Eq, Debug)]
pub enum Misspelt {
    Route,
    Origin,
}

impl Misspelt {
    // What is wrong, and what to do.
    fn message(&self) -> &'static str {
        match self {
            Misspelt::Route =>
                "no route: write an address, a slash and a length, as 192.0.2.0/24 or 2001:db8::/32",
            Misspelt::Origin => "no origin: write an AS number, as 64496 or AS64496, or none",
        }
    }
}

impl fmt::Display for Misspelt {
    fn fmt<W: fmt::Write>(&self, f: &mut fmt::Formatter<W>) -> fmt::Result {
        f.write_str(self.message())
    }
}

// The route that a word writes. Its prefix need not be lawful; a word with anything after the prefix is none.
pub fn read_route(word: &[u8]) -> Result<Prefix, Misspelt>
    ensures { result ≡ route_of word.now }
{
    match read_prefix(word) {
        Some((prefix, rest)) if rest.is_empty() => Ok(prefix),
        _ => Err(Misspelt::Route),
    }
}

// The AS number that digits write, with nothing after them.
fn read_asn(digits: &[u8]) -> Result<u32, Misspelt>
    ensures { result ≡ asn_of digits.now }
{
    match number(digits) {
        Some((asn, rest)) if rest.is_empty() => u32::try_from(asn).map_err(|_| Misspelt::Origin),
        _ => Err(Misspelt::Origin),
    }
}

// The origin that a word writes: an AS number, with or without `AS` in front, or `none`.
pub fn read_origin(word: &[u8]) -> Result<Option<u32>, Misspelt>
    ensures { result ≡ origin_of word.now }
{
    if word == b"none".as_slice() {
        return Ok(None);
    }
    let digits = match after_word(word, b"AS") {
        Some(rest) => rest,
        None => word,
    };
    Ok(Some(read_asn(digits)?))
}

// The printed form of a number, of a lawful prefix, of a route and of an origin is read as itself.
pub fn words_stand() -> bool
    ensures shown { result ≡ true }
    ensures numbers { ReadsNumber }
    ensures prefixes { ReadsPrefix }
    ensures routes { ReadsRoute }
    ensures origins { ReadsOrigin }
{
    true
}
