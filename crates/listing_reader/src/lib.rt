// The text of a list of payloads, as `listing` prints it, read back into a list.
//
// `read` puts the payloads of a text into a list, which it empties first, or says which line is the first that is wrong,
// and why; the list then holds the payloads of the lines before it. It answers `list_of` of specs/Lines.antt, and
// `reading_stands` says what that is worth: the text of a list of lawful payloads is read as that list, and a text that is
// read is the text of what was read, so that each list has one text. A line is read by looking where the parts of a line
// stand, and then has to be, octet for octet, what `listing` prints of the payload that was found.
// The crate rests on `payload` for the list, on `listing` for what is printed and on `route_text` for numbers and prefixes.
#![tactic(auto)]

ghost use Rattle.std.specs.Prelude.{◌≡◌, ℕ, ◌+◌, ◌^◌, ◌<◌, ◌≤◌, true, [], ◌∷◌, ◌++◌, length, drop, IfSome};
ghost use Rattle.std.specs.Option.{option_map};
ghost use Rattle.payload.specs.Lists.{held, room};
ghost use Rattle.listing.specs.Texts.{line_text, head_text};
ghost use Rattle.route_text.specs.Pieces.{beside, after_word};
ghost use Rattle.listing_reader.specs.Lines.{sized_of, likely_of, line_of, count_of, head_of, fits_max, comes_after, seen, next_of, Added, lines_of, list_of};
ghost use Rattle.listing_reader.specs.Laws.{ReadsBack, ReadsOnly};

use listing::{put_head, put_line};
use payload::{Payload, PayloadList, Prefix};
use route_text::{after_word, number, read_prefix};
use std::fmt;

// Why a line of a text is wrong.
#[derive(Clone, Copy, PartialEq, Eq, Debug)]
pub enum Why {
    // the first line does not say how many payloads there are
    Head,
    // there are more payloads than the list has room for
    Room,
    // the text ends before it has as many lines as it said
    Missing,
    // the line is not that of a payload
    Spelling,
    // the prefix is too long, or has bits set past its length
    Prefix,
    // the maximum is below the length, or past the family's
    Maximum,
    // the payload does not come after the one before it
    Order,
    // there are more lines than the text said
    Surplus,
}

impl Why {
    // What is wrong, and what to do.
    fn message(&self) -> &'static str {
        match self {
            Why::Head => "no head: the first line says how many payloads follow, as payloads=2",
            Why::Room => "more payloads than a list holds",
            Why::Missing => "the text ends here: the first line says that more payloads follow",
            Why::Spelling =>
                "no payload: write asn=64496 prefix=192.0.2.0/24 max=26 as it is printed, with one newline",
            Why::Prefix => "an unlawful prefix: it is too long, or bits past its length are set",
            Why::Maximum =>
                "an unlawful maximum: it is from the prefix's length to 32, or to 128 for IPv6",
            Why::Order =>
                "out of order: payloads ascend by family, address, length, maximum and AS, each once",
            Why::Surplus => "a line too many: the first line says that no payload follows here",
        }
    }
}

impl fmt::Display for Why {
    fn fmt<W: fmt::Write>(&self, f: &mut fmt::Formatter<W>) -> fmt::Result {
        f.write_str(self.message())
    }
}

// The first line that is wrong, counted from 1, and why.
#[derive(Clone, Copy, PartialEq, Eq, Debug)]
pub struct BadLine {
    pub line: usize,
    pub why: Why,
}

// The payload of an AS, a prefix and a maximum, where these fit.
fn sized(asn: u64, prefix: Prefix, max: u64) -> Option<Payload>
    ensures { result ≡ sized_of asn prefix max }
{
    let asn = u32::try_from(asn).ok()?;
    let max = u8::try_from(max).ok()?;
    Some(Payload { prefix, max, asn })
}

// The payload of which a text may be the line.
fn likely(s: &[u8]) -> Option<Payload>
    ensures { result ≡ likely_of s.now }
{
    let s = after_word(s, b"asn=")?;
    let (asn, s) = number(s)?;
    let s = after_word(s, b" prefix=")?;
    let (prefix, s) = read_prefix(s)?;
    let s = after_word(s, b" max=")?;
    let (max, _) = number(s)?;
    sized(asn, prefix, max)
}

// What follows the line of a payload, where the text begins with it.
fn past_line<'a>(s: &'a [u8], p: Payload) -> Option<&'a [u8]>
    ensures { option_map (λ x. x.now) result ≡ after_word (line_text p) s.now }
{
    let mut area = [0u8; 256];
    let size = put_line(&mut area, p);
    after_word(s, &area[0..size])
}

// The payload of which a text begins with the line, and what follows it: what stands where the parts of a line stand is
// printed, and the text has to begin with that.
fn line<'a>(s: &'a [u8]) -> Option<(Payload, &'a [u8])>
    ensures { option_map beside result ≡ line_of s.now }
{
    let p = likely(s)?;
    let rest = past_line(s, p)?;
    Some((p, rest))
}

// How many payloads a text may say.
fn count(s: &[u8]) -> Option<u64>
    ensures value { result ≡ count_of s.now }
    ensures bound { IfSome result (λ n. n < 2 ^ 44) }
{
    let s = after_word(s, b"payloads=")?;
    let (count, _) = number(s)?;
    Some(count)
}

// What follows the first line of this number, where the text begins with it.
fn past_head<'a>(s: &'a [u8], count: usize) -> Option<&'a [u8]>
    ensures { option_map (λ x. x.now) result ≡ after_word (head_text count) s.now }
{
    let mut area = [0u8; 256];
    let size = put_head(&mut area, count);
    after_word(s, &area[0..size])
}

// The number of payloads with which a text begins, and what follows the first line.
fn head<'a>(s: &'a [u8]) -> Option<(usize, &'a [u8])>
    ensures value { option_map beside result ≡ head_of s.now }
    ensures bound { IfSome result (λ h. h.0 < 2 ^ 44) }
{
    let count = count(s)? as usize; // any count fits: `try_from` would add an answer that never comes
    let rest = past_head(s, count)?;
    Some((count, rest))
}

// Whether the maximum is not below the length, and within the family.
fn fits(p: Payload) -> bool
    ensures { result ≡ fits_max p }
{
    p.prefix.length <= p.max && p.max <= p.prefix.family.width()
}

// Whether a payload comes after all of a list.
fn comes_after(list: &PayloadList<'_>, p: Payload) -> bool
    ensures { result ≡ comes_after (held list.now) p }
{
    list.position(p) >= list.len()
}

// The payload of the next line, and what follows it.
fn next<'a>(list: &PayloadList<'_>, s: &'a [u8]) -> Result<(Payload, &'a [u8]), Why>
    ensures { seen result ≡ next_of (held list.now) s.now }
{
    if s.is_empty() {
        return Err(Why::Missing);
    }
    let Some((p, rest)) = line(s) else {
        return Err(Why::Spelling);
    };
    if !p.is_lawful() {
        return Err(Why::Prefix);
    }
    if !fits(p) {
        return Err(Why::Maximum);
    }
    if !comes_after(list, p) {
        return Err(Why::Order);
    }
    Ok((p, rest))
}

// Puts a payload behind those of a list.
fn add(list: &mut PayloadList<'_>, p: Payload)
    requires last { comes_after (held list.old) p ≡ true }
    requires space { length (held list.old) < room list.old }
    ensures { Added p list.old list.new }
{
    let _ = list.insert(p);
}

// Puts the payloads of so many lines into an empty list, up to the first line that is wrong.
fn read_lines(s: &[u8], count: usize, list: &mut PayloadList<'_>) -> Result<(), BadLine>
    requires few { count ≤ room list.old }
    requires small { count < 2 ^ 44 }
    requires empty { held list.old ≡ [] }
    ensures value { (held list.new, result) ≡ lines_of count [] s.now }
    ensures rest { drop (length (held list.new)) list.new.entries.now ≡ drop (length (held list.new)) list.old.entries.now }
{
    let mut rest = s;
    // by number: the line of a payload is told by it, and a range of lines is no plainer
    for i in 0..count {
        match next(list, rest) {
            Ok((p, after)) => {
                add(list, p);
                rest = after;
            },
            Err(why) => return Err(BadLine { line: i + 2, why }),
        }
    }
    if rest.is_empty() {
        Ok(())
    } else {
        Err(BadLine {
            line: count + 2,
            why: Why::Surplus,
        })
    }
}

// Reads a printed list into a list that is emptied first: the payloads of the text, or the first line that is wrong, and
// then the list holds the payloads of the lines before it.
pub fn read(text: &[u8], list: &mut PayloadList<'_>) -> Result<(), BadLine>
    ensures value { (held list.new, result) ≡ list_of (room list.old) text.now }
    ensures rest { drop (length (held list.new)) list.new.entries.now ≡ drop (length (held list.new)) list.old.entries.now }
{
    list.clear();
    let Some((count, rest)) = head(text) else {
        return Err(BadLine {
            line: 1,
            why: Why::Head,
        });
    };
    if count > list.room() {
        return Err(BadLine {
            line: 1,
            why: Why::Room,
        });
    }
    read_lines(rest, count, list)
}

// The text of a list of lawful payloads is read as that list; and what is read is in order and lawful, and the text is
// that of what was read, or else the line is the first that is wrong.
pub fn reading_stands() -> bool
    ensures shown { result ≡ true }
    ensures back { ReadsBack }
    ensures only { ReadsOnly }
{
    true
}
