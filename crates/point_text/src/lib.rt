// Points as text: an IPv4 address as `192.0.2.0`, an IPv6 address as eight groups of four hexadecimal digits, an AS number in decimal.
//
// A `PointText` is a kind of points that has a text. `read_point` reads a word as a point, and `push_point` appends a point's text. What they promise
// speaks of the text alone, so that code over `PointText` serves every kind: a word is read as a point exactly where it is the point's text, but for
// the case of the digits of an IPv6 address, which are printed in lower case. Numbers have no zeros in front, and a number that is out of its kind,
// as 256 in an address, is no point. It rests on `point_words` for the texts and for the law, on `points` for the kinds, and on `pieces`, `numeral`
// and `hex_text` for the parts of a text.
#![tactic(auto)]

ghost use Rattle.std.specs.Prelude.{◌≡◌, ℕ, List, ◌∷◌, ◌++◌, map, string_bytes, Option, OnOk};
ghost use Rattle.std.specs.Char.{to_ascii_lowercase};
ghost use Rattle.numeral.specs.Numbers.{number_of};
ghost use Rattle.pieces.specs.Marks.{beside, read_next};
ghost use Rattle.pieces.specs.Views.{left};
ghost use Rattle.points.specs.Ranks.{v4_fits, v6_fits, asn_fits};
ghost use Rattle.point_words.specs.Texts.{itself, v4_of, v4_text, asn_of, asn_text, group_of, group_text, quad_from, quad_text, v6_of, v6_text};
ghost use Rattle.point_words.specs.Laws.{WordLaws};
ghost use Rattle.point_words.proofs.Families.{v4_laws, v6_laws, asn_laws};

use hex_text::{octet, push_octets};
use numeral::read_number;
use pieces::{Pieces, at_end};
use points::{Asn, Point, V4, V6};
use std::alloc::AllocError;

// A kind of points that has a text. `proper` holds of every value that code can have; `text` is what is printed; `reads` is what a word is read as,
// and `folded` is a word without what reading does not tell apart.
pub trait PointText: Point {
    ghost proper: { Self → Type 0 };

    ghost text: { Self → List ℕ };

    ghost folded: { List ℕ → List ℕ };

    ghost reads: { List ℕ → Option Self };

    // The point that a word writes.
    fn read_point(word: &[u8]) -> Option<Self>
        ensures { result ≡ reads word.now };

    // Appends the text of the point.
    fn push_point(self, out: &mut String) -> Result<(), AllocError>
        ensures value { OnOk result (string_bytes out.new ≡ string_bytes out.old ++ text self) }
        ensures proper { proper self };

    // the text of a point is read as the point, and what is read as a point is its text
    ghost words: { WordLaws proper text folded reads };
}

// The octet that the next piece writes in decimal.
fn next_octet(parts: &mut Pieces<'_>) -> Option<u8>
    ensures { beside (λ n. n) result (left parts.new) ≡ read_next (number_of 255) (left parts.old) }
{
    let part = parts.next()?;
    Some(read_number(part, 255)? as u8)
}

// The IPv4 address that a word writes.
fn read_v4(word: &[u8]) -> Option<V4>
    ensures { result ≡ v4_of word.now }
{
    let mut parts = Pieces::of(word, b'.');
    let a = next_octet(&mut parts)?;
    let b = next_octet(&mut parts)?;
    let c = next_octet(&mut parts)?;
    let d = next_octet(&mut parts)?;
    let word = u32::from_be_bytes([a, b, c, d]);
    at_end(&mut parts, V4 { word })
}

// Appends an IPv4 address.
fn push_v4(point: V4, out: &mut String) -> Result<(), AllocError>
    ensures { OnOk result (string_bytes out.new ≡ string_bytes out.old ++ v4_text point) }
{
    let [a, b, c, d] = point.word.to_be_bytes();
    write!(out, "{a}.{b}.{c}.{d}")
}

// The group that a word writes.
fn read_group(word: &[u8]) -> Option<u16>
    ensures { result ≡ group_of word.now }
{
    let [a, b, c, d] = word else {
        return None;
    };
    Some(u16::from_be_bytes([octet(*a, *b)?, octet(*c, *d)?]))
}

// The group that the next piece writes.
fn next_group(parts: &mut Pieces<'_>) -> Option<u16>
    ensures { beside (λ n. n) result (left parts.new) ≡ read_next group_of (left parts.old) }
{
    let part = parts.next()?;
    read_group(part)
}

// The 64 bits that the next four pieces write.
fn next_quad(parts: &mut Pieces<'_>) -> Option<u64>
    ensures { beside (λ n. n) result (left parts.new) ≡ quad_from (left parts.old) }
{
    let a = u64::from(next_group(parts)?);
    let b = u64::from(next_group(parts)?);
    let c = u64::from(next_group(parts)?);
    let d = u64::from(next_group(parts)?);
    Some((a << 48) + (b << 32) + (c << 16) + d)
}

// The IPv6 address that a word writes.
fn read_v6(word: &[u8]) -> Option<V6>
    ensures { result ≡ v6_of word.now }
{
    let mut parts = Pieces::of(word, b':');
    let high = next_quad(&mut parts)?;
    let low = next_quad(&mut parts)?;
    at_end(&mut parts, V6 { high, low })
}

// Appends a group.
#[tactic(auto, unfolding(point_words::specs::Texts::group_text))]
fn push_group(group: u16, out: &mut String) -> Result<(), AllocError>
    ensures { OnOk result (string_bytes out.new ≡ string_bytes out.old ++ group_text group) }
{
    push_octets(out, &group.to_be_bytes())
}

// Appends ":" and a group.
fn push_further(group: u16, out: &mut String) -> Result<(), AllocError>
    ensures { OnOk result (string_bytes out.new ≡ string_bytes out.old ++ (58 ∷ group_text group)) }
{
    out.push_str(":")?;
    push_group(group, out)?;
    Ok(())
}

// Appends four groups.
fn push_quad(quad: u64, out: &mut String) -> Result<(), AllocError>
    ensures { OnOk result (string_bytes out.new ≡ string_bytes out.old ++ quad_text quad) }
{
    push_group((quad >> 48) as u16, out)?;
    push_further(((quad >> 32) % 65_536) as u16, out)?;
    push_further(((quad >> 16) % 65_536) as u16, out)?;
    push_further((quad % 65_536) as u16, out)?;
    Ok(())
}

// Appends an IPv6 address.
fn push_v6(point: V6, out: &mut String) -> Result<(), AllocError>
    ensures { OnOk result (string_bytes out.new ≡ string_bytes out.old ++ v6_text point) }
{
    push_quad(point.high, out)?;
    out.push_str(":")?;
    push_quad(point.low, out)?;
    Ok(())
}

impl PointText for V4 {
    ghost proper = { v4_fits };

    ghost text = { v4_text };

    ghost folded = { itself };

    ghost reads = { v4_of };

    ghost words = { v4_laws };

    fn read_point(word: &[u8]) -> Option<V4> {
        read_v4(word)
    }

    fn push_point(self, out: &mut String) -> Result<(), AllocError> {
        push_v4(self, out)
    }
}

impl PointText for V6 {
    ghost proper = { v6_fits };

    ghost text = { v6_text };

    ghost folded = { map to_ascii_lowercase };

    ghost reads = { v6_of };

    ghost words = { v6_laws };

    fn read_point(word: &[u8]) -> Option<V6> {
        read_v6(word)
    }

    fn push_point(self, out: &mut String) -> Result<(), AllocError> {
        push_v6(self, out)
    }
}

impl PointText for Asn {
    ghost proper = { asn_fits };

    ghost text = { asn_text };

    ghost folded = { itself };

    ghost reads = { asn_of };

    ghost words = { asn_laws };

    fn read_point(word: &[u8]) -> Option<Asn> {
        let number = read_number(word, 4_294_967_295)? as u32;
        Some(Asn { number })
    }

    fn push_point(self, out: &mut String) -> Result<(), AllocError> {
        write!(out, "{}", self.number)
    }
}
