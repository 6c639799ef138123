// Lists of ranges as words: `10.0.0.0-10.0.0.255,10.0.2.0-10.0.2.7` or `none`, the list of no ranges.
//
// A range is `FIRST-LAST`, a single point `A-A`, and a comma stands between each two ranges. `is_list` tells whether a word is a list, `read_list` reads
// it, and `push_list` appends the text of a list. A word is read as a list exactly where it is the list's text, as specs/Lists.antt says it, but for what
// the kind of points does not tell apart; what is printed is read as the same list. Nothing is said of the order of the ranges: a list need not be
// lawful to be written. It rests on `point_text` for the points and on `pieces` for the parts of a word.
#![tactic(auto)]

ghost use Rattle.std.specs.Prelude.{◌≡◌, ◌∷◌, ◌++◌, is_some, IfOk, Some, vec_items, string_bytes, codes, OnOk};
ghost use Rattle.std.specs.Option.{option_map};
ghost use Rattle.std.specs.Str.{bytes_eq};
ghost use Rattle.pieces.specs.Marks.{beside, read_next};
ghost use Rattle.pieces.specs.Views.{left};
ghost use Rattle.ranges.specs.Sets.{Fit};
ghost use Rattle.list_text.specs.Lists.{range_of, all_ranges, list_of, range_text, tail_text, list_text, ReadsList};

use pieces::{Pieces, at_end};
use point_text::PointText;
use ranges::Range;
use std::alloc::{AllocError, Global};

// The point that the next piece writes.
fn next_point<P: PointText>(ends: &mut Pieces<'_>) -> Option<P>
    ensures { beside (λ x. x) result (left ends.new) ≡ read_next P.reads (left ends.old) }
{
    let end = ends.next()?;
    P::read_point(end)
}

// The range that a word writes.
fn read_range<P: PointText>(word: &[u8]) -> Option<Range<P>>
    ensures { result ≡ range_of P.reads word.now }
{
    let mut ends = Pieces::of(word, b'-');
    let first = next_point::<P>(&mut ends)?;
    let last = next_point::<P>(&mut ends)?;
    at_end(&mut ends, Range { first, last })
}

// Whether each of the words that are left is a range.
fn are_ranges<P: PointText>(words: &mut Pieces<'_>) -> bool
    ensures { result ≡ is_some (all_ranges P.reads (left words.old)) }
{
    while let Some(word) = words.next() {
        if read_range::<P>(word).is_none() {
            return false;
        }
    }
    true
}

// Whether a word is a list.
pub fn is_list<P: PointText>(word: &[u8]) -> bool
    ensures { result ≡ is_some (list_of P.reads word.now) }
{
    if word == b"none".as_slice() {
        return true;
    }
    are_ranges::<P>(&mut Pieces::of(word, b','))
}

// The ranges that the words that are left write, where each writes one.
fn read_ranges<P: PointText>(
    heap: Global,
    words: &mut Pieces<'_>,
) -> Result<Option<Vec<Range<P>>>, AllocError>
    ensures { IfOk result (λ o. option_map vec_items o ≡ all_ranges P.reads (left words.old)) }
{
    let mut list = Vec::new(heap);
    while let Some(word) = words.next() {
        let Some(range) = read_range::<P>(word) else {
            return Ok(None);
        };
        list.push(range)?;
    }
    Ok(Some(list))
}

// The list that a word writes, if it is one.
pub fn read_list<P: PointText>(
    heap: Global,
    word: &[u8],
) -> Result<Option<Vec<Range<P>>>, AllocError>
    ensures value { IfOk result (λ o. option_map vec_items o ≡ list_of P.reads word.now) }
    ensures text { IfOk result (λ o. ReadsList P.text P.folded P.proper word.now (option_map vec_items o)) }
{
    if word == b"none".as_slice() {
        return Ok(Some(Vec::new(heap)));
    }
    read_ranges::<P>(heap, &mut Pieces::of(word, b','))
}

// Appends the text of a range.
fn push_range<P: PointText>(out: &mut String, range: Range<P>) -> Result<(), AllocError>
    ensures value { OnOk result (string_bytes out.new ≡ string_bytes out.old ++ range_text P.text range) }
    ensures proper { OnOk result (P.proper range.first × P.proper range.last) }
{
    range.first.push_point(out)?;
    out.push_str("-")?;
    range.last.push_point(out)?;
    Ok(())
}

// Appends the text of further ranges, each after a comma.
fn push_tail<P: PointText>(out: &mut String, list: &[Range<P>]) -> Result<(), AllocError>
    ensures value { OnOk result (string_bytes out.new ≡ string_bytes out.old ++ tail_text P.text list.now) }
    ensures proper { OnOk result (Fit P.proper list.now) }
{
    for range in list {
        out.push_str(",")?;
        push_range(out, *range)?;
    }
    Ok(())
}

// Appends the text of a list that begins with a range.
fn push_ranges<P: PointText>(
    out: &mut String,
    first: Range<P>,
    rest: &[Range<P>],
) -> Result<(), AllocError>
    ensures value { OnOk result (string_bytes out.new ≡ string_bytes out.old ++ list_text P.text (first ∷ rest.now)) }
    ensures back { OnOk result (list_of P.reads (list_text P.text (first ∷ rest.now)) ≡ Some (first ∷ rest.now)) }
{
    push_range(out, first)?;
    push_tail(out, rest)?;
    Ok(())
}

// Appends the text of a list.
pub fn push_list<P: PointText>(out: &mut String, list: &[Range<P>]) -> Result<(), AllocError>
    ensures value { OnOk result (string_bytes out.new ≡ string_bytes out.old ++ list_text P.text list.now) }
    ensures back { OnOk result (list_of P.reads (list_text P.text list.now) ≡ Some list.now) }
{
    match list {
        [] => out.push_str("none"),
        [first, rest @ ..] => push_ranges(out, *first, rest),
    }
}
