// Lists of resources as RFC 3779 writes them: a SEQUENCE of entries, each one range of points.
//
// `read_entries` reads the entries of any kind of points into a lent table of full size: each in its own form, in
// ascending order with a point missing between two, at most 256. It rests on `entries` for the single entry.
#![tactic(auto)]

ghost use Rattle.std.specs.Prelude.{◌≡◌, ◌-◌, ◌<◌, ◌≤◌, length, None, OnOk, slice_set};
ghost use Rattle.fault.specs.Faults.{set_report, reported};
ghost use Rattle.element.specs.Reading.{seen, octets_of};
ghost use Rattle.lists.specs.Entries.{is_apart, entry_in, past_last, entry_with, entries_of, counted, kept};

use element::{Element, Part, read};
use entries::Resource;
use fault::{Fault, Rule, SetFault};
use points::Point;
use ranges::{MOST, Range};

// Whether the range stands after the one before it, with a point missing between them.
fn is_next<P: Point>(before: Option<Range<P>>, range: Range<P>) -> bool
    ensures { result ≡ is_apart P.rank before range }
{
    match before {
        None => true,
        Some(last) => !last.last.touches(range.first),
    }
}

// The range that an entry says, in its order after the one before it.
fn next_entry<P: Resource>(
    element: &Element<'_>,
    before: Option<Range<P>>,
) -> Result<Range<P>, SetFault>
    ensures { reported set_report result ≡ entry_in P.rank P.entry before (seen element.now) }
{
    let range = P::read_entry(element)?;
    if !is_next(before, range) {
        return Err(SetFault::Own {
            rule: Rule::Order,
            place: element.place,
        });
    }
    Ok(range)
}

// The fault of an entry past the last that a list may have.
fn past_last<P: Resource>(element: &Element<'_>, before: Option<Range<P>>) -> SetFault
    ensures { set_report result ≡ past_last P.rank P.entry element.now.place (entry_in P.rank P.entry before (seen element.now)) }
{
    let own = SetFault::Own {
        rule: Rule::Count,
        place: element.place,
    };
    match next_entry(element, before) {
        Ok(_) => own,
        Err(fault) => {
            if fault.report().place > element.place {
                own
            } else {
                fault
            }
        },
    }
}

// The range that an entry says, where so many stand before it.
fn counted_entry<P: Resource>(
    element: &Element<'_>,
    before: Option<Range<P>>,
    count: usize,
) -> Result<Range<P>, SetFault>
    requires count { count ≤ 256 }
    ensures value { reported set_report result ≡ entry_with P.rank P.entry (256 - count) before (seen element.now) }
    ensures room { OnOk result (count < 256) }
{
    if count == MOST {
        return Err(past_last(element, before));
    }
    next_entry(element, before)
}

// Writes a range into the table.
fn store<P: Point>(table: &mut [Range<P>; MOST], at: usize, range: Range<P>)
    requires { at < 256 }
    ensures { table.new ≡ slice_set table.old at range }
{
    table[at] = range;
}

// Reads the entries of a list's content into a table of full size, and answers how many there are. After a fault
// the table holds the entries before it, and past them, as always, what stood there before.
pub fn read_entries<P: Resource>(
    content: Part<'_>,
    table: &mut [Range<P>; MOST],
) -> Result<usize, SetFault>
    ensures value { reported set_report result ≡ counted (entries_of P.rank P.entry 256 None (octets_of content.entry)) }
    ensures table { table.new ≡ kept (entries_of P.rank P.entry 256 None (octets_of content.entry)).0 table.old }
{
    let mut rest = content;
    let mut before = None;
    let mut count = 0;
    while !rest.octets.is_empty() {
        let (element, following) = read(rest)?;
        let range = counted_entry(&element, before, count)?;
        store(table, count, range);
        before = Some(range);
        count += 1;
        rest = following;
    }
    Ok(count)
}
