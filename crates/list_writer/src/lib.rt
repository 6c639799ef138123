// Lists of resources in DER, written: a SEQUENCE of entries, each one range of points (RFC 3779).
//
// `write` writes the list's element at the front of an area and answers its length. It refuses a list that is not lawful with
// `Rule::Order`, and then one for which the area has no room with `Rule::Area`; the area is then as before, and otherwise octets
// past the text are. What it writes reads back as the list. `lists_have_one_encoding` states the two ways of that for every
// kind of points: what is written for a lawful list reads back with nothing over, and the content of a list that was read,
// written again, is the same octets. It rests on `entry_writer` for one entry, on `element` for the header and on `lists` for
// what reading a list is.
#![tactic(auto)]

ghost use Rattle.std.specs.Prelude.{◌≡◌, ℕ, ◌+◌, ◌≤◌, true, length, take, IfOk};
ghost use Rattle.element.specs.Writing.{laid};
ghost use Rattle.entry_writer.specs.Areas.{laid_at};
ghost use Rattle.list_writer.specs.Texts.{entries_text, list_text, list_written};
ghost use Rattle.list_writer.specs.Laws.{ReadsAsList, ReadsBack, WrittenAgain, OneList};

use content::tag;
use element::{header_size, write_header};
use entry_writer::WrittenResource;
use fault::Rule;
use ranges::{Range, is_lawful};

// How many octets the entries of a list have.
fn entries_size<P: WrittenResource>(list: &[Range<P>]) -> usize
    requires { length list.now ≤ 256 }
    ensures value { result ≡ length (entries_text P.text list.now) }
    ensures most { result ≤ 10240 }
{
    let mut size = 0;
    for range in list {
        size += P::entry_size(*range);
    }
    size
}

// Writes the entries of a list at a place that has room for them.
fn write_entries<P: WrittenResource>(list: &[Range<P>], area: &mut [u8], at: usize)
    requires { at + length (entries_text P.text list.now) ≤ length area.old }
    ensures { area.new ≡ laid_at at (entries_text P.text list.now) area.old }
{
    let mut next = at;
    for range in list {
        next = P::write_entry(*range, area, next);
    }
}

// Writes the element of a list at the front of the area, and answers how many octets it took. Refused where the list is not
// lawful, and then where the area is too short.
pub fn write<P: WrittenResource>(list: &[Range<P>], area: &mut [u8]) -> Result<usize, Rule>
    ensures value { result ≡ list_written P.rank P.text list.now (length area.old) }
    ensures after { area.new ≡ laid result (list_text P.text list.now) area.old }
    ensures reads { IfOk result (λ n. (at : ℕ) → ReadsAsList P.rank P.fits P.entry P.text (take n area.new) at list.now) }
{
    if !is_lawful(list) {
        return Err(Rule::Order);
    }
    let size = entries_size(list);
    if area.len() < header_size(size) + size {
        return Err(Rule::Area);
    }
    let start = write_header(tag::SEQUENCE, size, area)?;
    write_entries(list, area, start);
    Ok(start + size)
}

// That what is written for a lawful list reads back as that list with nothing over, that a list that was read is written again
// as the same octets, and so that no two lawful lists have the same octets, at every kind of points.
pub fn lists_have_one_encoding<P: WrittenResource>() -> bool
    ensures shown { result ≡ true }
    ensures reading { ReadsBack P.rank P.fits P.entry P.text }
    ensures writing { WrittenAgain P.rank P.fits P.entry P.text }
    ensures one { OneList P.rank P.fits P.entry P.text }
{
    let shown = true;
    shown
}
