// One DER element: a tag octet, a length and that many content octets.
//
// `read_first` and `read` answer the element at the front of some octets and the octets after it, both as
// parts of the input with their places, or how the octets break the form of an element. `write_header` and
// `write` lay an element down in an area. What was written reads back, and what was read is written again
// as the same octets. It rests on `content` for the forms of contents.
#![tactic(auto)]

ghost use Rattle.std.specs.Prelude.{◌≡◌, ℕ, ◌+◌, ◌-◌, ◌<◌, ◌≤◌, true, ◌++◌, length, take, drop, IfOk, OnOk, slice_index};
ghost use Rattle.element.specs.Reading.{whole_of, longer_of, measured, octets_of, answered, read_of};
ghost use Rattle.element.specs.Lengths.{length_octets, header, encoded};
ghost use Rattle.element.specs.Grammar.{Parsed, OneEncoding};
ghost use Rattle.element.specs.Writing.{header_written, element_written, laid, ReadsBack};

mod part;

use content::check_form;
use fault::{Breach, ElementFault, Rule};
pub use part::{Element, Part};

// The most octets that a content may have.
pub const LONGEST: usize = 65_535;

impl<'a> Part<'a> {
    // All octets of a file.
    pub fn whole(file: &'a [u8]) -> Part<'a>
        ensures { octets_of result ≡ record { octets = file.now; place = 0 } }
    {
        Part {
            octets: file,
            place: 0,
        }
    }

    // The offset after the last octet.
    pub fn end(self) -> usize
        ensures { result ≡ self.entry.place + length self.entry.octets.now }
    {
        self.place + self.octets.len()
    }

    // The octets after the first so many.
    pub fn skip(self, size: usize) -> Part<'a>
        requires { size ≤ length self.octets.now }
        ensures { octets_of result ≡ record { octets = drop size self.entry.octets.now; place = self.entry.place + size } }
    {
        Part {
            octets: &self.octets[size..],
            place: self.place + size,
        }
    }

    // The octets before `rest`, with which they end.
    pub fn before(self, rest: Part<'_>) -> Part<'a>
        requires { length rest.octets.now ≤ length self.octets.now }
        ensures { octets_of result
            ≡ record { octets = take (length self.entry.octets.now - length rest.entry.octets.now) self.entry.octets.now; place = self.entry.place } }
    {
        let size = self.octets.len() - rest.octets.len();
        Part {
            octets: &self.octets[..size],
            place: self.place,
        }
    }
}

// The octets that tag and length take, and how many the content has.
#[derive(Clone, Copy)]
struct Header {
    octets: usize,
    content: usize,
}

// The header of these sizes, where so many octets stand there.
fn whole(s: &[u8], octets: usize, content: usize) -> Result<Header, Breach>
    requires { octets ≤ length s.now }
    ensures { result ≡ whole_of s.now octets content }
{
    if s.len() - octets < content {
        return Err(Breach::ContentCut);
    }
    Ok(Header { octets, content })
}

// The header whose length takes more than one octet.
fn measure_long(s: &[u8]) -> Result<Header, Breach>
    requires { 2 ≤ length s.now }
    ensures { result ≡ longer_of s.now }
{
    if s[1] == 0x81 {
        if s.len() < 3 {
            return Err(Breach::LengthCut);
        }
        if s[2] < 128 {
            return Err(Breach::LengthNotShortest);
        }
        return whole(s, 3, s[2] as usize);
    }
    if s[1] != 0x82 {
        return Err(Breach::LengthForm);
    }
    if s.len() < 4 {
        return Err(Breach::LengthCut);
    }
    if s[2] == 0 {
        return Err(Breach::LengthNotShortest);
    }
    whole(s, 4, s[2] as usize * 256 + s[3] as usize)
}

// The header at the front of some octets, where the content after it is whole.
fn measure(s: &[u8]) -> Result<Header, Breach>
    ensures value { result ≡ measured s.now }
    ensures bound { IfOk result (λ h. (2 ≤ h.octets) × (h.octets + h.content ≤ length s.now)) }
    ensures octets { OnOk result ((k : ℕ) → slice_index s.now k < 256) }
{
    if s.is_empty() {
        return Err(Breach::NoTag);
    }
    if s.len() == 1 {
        return Err(Breach::LengthCut);
    }
    if s[1] < 128 {
        return whole(s, 2, s[1] as usize);
    }
    measure_long(s)
}

// The first element of `input` and the octets after it, both parts of `input`.
pub fn read<'a>(input: Part<'a>) -> Result<(Element<'a>, Part<'a>), ElementFault>
    ensures value { answered result ≡ read_of input.entry.octets.now input.entry.place }
    ensures grammar { Parsed input.entry.octets.now input.entry.place (answered result) }
{
    let s = input.octets;
    let place = input.place;
    let (start, end) = match measure(s) {
        Ok(header) => (header.octets, header.octets + header.content),
        Err(breach) => return Err(ElementFault { breach, place }),
    };
    let octets = &s[start..end];
    if let Err(breach) = check_form(s[0], octets) {
        return Err(ElementFault { breach, place });
    }
    let content = Part {
        octets,
        place: place + start,
    };
    let rest = Part {
        octets: &s[end..],
        place: place + end,
    };
    let tag = s[0];
    Ok((
        Element {
            tag,
            place,
            content,
        },
        rest,
    ))
}

// The first element of a whole file and the octets after it.
pub fn read_first<'a>(file: &'a [u8]) -> Result<(Element<'a>, Part<'a>), ElementFault>
    ensures value { answered result ≡ read_of file.now 0 }
    ensures grammar { Parsed file.now 0 (answered result) }
{
    read(Part::whole(file))
}

// How many octets the tag and the length of a content take.
pub fn header_size(size: usize) -> usize
    ensures value { result ≡ 1 + length (length_octets size) }
    ensures bound { result ≤ 4 }
{
    if size < 128 {
        2
    } else if size < 256 {
        3
    } else {
        4
    }
}

// Lays a tag and a length down, where they have room.
fn put_header(tag: u8, size: usize, area: &mut [u8])
    requires { (size ≤ 65535) × (length (header tag size) ≤ length area.old) }
    ensures { area.new ≡ header tag size ++ drop (length (header tag size)) area.old }
{
    area[0] = tag;
    if size < 128 {
        area[1] = size as u8;
    } else if size < 256 {
        area[1] = 0x81;
        area[2] = size as u8;
    } else {
        area[1] = 0x82;
        area[2] = (size / 256) as u8;
        area[3] = (size % 256) as u8;
    }
}

// Writes a tag and the length of a content of `size` octets at the front of the area, and answers how many
// octets that took. Refused where no length is so long, and then where the area is too short.
pub fn write_header(tag: u8, size: usize, area: &mut [u8]) -> Result<usize, Rule>
    ensures value { result ≡ header_written tag size (length area.old) }
    ensures after { area.new ≡ laid result (header tag size) area.old }
{
    if size > LONGEST {
        return Err(Rule::Form);
    }
    let end = header_size(size);
    if area.len() < end {
        return Err(Rule::Area);
    }
    put_header(tag, size, area);
    Ok(end)
}

// Writes an element at the front of the area, and answers how many octets it took. Refused where no length
// is so long, and then where the area is too short.
pub fn write(tag: u8, content: &[u8], area: &mut [u8]) -> Result<usize, Rule>
    ensures value { result ≡ element_written tag content.now (length area.old) }
    ensures after { area.new ≡ laid result (encoded tag content.now) area.old }
    ensures reads { IfOk result (λ n. ReadsBack tag content.now (take n area.new)) }
{
    if content.len() > LONGEST {
        return Err(Rule::Form);
    }
    let start = header_size(content.len());
    let end = start + content.len();
    if area.len() < end {
        return Err(Rule::Area);
    }
    put_header(tag, content.len(), area);
    area[start..end].copy_from_slice(content);
    Ok(end)
}

// No octets begin with two elements, and no tag and content have two encodings.
pub fn elements_have_one_encoding() -> bool
    ensures shown { result ≡ true }
    ensures theorem { OneEncoding }
{
    let shown = true;
    shown
}
