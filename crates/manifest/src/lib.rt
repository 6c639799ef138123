// The content of a manifest (RFC 9286): its number, its two times, and the files that it lists with their digests.
//
// `read_manifest` reads the octets of a manifest, all of them, and answers its head and how many files it lists; the
// files stand in a table that the caller lends. It refuses with the first fault, in the order of the octets: a missing or
// surplus element or a wrong tag (2), a number below 0 or of more than 20 octets, another digest algorithm than SHA-256,
// a name that is no bare name or that stood before, or a digest that is not of 32 whole octets (3). A name that stood
// before is found after the reading, from notes in lent memory, which `repeats` shows to be the same as looking at each
// name while reading. The caller lends `MOST_ENTRIES` records and as many spots for notes; the octets are those of a
// file, at most 65,535, which hold no more entries. specs/Manifests.antt has what a manifest is. It rests on `fields`,
// `names` and `layout` for the single elements.
#![tactic(auto)]

ghost use Rattle.std.specs.Prelude.{◌≡◌, ◌+◌, ◌<◌, ◌≤◌, All, length, take, drop, IfOk};
ghost use Rattle.std.specs.Str.{bytes_eq};
ghost use Rattle.repeats.specs.Reading.{unless_repeat};
ghost use Rattle.file_faults.specs.Reports.{content_report};
ghost use Rattle.element.specs.Reading.{octets_of};
ghost use Rattle.layout.specs.Expecting.{told_by, part_of};
ghost use Rattle.manifest.specs.Lending.{SameMemory, PlacedEntry, StaysPlaced};
ghost use Rattle.manifest.specs.Steps.{Stepped, Ended};
ghost use Rattle.manifest.specs.Manifests.{located_of, front_seen, name_of, opened_of, digest_of, named_twice, listed, entries_of, sha256, algorithm_of, head_and, head_of, manifest_seen, body_of, manifest_of};

mod lent;

use content::tag;
use element::{Element, Part};
use fault::Rule;
use fields::{gtime, number20, whole_bits};
use file_faults::ContentFault;
use layout::{LayerFault, end, expect};
use lent::Lent;
use moment::Moment;
use names::is_bare;
use repeats::{Spot, note, repeat_place};

// The most entries that a manifest of 65,535 octets can have, and one that is cut short: an entry takes 44 octets.
pub const MOST_ENTRIES: usize = 1_490;

// Some octets with an offset. Unlike that of a `Part`, it may be any, even one with which their end passes 2^64: so a caller
// fills a table with what he likes.
#[derive(Clone, Copy)]
pub struct Located<'a> {
    pub octets: &'a [u8],
    pub place: usize,
}

impl<'a> From<Part<'a>> for Located<'a> {
    ghost from_gives = { λ part located. located_of located ≡ octets_of part };

    fn from(part: Part<'a>) -> Located<'a> {
        Located {
            octets: part.octets,
            place: part.place,
        }
    }
}

// What a manifest says of a file: its bare name and its digest.
#[derive(Clone, Copy)]
pub struct ManifestEntry<'a> {
    pub name: Located<'a>,
    pub digest: Located<'a>,
}

// What stands in a manifest before its files: its number, when it was issued and when the next is due.
#[derive(Clone, Copy)]
pub struct Head<'a> {
    pub number: Part<'a>,
    pub this_update: Moment,
    pub next_update: Moment,
}

// What a manifest says: its head, and how many files it lists, which stand in a table.
#[derive(Clone, Copy)]
pub struct Manifest<'a> {
    pub head: Head<'a>,
    pub count: usize,
}

// An entry up to its name: the name's element, what follows it in the entry, and what follows the entry.
#[derive(Clone, Copy)]
struct Front<'a> {
    name: Element<'a>,
    inner: Part<'a>,
    after: Part<'a>,
}

// How the reading of entries stopped: how many names were noted, and the fault.
#[derive(Clone, Copy)]
struct Stopped {
    noted: usize,
    fault: ContentFault,
}

// A bare name, and the octets after it.
fn read_name<'a>(input: Part<'a>) -> Result<(Element<'a>, Part<'a>), ContentFault>
    ensures value { told_by content_report part_of result ≡ name_of (octets_of input.entry) }
{
    let (element, rest) = expect::<ContentFault>(input, tag::IA5_STRING)?;
    if !is_bare(element.content.octets) {
        return Err(ContentFault::own(Rule::Value, element.place));
    }
    Ok((element, rest))
}

// An entry up to its name.
fn read_front<'a>(input: Part<'a>) -> Result<Front<'a>, ContentFault>
    ensures value { told_by content_report front_seen result ≡ opened_of (octets_of input.entry) }
{
    let (entry, after) = expect::<ContentFault>(input, tag::SEQUENCE)?;
    let (name, inner) = read_name(entry.content)?;
    Ok(Front { name, inner, after })
}

// A digest, a BIT STRING of 32 whole octets, with which the octets end.
fn read_digest<'a>(input: Part<'a>) -> Result<Part<'a>, ContentFault>
    ensures value { told_by content_report octets_of result ≡ digest_of (octets_of input.entry) }
{
    let (digest, rest) = whole_bits::<ContentFault>(input)?;
    if digest.octets.len() != 32 {
        return Err(ContentFault::own(Rule::Value, input.place));
    }
    end::<ContentFault>(rest)?;
    Ok(digest)
}

// Reads the next entry, notes its name and writes it into the table, where so many entries stand before it. It answers the
// octets after the entry.
fn take_entry<'a>(
    input: Part<'a>,
    lent: &mut Lent<'_, 'a>,
    count: usize,
) -> Result<Part<'a>, Stopped>
    requires room { count < 1490 }
    ensures value { Stepped (octets_of input.entry) count lent.old.spots.now lent.new.spots.now lent.old.table.now lent.new.table.now result }
    ensures placed { IfOk result (λ _. All PlacedEntry (take count lent.old.table.now) → All PlacedEntry (take (count + 1) lent.new.table.now)) }
    ensures kept { StaysPlaced lent.old.table.now lent.new.table.now }
    ensures memory { SameMemory lent.old lent.new }
{
    let front = match read_front(input) {
        Ok(front) => front,
        Err(fault) => return Err(Stopped {
            noted: count,
            fault,
        }),
    };
    note(
        lent.spots,
        count,
        front.name.content.octets,
        front.name.place,
    );
    match read_digest(front.inner) {
        Ok(digest) => {
            lent.table[count] = ManifestEntry {
                name: front.name.content.into(),
                digest: digest.into(),
            };
            Ok(front.after)
        },
        Err(fault) => Err(Stopped {
            noted: count + 1,
            fault,
        }),
    }
}

// Reads the entries of a content into the table and notes their names, up to the first fault. The loop stays, and no row of `layout`
// goes over the entries: which names were noted counts after a fault too, and a row's end does not tell that.
fn note_entries<'a>(content: Part<'a>, lent: &mut Lent<'_, 'a>) -> Result<usize, Stopped>
    requires size { length content.octets.now ≤ 65535 }
    ensures value { Ended (octets_of content.entry) lent.new.spots.now lent.old.table.now lent.new.table.now result }
    ensures placed { IfOk result (λ n. All PlacedEntry (take n lent.new.table.now)) }
    ensures kept { StaysPlaced lent.old.table.now lent.new.table.now }
    ensures memory { SameMemory lent.old lent.new }
{
    let mut rest = content;
    let mut count = 0;
    while !rest.octets.is_empty() {
        rest = take_entry(rest, lent, count)?;
        count += 1;
    }
    Ok(count)
}

// How a reading ended, unless a name stood before: the place of that name, if there is one, wins.
fn unless_repeat(
    repeat: Option<usize>,
    ended: Result<usize, ContentFault>,
) -> Result<usize, ContentFault>
    ensures { result ≡ unless_repeat named_twice repeat ended }
{
    match repeat {
        Some(place) => Err(ContentFault::own(Rule::Value, place)),
        None => ended,
    }
}

// Reads the entries of a content into the table, all of different names, and answers how many there are.
fn read_entries<'a>(content: Part<'a>, lent: &mut Lent<'_, 'a>) -> Result<usize, ContentFault>
    requires size { length content.octets.now ≤ 65535 }
    ensures value { told_by content_report (λ n. listed n lent.new.table.now) result ≡ entries_of (octets_of content.entry) }
    ensures others { IfOk result (λ n. (drop n lent.new.table.now ≡ drop n lent.old.table.now) × (n ≤ length lent.new.table.now)) }
    ensures placed { IfOk result (λ n. All PlacedEntry (take n lent.new.table.now)) }
    ensures kept { StaysPlaced lent.old.table.now lent.new.table.now }
    ensures memory { SameMemory lent.old lent.new }
{
    match note_entries(content, lent) {
        Ok(count) => unless_repeat(repeat_place(lent.spots, count), Ok(count)),
        Err(stopped) => unless_repeat(repeat_place(lent.spots, stopped.noted), Err(stopped.fault)),
    }
}

// Whether an algorithm is SHA-256.
fn is_sha256(content: &[u8]) -> bool
    ensures { result ≡ bytes_eq content.now sha256 }
{
    content == [0x60, 0x86, 0x48, 0x01, 0x65, 0x03, 0x04, 0x02, 0x01].as_slice()
}

// The digest algorithm, which is SHA-256: the octets after it.
fn read_algorithm<'a>(input: Part<'a>) -> Result<Part<'a>, ContentFault>
    ensures value { told_by content_report octets_of result ≡ algorithm_of (octets_of input.entry) }
{
    let (element, rest) = expect::<ContentFault>(input, tag::OID)?;
    if !is_sha256(element.content.octets) {
        return Err(ContentFault::own(Rule::Value, element.place));
    }
    Ok(rest)
}

// What stands in a manifest before its files, and the octets after it.
fn read_head<'a>(input: Part<'a>) -> Result<(Head<'a>, Part<'a>), ContentFault>
    ensures value { told_by content_report head_and result ≡ head_of (octets_of input.entry) }
{
    let (number, rest) = number20::<ContentFault>(input)?;
    let (this_update, rest) = gtime::<ContentFault>(rest)?;
    let (next_update, rest) = gtime::<ContentFault>(rest)?;
    let rest = read_algorithm(rest)?;
    Ok((
        Head {
            number,
            this_update,
            next_update,
        },
        rest,
    ))
}

// The elements inside a manifest's SEQUENCE.
fn read_body<'a>(content: Part<'a>, lent: &mut Lent<'_, 'a>) -> Result<Manifest<'a>, ContentFault>
    requires size { length content.octets.now ≤ 65535 }
    ensures value { told_by content_report (manifest_seen lent.new.table.now) result ≡ body_of (octets_of content.entry) }
    ensures others { IfOk result (λ m. (drop m.count lent.new.table.now ≡ drop m.count lent.old.table.now) × (m.count ≤ length lent.new.table.now)) }
    ensures placed { IfOk result (λ m. All PlacedEntry (take m.count lent.new.table.now)) }
    ensures kept { StaysPlaced lent.old.table.now lent.new.table.now }
    ensures memory { SameMemory lent.old lent.new }
{
    let (head, rest) = read_head(content)?;
    let (row, after) = expect::<ContentFault>(rest, tag::SEQUENCE)?;
    let count = read_entries(row.content, lent)?;
    end::<ContentFault>(after)?;
    Ok(Manifest { head, count })
}

// Reads a manifest, with nothing after it.
fn read_whole<'a>(input: Part<'a>, lent: &mut Lent<'_, 'a>) -> Result<Manifest<'a>, ContentFault>
    requires size { length input.octets.now ≤ 65535 }
    ensures value { told_by content_report (manifest_seen lent.new.table.now) result ≡ manifest_of (octets_of input.entry) }
    ensures others { IfOk result (λ m. (drop m.count lent.new.table.now ≡ drop m.count lent.old.table.now) × (m.count ≤ length lent.new.table.now)) }
    ensures placed { IfOk result (λ m. All PlacedEntry (take m.count lent.new.table.now)) }
    ensures kept { StaysPlaced lent.old.table.now lent.new.table.now }
    ensures memory { SameMemory lent.old lent.new }
{
    let (outer, after) = expect::<ContentFault>(input, tag::SEQUENCE)?;
    let manifest = read_body(outer.content, lent)?;
    end::<ContentFault>(after)?;
    Ok(manifest)
}

// The manifest that some octets are: what it says, with its files in the table. Nothing may stand after it.
pub fn read_manifest<'a>(
    input: Part<'a>,
    table: &mut [ManifestEntry<'a>],
    spots: &mut [Spot<'a>],
) -> Result<Manifest<'a>, ContentFault>
    requires size { length input.octets.now ≤ 65535 }
    requires room { (1490 ≤ length table.old) × (1490 ≤ length spots.old) }
    ensures value { told_by content_report (manifest_seen table.new) result ≡ manifest_of (octets_of input.entry) }
    ensures others { IfOk result (λ m. (drop m.count table.new ≡ drop m.count table.old) × (m.count ≤ length table.new)) }
    ensures placed { IfOk result (λ m. All PlacedEntry (take m.count table.new)) }
    ensures kept { StaysPlaced table.old table.new }
{
    let mut lent = Lent { table, spots };
    read_whole(input, &mut lent)
}
