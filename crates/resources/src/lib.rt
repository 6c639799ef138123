// The two resource extensions of a certificate (RFC 3779): its address blocks and its AS numbers.
//
// `read_addresses` and `read_asn` read the value of such an extension from a part of a file, `read_addresses_value` and
// `read_asn_value` from octets of their own. Each part of the resources (IPv4, IPv6, AS numbers) is absent, inherited or
// a list, and the caller says by `May` what may stand there. The ranges of a list stand at the front of the lent table of
// its kind. A list of no entries is refused, so that it is never taken for an inherited part, and a list that was read is lawful.
// It rests on `lists` for the entries of a list, on `families` for the names of the families and on `layout` for what a layout wants.
#![tactic(auto)]

ghost use Rattle.std.specs.Prelude.{◌≡◌, length};
ghost use Rattle.fault.specs.Faults.{set_report, reported};
ghost use Rattle.element.specs.Reading.{seen, octets_of};
ghost use Rattle.layout.specs.Expecting.{told_by, part_of};
ghost use Rattle.lists.specs.Entries.{kept};
ghost use Rattle.resources.specs.Parts.{allowed, choice_of, held_of, ranges_in, read_part, ranges_of};
ghost use Rattle.points.specs.Ranks.{v6_rank};
ghost use Rattle.entries.specs.Kinds.{v6_entry};
ghost use Rattle.resources.specs.Values.{next_family, no_more, last_of, second_of, second_ranges, families_of, family_tables, addresses_of, address_tables, asn_of, asn_ranges, asn_tables, alone, fresh_tables};
ghost use Rattle.resources.specs.Meaning.{Tells, AddressesSay, AsnSays, addresses_listed, asn_listed, AddressListIn, AsnListIn, EmptyRefused};

use content::tag;
use element::{Element, Part};
use entries::Resource;
use families::named_family_after;
use family::Family;
use fault::{Rule, SetFault};
use layout::{LayerFault, end, expect, next};
use lists::read_entries;
use points::{Asn, V4, V6};
use ranges::{MOST, Range};

// What a certificate says of one part of its resources. A list's SEQUENCE stands at the offset `place` of the file, and
// its `count` ranges stand at the front of the table of their kind.
#[derive(Clone, Copy)]
pub enum Held {
    Absent,
    Inherited,
    List { place: usize, count: usize },
}

// What may stand in a part that is present.
#[derive(Clone, Copy)]
pub enum May {
    List,
    Inherit,
    Either,
}

// What a certificate says of its addresses.
#[derive(Clone, Copy)]
pub struct Addresses {
    pub v4: Held,
    pub v6: Held,
}

// The tables that lists are read into, one of full size for each kind of points.
#[derive(Drop)]
pub struct Tables {
    pub v4: [Range<V4>; MOST],
    pub v6: [Range<V6>; MOST],
    pub asn: [Range<Asn>; MOST],
}

impl Tables {
    // Tables to be lent; what stands in them before a reading says nothing.
    pub fn new() -> Tables
        ensures { result ≡ fresh_tables }
    {
        let v4 = V4 { word: 0 };
        let v6 = V6 { high: 0, low: 0 };
        let asn = Asn { number: 0 };
        Tables {
            v4: [Range {
                first: v4,
                last: v4,
            }; MOST],
            v6: [Range {
                first: v6,
                last: v6,
            }; MOST],
            asn: [Range {
                first: asn,
                last: asn,
            }; MOST],
        }
    }
}

// Whether an element of this tag, a NULL or a SEQUENCE, may stand in a part.
fn allows(may: May, tag: u8) -> bool
    ensures { result ≡ allowed may tag }
{
    match may {
        May::List => tag == tag::SEQUENCE,
        May::Inherit => tag == tag::NULL,
        May::Either => true,
    }
}

// The NULL or the SEQUENCE in which a part is said, one that may stand there, and the octets after it.
fn choice<'a>(input: Part<'a>, may: May) -> Result<(Element<'a>, Part<'a>), SetFault>
    ensures value { told_by set_report part_of result ≡ choice_of may (octets_of input.entry) }
{
    let (element, rest) = next::<SetFault>(input)?;
    if element.tag != tag::NULL && element.tag != tag::SEQUENCE {
        return Err(SetFault::own(Rule::Structure, element.place));
    }
    if !allows(may, element.tag) {
        return Err(SetFault::own(Rule::Value, element.place));
    }
    Ok((element, rest))
}

// What a NULL or a SEQUENCE says of a part: it is inherited, or a list with at least one entry.
fn held_in<P: Resource>(
    element: &Element<'_>,
    table: &mut [Range<P>; MOST],
) -> Result<Held, SetFault>
    ensures value { reported set_report result ≡ held_of P.rank P.entry (seen element.now) }
    ensures table { table.new ≡ kept (ranges_in P.rank P.entry (seen element.now)) table.old }
{
    if element.tag == tag::NULL {
        return Ok(Held::Inherited);
    }
    if element.content.octets.is_empty() {
        return Err(SetFault::own(Rule::Value, element.place));
    }
    let count = read_entries(element.content, table)?;
    Ok(Held::List {
        place: element.place,
        count,
    })
}

// What a content says of a part, with nothing after it.
fn read_part<P: Resource>(
    content: Part<'_>,
    may: May,
    table: &mut [Range<P>; MOST],
) -> Result<Held, SetFault>
    ensures value { reported set_report result ≡ read_part P.rank P.entry may (octets_of content.entry) }
    ensures table { table.new ≡ kept (ranges_of P.rank P.entry may (octets_of content.entry)) table.old }
{
    let (element, rest) = choice(content, may)?;
    let held = held_in(&element, table)?;
    end::<SetFault>(rest)?;
    Ok(held)
}

// The next family, which has to stand after the one before it: which it is, what is said of it, and the octets after it.
fn next_family<'a>(
    input: Part<'a>,
    before: Option<Family>,
) -> Result<(Family, Part<'a>, Part<'a>), SetFault>
    ensures value { told_by set_report (λ h. (h.0, octets_of h.1, octets_of h.2)) result ≡ next_family before (octets_of input.entry) }
{
    let (family, rest) = expect::<SetFault>(input, tag::SEQUENCE)?;
    let (which, said) = named_family_after::<SetFault>(family.content, before)?;
    Ok((which, said, rest))
}

// No family after IPv6: one that stands there is refused where its name is read.
fn no_more(rest: Part<'_>) -> Result<(), SetFault>
    ensures { reported set_report result ≡ no_more (octets_of rest.entry) }
{
    if rest.octets.is_empty() {
        return Ok(());
    }
    next_family(rest, Some(Family::Ipv6))?;
    Ok(())
}

// What is said of IPv6, after the name of the family, with no family after it.
fn last_family(
    content: Part<'_>,
    rest: Part<'_>,
    may: May,
    v6: &mut [Range<V6>; MOST],
) -> Result<Held, SetFault>
    ensures value { reported set_report result ≡ last_of may (octets_of content.entry) (octets_of rest.entry) }
    ensures table { v6.new ≡ kept (ranges_of v6_rank v6_entry may (octets_of content.entry)) v6.old }
{
    let held = read_part(content, may, v6)?;
    no_more(rest)?;
    Ok(held)
}

// What is said of IPv6 after IPv4.
fn second(rest: Part<'_>, may: May, v6: &mut [Range<V6>; MOST]) -> Result<Held, SetFault>
    ensures value { reported set_report result ≡ second_of may (octets_of rest.entry) }
    ensures table { v6.new ≡ kept (second_ranges may (octets_of rest.entry)) v6.old }
{
    if rest.octets.is_empty() {
        return Ok(Held::Absent);
    }
    let (_, said, after) = next_family(rest, Some(Family::Ipv4))?;
    last_family(said, after, may, v6)
}

// What the families in a content say, of which there is at least one.
fn families(content: Part<'_>, may: May, tables: &mut Tables) -> Result<Addresses, SetFault>
    ensures value { reported set_report result ≡ families_of may (octets_of content.entry) }
    ensures tables { tables.new ≡ family_tables may (octets_of content.entry) tables.old }
{
    let (first, said, rest) = next_family(content, None)?;
    match first {
        Family::Ipv4 => Ok(Addresses {
            v4: read_part(said, may, &mut tables.v4)?,
            v6: second(rest, may, &mut tables.v6)?,
        }),
        Family::Ipv6 => Ok(Addresses {
            v4: Held::Absent,
            v6: last_family(said, rest, may, &mut tables.v6)?,
        }),
    }
}

// What the value of the extension for addresses says.
fn addresses_in(value: Part<'_>, may: May, tables: &mut Tables) -> Result<Addresses, SetFault>
    ensures value { reported set_report result ≡ addresses_of may (octets_of value.entry) }
    ensures tables { tables.new ≡ address_tables may (octets_of value.entry) tables.old }
{
    let (outer, rest) = expect::<SetFault>(value, tag::SEQUENCE)?;
    let addresses = families(outer.content, may, tables)?;
    end::<SetFault>(rest)?;
    Ok(addresses)
}

// What the value of the extension for AS numbers says.
fn asn_in(value: Part<'_>, may: May, asn: &mut [Range<Asn>; MOST]) -> Result<Held, SetFault>
    ensures value { reported set_report result ≡ asn_of may (octets_of value.entry) }
    ensures table { asn.new ≡ kept (asn_ranges may (octets_of value.entry)) asn.old }
{
    let (outer, rest) = expect::<SetFault>(value, tag::SEQUENCE)?;
    let (numbers, after) = expect::<SetFault>(outer.content, tag::EXPLICIT_0)?;
    let held = read_part(numbers.content, may, asn)?;
    end::<SetFault>(after)?;
    end::<SetFault>(rest)?;
    Ok(held)
}

// Reads the value of the extension for addresses. It refuses at the first broken rule; the tables then hold the
// entries before it.
pub fn read_addresses(value: Part<'_>, may: May, tables: &mut Tables) -> Result<Addresses, SetFault>
    ensures value { reported set_report result ≡ addresses_of may (octets_of value.entry) }
    ensures tables { tables.new ≡ address_tables may (octets_of value.entry) tables.old }
    ensures says { Tells (AddressesSay may (octets_of value.entry)) (addresses_listed tables.new) result }
    ensures empty { EmptyRefused (AddressListIn may (octets_of value.entry)) (reported set_report result) }
{
    addresses_in(value, may, tables)
}

// Reads the value of the extension for AS numbers, likewise.
pub fn read_asn(value: Part<'_>, may: May, tables: &mut Tables) -> Result<Held, SetFault>
    ensures value { reported set_report result ≡ asn_of may (octets_of value.entry) }
    ensures tables { tables.new ≡ asn_tables may (octets_of value.entry) tables.old }
    ensures says { Tells (AsnSays may (octets_of value.entry)) (asn_listed tables.new) result }
    ensures empty { EmptyRefused (AsnListIn (octets_of value.entry)) (reported set_report result) }
{
    asn_in(value, may, &mut tables.asn)
}

// Reads octets that are the value of the extension for addresses.
pub fn read_addresses_value(
    octets: &[u8],
    may: May,
    tables: &mut Tables,
) -> Result<Addresses, SetFault>
    ensures value { reported set_report result ≡ addresses_of may (alone octets.now) }
    ensures tables { tables.new ≡ address_tables may (alone octets.now) tables.old }
    ensures says { Tells (AddressesSay may (alone octets.now)) (addresses_listed tables.new) result }
    ensures empty { EmptyRefused (AddressListIn may (alone octets.now)) (reported set_report result) }
{
    read_addresses(Part { octets, place: 0 }, may, tables)
}

// Reads octets that are the value of the extension for AS numbers.
pub fn read_asn_value(octets: &[u8], may: May, tables: &mut Tables) -> Result<Held, SetFault>
    ensures value { reported set_report result ≡ asn_of may (alone octets.now) }
    ensures tables { tables.new ≡ asn_tables may (alone octets.now) tables.old }
    ensures says { Tells (AsnSays may (alone octets.now)) (asn_listed tables.new) result }
    ensures empty { EmptyRefused (AsnListIn (alone octets.now)) (reported set_report result) }
{
    read_asn(Part { octets, place: 0 }, may, tables)
}
