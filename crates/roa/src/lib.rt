// The content of a ROA (RFC 9582): the AS that may announce prefixes, and the rows of these.
//
// `read_roa` reads it into a lent table of full size: the rows of IPv4 and then those of IPv6, at most 256 of each, at the front of the table
// in their order, and past them what stood there before. It answers the AS and how many rows there are, or the first fault in its place.
// It rests on `fields`, `families` and `layout` for the layout, on `prefixes` for the bits of an address and on `entries` for numbers.
#![tactic(auto)]

ghost use Rattle.std.specs.Prelude.{◌≡◌, ◌+◌, ◌*◌, ◌^◌, ◌<◌, ◌≤◌, length, take, drop, Some, IfOk, OnOk};
ghost use Rattle.fault.specs.Faults.{reported};
ghost use Rattle.file_faults.specs.Reports.{content_report};
ghost use Rattle.family.specs.Widths.{width};
ghost use Rattle.prefixes.specs.Reading.{bit_count};
ghost use Rattle.element.specs.Reading.{seen, octets_of};
ghost use Rattle.layout.specs.Expecting.{told_by};
ghost use Rattle.layout.specs.Rows.{rows_of};
ghost use Rattle.roa.specs.Roas.{family_rows, family_step, nothing_known, families_of, body_of, roa_of, roa_seen, known_seen};
ghost use Rattle.roa.specs.Most.{most_rows};
ghost use Rattle.roa.specs.Gathering.{Gathered, gathered_in, gather_step};
ghost use Rattle.roa.specs.Filling.{Filled, filled_in, fill_step};
ghost use Rattle.roa.specs.Rows.{top_of, prefix_of, prefix_seen, prefix_at, max_of, max_at, row_of, row_in, row_step, some_rows};

mod all_rows;
mod family_rows;

use all_rows::AllRows;
use content::{read_bit_string, tag};
use element::{Element, Part};
use families::named_family_after;
use family_rows::FamilyRows;
use fault::Rule;
use file_faults::ContentFault;
use layout::{LayerFault, Row, end, expect};
use payload::{Family, Prefix};
use prefixes::low_end;

// The most rows of a family.
pub const FAMILY_ROWS: usize = 256;

// The most rows of both families.
pub const ROWS: usize = 512;

// A row of a ROA: a prefix, and the longest prefix in it that may be announced, where it is given.
#[derive(Clone, Copy)]
pub struct RoaRow {
    pub prefix: Prefix,
    pub max: Option<u8>,
}

// What a ROA says: its AS, and how many rows stand at the front of the table.
#[derive(Clone, Copy)]
pub struct Roa {
    pub asn: u32,
    pub count: usize,
}

// The number of an address as the first bits of 128.
fn top(family: Family, address: u128) -> u128
    requires { address < 2 ^ width family }
    ensures { result ≡ top_of family address }
{
    match family {
        Family::Ipv4 => address * 0x1_0000_0000_0000_0000_0000_0000,
        Family::Ipv6 => address,
    }
}

// How many bits octets have, of which so many in the last are unused.
fn bit_count(octets: &[u8], unused: u8) -> u8
    requires few { length octets.now ≤ 16 }
    requires unused { unused ≤ 8 * length octets.now }
    ensures { result ≡ bit_count octets.now unused }
{
    8 * octets.len() as u8 - unused
}

// The prefix that the content of a BIT STRING is, of no more bits than an address has.
fn prefix_in(content: &[u8], family: Family) -> Option<Prefix>
    ensures { result ≡ prefix_of family content.now }
{
    let bits = read_bit_string(content)?;
    let low = low_end(bits, family)?;
    Some(Prefix {
        family,
        address: top(family, low),
        length: bit_count(bits.octets, bits.unused),
    })
}

// The prefix that a content begins with, and the octets after it.
fn read_prefix<'a>(content: Part<'a>, family: Family) -> Result<(Prefix, Part<'a>), ContentFault>
    ensures value { told_by content_report prefix_seen result ≡ prefix_at family (octets_of content.entry) }
{
    let (bits, rest) = expect::<ContentFault>(content, tag::BIT_STRING)?;
    let Some(prefix) = prefix_in(bits.content.octets, family) else {
        return Err(ContentFault::own(Rule::Value, bits.place));
    };
    Ok((prefix, rest))
}

// The maximum that the content of an INTEGER is, from the least to the most.
fn max_in(content: &[u8], least: u8, most: u8) -> Option<u8>
    ensures { result ≡ max_of least most content.now }
{
    let number = u8::try_from(entries::as_number(content)?).ok()?;
    (least <= number && number <= most).then_some(number)
}

// The maximum with which a row ends, if it stands there.
fn read_max(rest: Part<'_>, prefix: Prefix) -> Result<Option<u8>, ContentFault>
    ensures { reported content_report result ≡ max_at prefix (octets_of rest.entry) }
{
    if rest.octets.is_empty() {
        return Ok(None);
    }
    let (number, rest) = expect::<ContentFault>(rest, tag::INTEGER)?;
    let Some(max) = max_in(number.content.octets, prefix.length, prefix.family.width()) else {
        return Err(ContentFault::own(Rule::Value, number.place));
    };
    end::<ContentFault>(rest)?;
    Ok(Some(max))
}

// The row that a content is.
fn read_row(content: Part<'_>, family: Family) -> Result<RoaRow, ContentFault>
    ensures { reported content_report result ≡ row_of family (octets_of content.entry) }
{
    let (prefix, rest) = read_prefix(content, family)?;
    let max = read_max(rest, prefix)?;
    Ok(RoaRow { prefix, max })
}

// The row in an element, where so many rows of its family stand before it.
fn counted_row(row: &Element<'_>, family: Family, before: usize) -> Result<RoaRow, ContentFault>
    requires count { before ≤ 256 }
    ensures value { reported content_report result ≡ row_in family before (seen row.now) }
    ensures room { OnOk result (before < 256) }
{
    if row.tag != tag::SEQUENCE {
        return Err(ContentFault::own(Rule::Structure, row.place));
    }
    if before == FAMILY_ROWS {
        return Err(ContentFault::own(Rule::Count, row.place));
    }
    read_row(row.content, family)
}

impl<'a> Row<'a, ContentFault> for FamilyRows<'_> {
    ghost Known = { Filled };

    ghost view = { filled_in };

    ghost step = { fill_step };

    // Writes the row in an element into the table.
    fn take(self, row: &Element<'a>) -> Result<Self, ContentFault> {
        let FamilyRows {
            family,
            base,
            count,
            table,
        } = self;
        let row = counted_row(row, family, count - base)?;
        table[count] = row;
        Ok(FamilyRows {
            family,
            base,
            count: count + 1,
            table,
        })
    }
}

// Reads the rows of a family into the table, where `base` rows of another stand before them, and answers how many stand there then.
fn read_rows(
    content: Part<'_>,
    family: Family,
    base: usize,
    table: &mut [RoaRow; ROWS],
) -> Result<usize, ContentFault>
    requires base { base ≤ 256 }
    ensures value { told_by content_report (λ n. take n table.new) result ≡ rows_of (row_step family base) (take base table.old) (octets_of content.entry) }
    ensures past { IfOk result (λ n. (base ≤ n) × (n ≤ base + 256) × (drop n table.new ≡ drop n table.old)) }
{
    let start = FamilyRows {
        family,
        base,
        count: base,
        table,
    };
    let rows = layout::read_rows::<ContentFault, FamilyRows<'_>>(content, start)?;
    // the table is taken out of the rows, and its loan ends here
    let FamilyRows {
        count,
        table: _table,
        ..
    } = rows;
    Ok(count)
}

// Reads the rows of a family, at least one, likewise.
fn read_some(
    content: Part<'_>,
    family: Family,
    base: usize,
    table: &mut [RoaRow; ROWS],
) -> Result<usize, ContentFault>
    requires base { base ≤ 256 }
    ensures value { told_by content_report (λ n. take n table.new) result ≡ some_rows family (take base table.old) (octets_of content.entry) }
    ensures past { IfOk result (λ n. (base ≤ n) × (n ≤ base + 256) × (drop n table.new ≡ drop n table.old)) }
{
    if content.octets.is_empty() {
        return Err(ContentFault::own(Rule::Structure, content.place));
    }
    read_rows(content, family, base, table)
}

// Reads what follows the name of a family: the SEQUENCE of its rows, and nothing more.
fn read_family_rows(
    content: Part<'_>,
    family: Family,
    base: usize,
    table: &mut [RoaRow; ROWS],
) -> Result<usize, ContentFault>
    requires base { base ≤ 256 }
    ensures value { told_by content_report (λ n. take n table.new) result ≡ family_rows family (take base table.old) (octets_of content.entry) }
    ensures past { IfOk result (λ n. (base ≤ n) × (n ≤ base + 256) × (drop n table.new ≡ drop n table.old)) }
{
    let (rows, rest) = expect::<ContentFault>(content, tag::SEQUENCE)?;
    let count = read_some(rows.content, family, base, table)?;
    end::<ContentFault>(rest)?;
    Ok(count)
}

// Reads a family, which has to stand after the one before it, and answers it and how many rows stand in the table then.
fn read_family(
    family: &Element<'_>,
    before: Option<Family>,
    count: usize,
    table: &mut [RoaRow; ROWS],
) -> Result<(Family, usize), ContentFault>
    requires count { count ≤ most_rows before }
    ensures value { told_by content_report (λ p. known_seen table.new (Some p.0, p.1)) result ≡ family_step (known_seen table.old (before, count)) (seen family.now) }
    ensures past { IfOk result (λ p. (p.1 ≤ most_rows (Some p.0)) × (count ≤ p.1) × (drop p.1 table.new ≡ drop p.1 table.old)) }
{
    if family.tag != tag::SEQUENCE {
        return Err(ContentFault::own(Rule::Structure, family.place));
    }
    let (named, rest) = named_family_after::<ContentFault>(family.content, before)?;
    let total = read_family_rows(rest, named, count, table)?;
    Ok((named, total))
}

impl<'a> Row<'a, ContentFault> for AllRows<'_> {
    ghost Known = { Gathered };

    ghost view = { gathered_in };

    ghost step = { gather_step };

    // Reads a family into the table.
    fn take(self, family: &Element<'a>) -> Result<Self, ContentFault> {
        let AllRows { last, count, table } = self;
        let (named, total) = read_family(family, last, count, table)?;
        Ok(AllRows {
            last: Some(named),
            count: total,
            table,
        })
    }
}

// Reads families into the table, and answers the last and how many rows there are.
fn read_each_family(
    content: Part<'_>,
    table: &mut [RoaRow; ROWS],
) -> Result<(Option<Family>, usize), ContentFault>
    ensures value { told_by content_report (known_seen table.new) result ≡ rows_of family_step nothing_known (octets_of content.entry) }
    ensures past { IfOk result (λ p. (p.1 ≤ 512) × (drop p.1 table.new ≡ drop p.1 table.old)) }
{
    let start = AllRows {
        last: None,
        count: 0,
        table,
    };
    let rows = layout::read_rows::<ContentFault, AllRows<'_>>(content, start)?;
    // the table is taken out here too
    let AllRows {
        last,
        count,
        table: _table,
    } = rows;
    Ok((last, count))
}

// Reads families into the table, at least one, likewise.
fn read_families(
    content: Part<'_>,
    table: &mut [RoaRow; ROWS],
) -> Result<(Option<Family>, usize), ContentFault>
    ensures value { told_by content_report (known_seen table.new) result ≡ families_of (octets_of content.entry) }
    ensures past { IfOk result (λ p. (p.1 ≤ 512) × (drop p.1 table.new ≡ drop p.1 table.old)) }
{
    if content.octets.is_empty() {
        return Err(ContentFault::own(Rule::Structure, content.place));
    }
    read_each_family(content, table)
}

// Reads what the SEQUENCE of a ROA holds: its AS and its families.
fn read_body(content: Part<'_>, table: &mut [RoaRow; ROWS]) -> Result<Roa, ContentFault>
    ensures value { told_by content_report (roa_seen table.new) result ≡ body_of (octets_of content.entry) }
    ensures past { IfOk result (λ a. (a.count ≤ 512) × (drop a.count table.new ≡ drop a.count table.old)) }
{
    let (asn, rest) = fields::as_number::<ContentFault>(content)?;
    let (families, rest) = expect::<ContentFault>(rest, tag::SEQUENCE)?;
    let (_, count) = read_families(families.content, table)?;
    end::<ContentFault>(rest)?;
    Ok(Roa { asn, count })
}

// Reads the content of a ROA, with nothing after it. Its rows stand at the front of the table then, and past them what stood there
// before; after a fault nothing is said of the table.
pub fn read_roa(content: Part<'_>, rows: &mut [RoaRow; ROWS]) -> Result<Roa, ContentFault>
    ensures value { told_by content_report (roa_seen rows.new) result ≡ roa_of (octets_of content.entry) }
    ensures past { IfOk result (λ a. (a.count ≤ 512) × (drop a.count rows.new ≡ drop a.count rows.old)) }
{
    let (outer, rest) = expect::<ContentFault>(content, tag::SEQUENCE)?;
    let roa = read_body(outer.content, rows)?;
    end::<ContentFault>(rest)?;
    Ok(roa)
}
