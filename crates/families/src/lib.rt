// The names of address families, with which what is said of IPv4 and of IPv6 begins (RFC 3779 2.2.3.3, RFC 9582 4.3.1).
//
// `named_family_after` reads such a name: an OCTET STRING of two octets, 00 01 for IPv4 and 00 02 for IPv6. Families stand in ascending
// order, so it asks for one after the family before it, and answers it and the octets after the name, or the first fault: a missing element
// or a wrong tag (2), another name or one that does not ascend (3). `family_after` does the same by numbers, 1 for IPv4 and 2 for IPv6.
// Both serve every layer, by its own fault type, and rest on `layout`.
#![tactic(auto)]

ghost use Rattle.std.specs.Prelude.{◌≡◌, ◌<◌, ◌≤◌, true, IfOk};
ghost use Rattle.element.specs.Reading.{octets_of};
ghost use Rattle.layout.specs.Expecting.{told_by};
ghost use Rattle.families.specs.Families.{family_named, follows, family_after, family_seen};
ghost use Rattle.families.specs.Numbers as numbers;

use content::tag;
use element::Part;
use family::Family;
use fault::Rule;
use layout::{LayerFault, expect};

// The family that octets name.
fn family_named(octets: &[u8]) -> Option<Family>
    ensures { result ≡ family_named octets.now }
{
    match octets {
        b"\x00\x01" => Some(Family::Ipv4),
        b"\x00\x02" => Some(Family::Ipv6),
        _ => None,
    }
}

// Whether a family stands after the one before it: either may be the first.
fn follows(before: Option<Family>, family: Family) -> bool
    ensures { result ≡ follows before family }
{
    match before {
        None => true,
        Some(last) => last < family,
    }
}

// The family that a content begins with, which has to stand after the one before it, and the octets after its name.
pub fn named_family_after<'a, F: LayerFault>(
    content: Part<'a>,
    before: Option<Family>,
) -> Result<(Family, Part<'a>), F>
    ensures value { told_by F.told family_seen result ≡ family_after F.layer before (octets_of content.entry) }
    ensures next { IfOk result (λ p. follows before p.0 ≡ true) }
{
    let (name, rest) = expect::<F>(content, tag::OCTET_STRING)?;
    match family_named(name.content.octets) {
        Some(family) if follows(before, family) => Ok((family, rest)),
        _ => Err(F::own(Rule::Value, name.place)),
    }
}

// The number of a family.
fn number_of(family: Family) -> u8
    ensures { result ≡ numbers.number_of family }
{
    match family {
        Family::Ipv4 => 1,
        Family::Ipv6 => 2,
    }
}

// The last family whose number is at most this one: none at 0, IPv4 at 1, and IPv6 from 2 on.
fn last_up_to(number: u8) -> Option<Family>
    ensures { result ≡ numbers.last_up_to number }
{
    match number {
        0 => None,
        1 => Some(Family::Ipv4),
        _ => Some(Family::Ipv6),
    }
}

// The number of the family that a content begins with, 1 for IPv4 and 2 for IPv6, which has to be above the number before it, and the
// octets after its name: either may stand after 0, and none after 2 and above.
pub fn family_after<'a, F: LayerFault>(content: Part<'a>, before: u8) -> Result<(u8, Part<'a>), F>
    ensures value { told_by F.told numbers.family_seen result ≡ numbers.family_after F.layer before (octets_of content.entry) }
    ensures next { IfOk result (λ p. (before < p.0) × (p.0 ≤ 2)) }
{
    let (family, rest) = named_family_after::<F>(content, last_up_to(before))?;
    Ok((number_of(family), rest))
}
