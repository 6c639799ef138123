// What certificates and revocation lists share (RFC 5280).
//
// `open` gives the OID of an extension and the octets after it, `value_octets` the OCTET STRING that holds the value, where the flag
// before it is as the extension's criticality wants it. `key_identifier` takes a key id out of a value, and `seal` reads what follows the
// signed part: the algorithm once more, and the signature. They serve every layer, by its own fault type, and rest on `layout` and `fields`.
#![tactic(auto)]

ghost use Rattle.std.specs.Prelude.{◌≡◌, ◌≤◌, true, length};
ghost use Rattle.std.specs.Option.{option_map};
ghost use Rattle.element.specs.Reading.{seen, octets_of};
ghost use Rattle.layout.specs.Expecting.{told_by, part_of};
ghost use Rattle.x509.specs.Shared.{is_true, opened_of, value_octets, is_key, key_after, seal_of};

use content::tag;
use element::{Element, Part};
use fault::Rule;
use fields::{sequence, whole_bits};
use layout::{LayerFault, end, expect, next};

// The OID of an extension, and the octets after it.
pub fn open<'a, F: LayerFault>(extension: &Element<'a>) -> Result<(Element<'a>, Part<'a>), F>
    ensures value { told_by F.told part_of result ≡ opened_of F.layer (seen extension.now) }
{
    if extension.tag != tag::SEQUENCE {
        return Err(F::own(Rule::Structure, extension.place));
    }
    expect::<F>(extension.content, tag::OID)
}

// Whether the content of a BOOLEAN is true.
fn is_true(content: &[u8]) -> bool
    ensures { result ≡ is_true content.now }
{
    content == b"\xff".as_slice()
}

// The OCTET STRING with the value of an extension, and the octets after it. A critical extension has a BOOLEAN before it that is true,
// and every other has none.
pub fn value_octets<'a, F: LayerFault>(
    rest: Part<'a>,
    critical: bool,
) -> Result<(Element<'a>, Part<'a>), F>
    ensures value { told_by F.told part_of result ≡ value_octets F.layer critical (octets_of rest.entry) }
{
    let (element, after) = next::<F>(rest)?;
    if element.tag == tag::BOOLEAN {
        if critical && is_true(element.content.octets) {
            return expect::<F>(after, tag::OCTET_STRING);
        }
        return Err(F::own(Rule::Value, element.place));
    }
    if element.tag != tag::OCTET_STRING {
        return Err(F::own(Rule::Structure, element.place));
    }
    if critical {
        return Err(F::own(Rule::Value, element.place));
    }
    Ok((element, after))
}

// Whether octets are this front and then 20 more.
fn is_key(octets: &[u8], front: &[u8]) -> bool
    ensures test { result ≡ is_key front.now octets.now }
    ensures bound { result ≡ true → length front.now ≤ length octets.now }
{
    octets.len() == front.len() + 20 && &octets[..front.len()] == front
}

// The key identifier in a value: 20 octets after this front, and nothing else.
pub fn key_identifier<'a>(value: Part<'a>, front: &[u8]) -> Option<Part<'a>>
    ensures value { option_map octets_of result ≡ key_after front.now (octets_of value.entry) }
{
    if !is_key(value.octets, front) {
        return None;
    }
    Some(value.skip(front.len()))
}

// What follows a signed part: the same algorithm again, and the signature, whose octets it gives.
pub fn seal<'a, F: LayerFault>(rest: Part<'a>, algorithm: &[u8]) -> Result<Part<'a>, F>
    ensures value { told_by F.told octets_of result ≡ seal_of F.layer algorithm.now (octets_of rest.entry) }
{
    let (again, rest) = sequence::<F>(rest)?;
    if algorithm != again.octets {
        return Err(F::own(Rule::Value, again.place));
    }
    let (signature, rest) = whole_bits::<F>(rest)?;
    end::<F>(rest)?;
    Ok(signature)
}
