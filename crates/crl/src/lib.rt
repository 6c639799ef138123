// Certificate revocation lists, as RFC 5280 and RFC 6487 have them.
//
// `read_crl` reads a whole file: it answers the list's issuer, its dates, the rows of revoked serials, the issuer's key id, the list's
// number and what is signed, each as a part of the file, or the first fault in its place. Nothing is copied, and the file is gone
// through once. It rests on `x509` and `fields` for what its layout shares with certificates.
#![tactic(auto)]

ghost use Rattle.std.specs.Prelude.{◌≡◌};
ghost use Rattle.fault.specs.Faults.{reported};
ghost use Rattle.file_faults.specs.Reports.{crl_report};
ghost use Rattle.element.specs.Reading.{octets_of};
ghost use Rattle.layout.specs.Expecting.{told_by};
ghost use Rattle.fields.specs.Fields.{both_of};
ghost use Rattle.crl.specs.Rows.{row_step, revoked_of};
ghost use Rattle.crl.specs.Extensions.{Found, found_in, key_of, number_of, extension_step, extensions_of};
ghost use Rattle.crl.specs.Lists.{front_in, front_of, tail_in, tail_of, wrapped_of, body_in, body_of, value_in, inside_of, file_of, crl_of};

use content::tag;
use element::{Element, Part};
use fault::Rule;
use fields::{constant_integer, number20, sequence, serial, time, whole};
use file_faults::CrlFault;
use layout::{LayerFault, Row, end, expect, next, read_rows};
use moment::Moment;
use x509::{key_identifier, open, seal, value_octets};

// A revocation list. `signed` is the inner SEQUENCE as a whole element, on which the issuer's key has signed; `revoked` has the rows
// of revoked certificates, `key` the 20 octets of the issuer's key id.
#[derive(Clone, Copy)]
pub struct Crl<'a> {
    pub signed: Part<'a>,
    pub issuer: Part<'a>,
    pub from: Moment,
    pub until: Moment,
    pub revoked: Option<Part<'a>>,
    pub key: Part<'a>,
    pub number: Part<'a>,
    pub signature: Part<'a>,
}

// Nothing is kept of the rows of revoked certificates.
#[derive(Clone, Copy)]
struct Revoked;

impl<'a> Row<'a, CrlFault> for Revoked {
    ghost Known = { Unit {0} };

    ghost view = { λ _. tt };

    ghost step = { row_step };

    // Reads the row of a revoked certificate: its serial, and when it was revoked.
    fn take(self, row: &Element<'a>) -> Result<Revoked, CrlFault> {
        if row.tag != tag::SEQUENCE {
            return Err(CrlFault::own(Rule::Structure, row.place));
        }
        let (_, rest) = serial::<CrlFault>(row.content)?;
        let (_, rest) = time::<CrlFault>(rest)?;
        end::<CrlFault>(rest)?;
        Ok(self)
    }
}

// Reads the rows of revoked certificates, of which there is at least one.
fn read_revoked(content: Part<'_>) -> Result<(), CrlFault>
    ensures { reported crl_report result ≡ revoked_of (octets_of content.entry) }
{
    if content.octets.is_empty() {
        return Err(CrlFault::own(Rule::Structure, content.place));
    }
    read_rows::<CrlFault, Revoked>(content, Revoked)?;
    Ok(())
}

// What was found of the two extensions.
#[derive(Clone, Copy)]
struct Extensions<'a> {
    key: Option<Part<'a>>,
    number: Option<Part<'a>>,
}

// The issuer's key id, from what follows the OID in its extension.
fn read_key<'a>(rest: Part<'a>) -> Result<Part<'a>, CrlFault>
    ensures { told_by crl_report octets_of result ≡ key_of (octets_of rest.entry) }
{
    let (value, rest) = value_octets::<CrlFault>(rest, false)?;
    let Some(key) = key_identifier(value.content, b"\x30\x16\x80\x14") else {
        return Err(CrlFault::own(Rule::Value, value.place));
    };
    end::<CrlFault>(rest)?;
    Ok(key)
}

// The number of the list, from what follows the OID in its extension.
fn read_number<'a>(rest: Part<'a>) -> Result<Part<'a>, CrlFault>
    ensures { told_by crl_report octets_of result ≡ number_of (octets_of rest.entry) }
{
    let (value, rest) = value_octets::<CrlFault>(rest, false)?;
    let (number, inner) = number20::<CrlFault>(value.content)?;
    end::<CrlFault>(inner)?;
    end::<CrlFault>(rest)?;
    Ok(number)
}

impl<'a> Row<'a, CrlFault> for Extensions<'a> {
    ghost Known = { Found };

    ghost view = { found_in };

    ghost step = { extension_step };

    // Reads an extension: the issuer's key id or the list's number, each once.
    fn take(self, extension: &Element<'a>) -> Result<Extensions<'a>, CrlFault> {
        let Extensions { key, number } = self;
        let (oid, rest) = open::<CrlFault>(extension)?;
        if oid.content.octets == b"\x55\x1d\x23".as_slice() && key.is_none() {
            return Ok(Extensions {
                key: Some(read_key(rest)?),
                number,
            });
        }
        if oid.content.octets == b"\x55\x1d\x14".as_slice() && number.is_none() {
            return Ok(Extensions {
                key,
                number: Some(read_number(rest)?),
            });
        }
        Err(CrlFault::own(Rule::Structure, extension.place))
    }
}

// The issuer's key id and the list's number, both of which have to stand.
fn read_extensions<'a>(content: Part<'a>) -> Result<(Part<'a>, Part<'a>), CrlFault>
    ensures { told_by crl_report both_of result ≡ extensions_of (octets_of content.entry) }
{
    let none = Extensions {
        key: None,
        number: None,
    };
    let found = read_rows::<CrlFault, Extensions<'a>>(content, none)?;
    match (found.key, found.number) {
        (Some(key), Some(number)) => Ok((key, number)),
        _ => Err(CrlFault::own(Rule::Structure, content.end())),
    }
}

// The front of the signed part.
#[derive(Clone, Copy)]
struct Head<'a> {
    algorithm: Part<'a>,
    issuer: Part<'a>,
    from: Moment,
    until: Moment,
}

// The front of the signed part, up to its dates, and the octets after it.
fn read_front<'a>(content: Part<'a>) -> Result<(Head<'a>, Part<'a>), CrlFault>
    ensures value { told_by crl_report front_in result ≡ front_of (octets_of content.entry) }
{
    let rest = constant_integer::<CrlFault>(content, 1)?;
    let (algorithm, rest) = sequence::<CrlFault>(rest)?;
    let (issuer, rest) = sequence::<CrlFault>(rest)?;
    let (from, rest) = time::<CrlFault>(rest)?;
    let (until, rest) = time::<CrlFault>(rest)?;
    let head = Head {
        algorithm,
        issuer,
        from,
        until,
    };
    Ok((head, rest))
}

// The rows of revoked certificates, if they stand, the element with the extensions, and the octets after it.
fn read_tail<'a>(rest: Part<'a>) -> Result<(Option<Part<'a>>, Element<'a>, Part<'a>), CrlFault>
    ensures value { told_by crl_report tail_in result ≡ tail_of (octets_of rest.entry) }
{
    let (element, rest) = next::<CrlFault>(rest)?;
    if element.tag == tag::SEQUENCE {
        read_revoked(element.content)?;
        let (extensions, rest) = expect::<CrlFault>(rest, tag::EXPLICIT_0)?;
        return Ok((Some(element.content), extensions, rest));
    }
    if element.tag != tag::EXPLICIT_0 {
        return Err(CrlFault::own(Rule::Structure, element.place));
    }
    Ok((None, element, rest))
}

// The issuer's key id and the list's number, from the content of the element with the extensions.
fn read_wrapped<'a>(content: Part<'a>) -> Result<(Part<'a>, Part<'a>), CrlFault>
    ensures { told_by crl_report both_of result ≡ wrapped_of (octets_of content.entry) }
{
    let (row, rest) = expect::<CrlFault>(content, tag::SEQUENCE)?;
    let found = read_extensions(row.content)?;
    end::<CrlFault>(rest)?;
    Ok(found)
}

// What the signed part says.
#[derive(Clone, Copy)]
struct Body<'a> {
    head: Head<'a>,
    revoked: Option<Part<'a>>,
    key: Part<'a>,
    number: Part<'a>,
}

// Reads the signed part.
fn read_body<'a>(content: Part<'a>) -> Result<Body<'a>, CrlFault>
    ensures { told_by crl_report body_in result ≡ body_of (octets_of content.entry) }
{
    let (head, rest) = read_front(content)?;
    let (revoked, extensions, rest) = read_tail(rest)?;
    let (key, number) = read_wrapped(extensions.content)?;
    end::<CrlFault>(rest)?;
    Ok(Body {
        head,
        revoked,
        key,
        number,
    })
}

// Reads what the outer SEQUENCE of a list holds: the signed part, the algorithm again and the signature.
fn read_inside<'a>(content: Part<'a>) -> Result<Crl<'a>, CrlFault>
    ensures { told_by crl_report value_in result ≡ inside_of (octets_of content.entry) }
{
    let (signed, body, rest) = whole::<CrlFault>(content, tag::SEQUENCE)?;
    let body = read_body(body.content)?;
    let signature = seal::<CrlFault>(rest, body.head.algorithm.octets)?;
    Ok(Crl {
        signed,
        issuer: body.head.issuer,
        from: body.head.from,
        until: body.head.until,
        revoked: body.revoked,
        key: body.key,
        number: body.number,
        signature,
    })
}

// Reads a whole file as a revocation list.
pub fn read_crl<'a>(file: &'a [u8]) -> Result<Crl<'a>, CrlFault>
    ensures { told_by crl_report value_in result ≡ crl_of (file_of file.now) }
{
    let (list, rest) = expect::<CrlFault>(Part::whole(file), tag::SEQUENCE)?;
    let value = read_inside(list.content)?;
    end::<CrlFault>(rest)?;
    Ok(value)
}
