// The subject information access of an authority's certificate: where it publishes (RFC 6487).
//
// `read_access` reads the value of the extension: the folder of the publication point and the name of its manifest, which stands in
// that folder, as parts of the file, or the first fault in its place. Other descriptions are passed over. It rests on `x509` and `layout`
// for the layout and on `names` for what a folder and a manifest's name are.
#![tactic(auto)]

ghost use Rattle.std.specs.Prelude.{◌≡◌, ◌&&◌};
ghost use Rattle.std.specs.Option.{option_map};
ghost use Rattle.file_faults.specs.Reports.{certificate_report};
ghost use Rattle.element.specs.Reading.{octets_of};
ghost use Rattle.layout.specs.Expecting.{told_by};
ghost use Rattle.names.specs.Tests.{is_folder, is_manifest_name};
ghost use Rattle.access.specs.Access.{Names, names_in, agrees, stands_in, folder_in, manifest_in, other_in, described, descriptions_of, access_of, access_in};

use content::tag;
use element::{Element, Part};
use fault::Rule;
use file_faults::CertificateFault;
use layout::{LayerFault, Row, end, expect, read_rows};
use names::{is_folder, is_in_folder, is_manifest_name};
use x509::open;

// Where an authority publishes: the folder, and the name of the manifest.
#[derive(Clone, Copy)]
pub struct Access<'a> {
    pub folder: Part<'a>,
    pub manifest: Part<'a>,
}

// What was found of the two names.
#[derive(Clone, Copy)]
struct Found<'a> {
    folder: Option<Part<'a>>,
    manifest: Option<Part<'a>>,
}

// Whether octets are a folder, and that of the manifest where that is known.
fn folder_test(octets: &[u8], manifest: Option<Part<'_>>) -> bool
    ensures { result ≡ (is_folder octets.now && agrees octets.now (option_map octets_of manifest.entry)) }
{
    is_folder(octets) && manifest.is_none_or(|name| is_in_folder(name.octets, octets))
}

// Whether octets are a manifest's name, in the folder where that is known.
fn manifest_test(octets: &[u8], folder: Option<Part<'_>>) -> bool
    ensures { result ≡ (is_manifest_name octets.now && stands_in octets.now (option_map octets_of folder.entry)) }
{
    is_manifest_name(octets) && folder.is_none_or(|part| is_in_folder(octets, part.octets))
}

// The folder, from what follows the OID in its description.
fn read_folder<'a>(rest: Part<'a>, manifest: Option<Part<'_>>) -> Result<Part<'a>, CertificateFault>
    ensures { told_by certificate_report octets_of result ≡ folder_in (option_map octets_of manifest.entry) (octets_of rest.entry) }
{
    let (name, rest) = expect::<CertificateFault>(rest, tag::URI)?;
    if !folder_test(name.content.octets, manifest) {
        return Err(CertificateFault::own(Rule::Value, name.place));
    }
    end::<CertificateFault>(rest)?;
    Ok(name.content)
}

// The manifest's name, from what follows the OID in its description.
fn read_manifest<'a>(rest: Part<'a>, folder: Option<Part<'_>>) -> Result<Part<'a>, CertificateFault>
    ensures { told_by certificate_report octets_of result ≡ manifest_in (option_map octets_of folder.entry) (octets_of rest.entry) }
{
    let (name, rest) = expect::<CertificateFault>(rest, tag::URI)?;
    if !manifest_test(name.content.octets, folder) {
        return Err(CertificateFault::own(Rule::Value, name.place));
    }
    end::<CertificateFault>(rest)?;
    Ok(name.content)
}

// Another name, which is passed over.
fn pass_over<'a>(rest: Part<'a>) -> Result<Part<'a>, CertificateFault>
    ensures { told_by certificate_report octets_of result ≡ other_in (octets_of rest.entry) }
{
    let (name, rest) = expect::<CertificateFault>(rest, tag::URI)?;
    end::<CertificateFault>(rest)?;
    Ok(name.content)
}

impl<'a> Row<'a, CertificateFault> for Found<'a> {
    ghost Known = { Names };

    ghost view = { names_in };

    ghost step = { described };

    // Reads an access description: the folder or the manifest, each once, or another one.
    fn take(self, description: &Element<'a>) -> Result<Found<'a>, CertificateFault> {
        let Found { folder, manifest } = self;
        let (oid, rest) = open::<CertificateFault>(description)?;
        if oid.content.octets == b"\x2b\x06\x01\x05\x05\x07\x30\x05".as_slice() {
            if folder.is_some() {
                return Err(CertificateFault::own(Rule::Structure, description.place));
            }
            return Ok(Found {
                folder: Some(read_folder(rest, manifest)?),
                manifest,
            });
        }
        if oid.content.octets == b"\x2b\x06\x01\x05\x05\x07\x30\x0a".as_slice() {
            if manifest.is_some() {
                return Err(CertificateFault::own(Rule::Structure, description.place));
            }
            return Ok(Found {
                folder,
                manifest: Some(read_manifest(rest, folder)?),
            });
        }
        pass_over(rest)?;
        Ok(Found { folder, manifest })
    }
}

// The folder and the manifest's name, both of which have to stand.
fn read_descriptions<'a>(content: Part<'a>) -> Result<Access<'a>, CertificateFault>
    ensures { told_by certificate_report access_in result ≡ descriptions_of (octets_of content.entry) }
{
    let none = Found {
        folder: None,
        manifest: None,
    };
    let found = read_rows::<CertificateFault, Found<'a>>(content, none)?;
    match (found.folder, found.manifest) {
        (Some(folder), Some(manifest)) => Ok(Access { folder, manifest }),
        _ => Err(CertificateFault::own(Rule::Structure, content.end())),
    }
}

// Reads the value of the extension: one SEQUENCE of descriptions, and nothing after it.
pub fn read_access<'a>(value: Part<'a>) -> Result<Access<'a>, CertificateFault>
    ensures { told_by certificate_report access_in result ≡ access_of (octets_of value.entry) }
{
    let (row, rest) = expect::<CertificateFault>(value, tag::SEQUENCE)?;
    let access = read_descriptions(row.content)?;
    end::<CertificateFault>(rest)?;
    Ok(access)
}
