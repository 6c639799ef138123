// Names of files, and of the folders that they stand in.
//
// A name has 1 to 128 visible octets with a "/" that is not the last of them; its folder runs through its last "/". A bare
// name stands after a folder, so it has no "/". The calls answer whether octets are such, or how far their folder runs, for
// all octets; none asks anything of its caller, and all rest on the octets alone.
#![tactic(auto)]

ghost use Rattle.std.specs.Prelude.{◌≡◌, true, Decides, MatchOption};
ghost use Rattle.std.specs.Str.{bytes_eq};
ghost use Rattle.names.specs.declared.Ending.{Ending as OneEnding};
ghost use Rattle.names.specs.Tests.{is_of, every, folder_size, folder_of, base_of, is_name, is_folder, is_bare, ends_with, text_of, ending_of, is_manifest_name};
ghost use Rattle.names.specs.Names.{FolderEnd, Name, Folder, Bare, EndsWith, ManifestName, FolderOfBare};

// The endings of names that say how a file is read.
#[derive(Clone, Copy, PartialEq, Eq)]
pub enum Ending {
    // a certificate
    Cer,
    // a revocation list
    Crl,
    // a manifest
    Mft,
    // a route origin authorisation
    Roa,
}

// A class of octets.
#[derive(Clone, Copy)]
enum Class {
    // from 21 to 7E
    Visible,
    // a letter, a digit, "-" or "_"
    Stem,
    // a letter a to z
    Lower,
}

// Whether an octet is of a class.
fn is_of(class: Class, octet: u8) -> bool
    ensures { result ≡ is_of class octet }
{
    match class {
        Class::Visible => matches!(octet, 0x21..=0x7e),
        Class::Stem => matches!(octet, b'a'..=b'z' | b'A'..=b'Z' | b'0'..=b'9' | b'-' | b'_'),
        Class::Lower => matches!(octet, b'a'..=b'z'),
    }
}

// Whether every octet is of a class.
fn all_of(class: Class, octets: &[u8]) -> bool
    ensures { result ≡ every (is_of class) octets.now }
{
    octets.iter().all(|c| is_of(class, *c))
}

// How many octets of a name its folder takes, through the last "/": 0 where there is none.
pub fn folder_len(name: &[u8]) -> usize
    ensures value { result ≡ folder_size name.now }
    ensures relation { FolderEnd name.now result }
{
    match name.iter().rposition(|c| *c == b'/') {
        Some(last) => last + 1,
        None => 0,
    }
}

// Whether octets are a name: 1 to 128 from 21 to 7E, with a "/" and not ending with it.
#[tactic(auto, using(crate::proofs::Tested::name_decides))]
pub fn is_name(octets: &[u8]) -> bool
    ensures value { result ≡ is_name octets.now }
    ensures relation { Decides result (Name octets.now) }
{
    if octets.len() > 128 || !all_of(Class::Visible, octets) {
        return false;
    }
    let size = folder_len(octets);
    0 < size && size < octets.len()
}

// Whether octets are a folder: 1 to 127 from 21 to 7E, ending with "/".
#[tactic(auto, using(crate::proofs::Tested::folder_decides))]
pub fn is_folder(octets: &[u8]) -> bool
    ensures value { result ≡ is_folder octets.now }
    ensures relation { Decides result (Folder octets.now) }
{
    if octets.is_empty() || octets.len() > 127 {
        return false;
    }
    all_of(Class::Visible, octets) && octets[octets.len() - 1] == b'/'
}

// The folder of a name, through its last "/".
fn folder<'a>(name: &'a [u8]) -> &'a [u8]
    ensures { result.now ≡ folder_of name.now }
{
    &name[..folder_len(name)]
}

// What stands after the folder of a name.
fn base<'a>(name: &'a [u8]) -> &'a [u8]
    ensures { result.now ≡ base_of name.now }
{
    &name[folder_len(name)..]
}

// Whether octets are a bare name: letters, digits, "-" or "_", at least one, then "." and three letters a to z.
#[tactic(auto, using(crate::proofs::Bare::bare_decides))]
pub fn is_bare(octets: &[u8]) -> bool
    ensures value { result ≡ is_bare octets.now }
    ensures relation { Decides result (Bare octets.now) }
{
    if octets.len() < 5 {
        return false;
    }
    let dot = octets.len() - 4;
    all_of(Class::Stem, &octets[..dot])
        && octets[dot] == b'.'
        && all_of(Class::Lower, &octets[dot + 1..])
}

// Whether octets end with others.
fn ends_with(octets: &[u8], text: &[u8]) -> bool
    ensures { result ≡ ends_with octets.now text.now }
{
    octets.ends_with(text)
}

// The ending among the four that octets have. It stands apart from `ending_of`, whose relation the check does not
// find beside the tests (tried: one function with slice patterns).
fn find_ending(octets: &[u8]) -> Option<Ending>
    ensures { result ≡ ending_of octets.now }
{
    if ends_with(octets, b".cer") {
        return Some(Ending::Cer);
    }
    if ends_with(octets, b".crl") {
        return Some(Ending::Crl);
    }
    if ends_with(octets, b".mft") {
        return Some(Ending::Mft);
    }
    if ends_with(octets, b".roa") {
        return Some(Ending::Roa);
    }
    None
}

// The ending that says how a file of this name is read, by the last four octets: none where the name has another.
pub fn ending_of(name: &[u8]) -> Option<Ending>
    ensures value { result ≡ ending_of name.now }
    ensures relation { MatchOption result ((e : OneEnding) → EndsWith name.now (text_of e) → ⊥) (λ e. EndsWith name.now (text_of e)) }
{
    find_ending(name)
}

// Whether octets are the name of a manifest: a name that is a folder and a bare name that ends .mft.
#[tactic(auto, using(crate::proofs::Bare::manifest_decides))]
pub fn is_manifest_name(octets: &[u8]) -> bool
    ensures value { result ≡ is_manifest_name octets.now }
    ensures relation { Decides result (ManifestName octets.now) }
{
    if !is_name(octets) {
        return false;
    }
    let own = base(octets);
    is_bare(own) && ends_with(own, b".mft")
}

// Whether the folder of a name is this one.
pub fn is_in_folder(name: &[u8], given: &[u8]) -> bool
    ensures value { result ≡ bytes_eq (folder_of name.now) given.now }
    ensures relation { Decides result (folder_of name.now ≡ given.now) }
{
    folder(name) == given
}

// That the folder of a folder followed by a bare name is that folder.
pub fn bare_names_keep_folders() -> bool
    ensures shown { result ≡ true }
    ensures theorem { FolderOfBare }
{
    let shown = true;
    shown
}
