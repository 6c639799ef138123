// The words of a line of a log, and the arguments that they write.
//
// `Words` goes through the words of a line, which a single space separates, one by one: the words, joined by single spaces, are the line. Each further
// method reads the next word or two as an argument of a call, and else says why they are none: octets by `hex:` and digits or by `@` and a path, an
// oracle, a kind of points, a list of ranges of a kind, the kind of a value that is read, and at the end the room of an area, which may be left out.
// Digits are even in number and each is one, a list reads as a list of its kind, and a number fits 64 bits, so that what is taken here can be decoded.
// Each argument is what specs/Arguments.antt defines, and it is taken exactly where the words are its text. What is read is lent from the line, and
// nothing is allocated. It rests on `pieces` for the words, on `hex_text` for digits, on `numeral` for numbers and on `list_text` for lists.
#![tactic(auto)]

ghost use Rattle.std.specs.Prelude.{◌≡◌, true, IfOk};
ghost use Rattle.std.specs.Option.{option_map};
ghost use Rattle.std.specs.List.{AllByRecursion};
ghost use Rattle.pieces.specs.Marks.{lacking};
ghost use Rattle.arguments.specs.Words.{words_of, spaced, take_word, ended};
ghost use Rattle.arguments.specs.Arguments.{stripped, digits_of, path_of, octets_of, argument_of, oracle_of, is_list_of, kind_of, form_of, list_word_of, area_of, Lawful, LawfulSource, LawfulArea};
ghost use Rattle.arguments.specs.Views.{left, said, sourced, beside, seen};

use list_text::is_list;
use numeral::read_number;
use pieces::Pieces;
use points::{Asn, V4, V6};
use std::fmt;

// Which calls a log may have: those on elements and oracles, or those on lists of resources too.
#[derive(Clone, Copy, PartialEq, Eq, Debug)]
pub enum Known {
    Oracles,
    Lists,
}

// Why a line is no call. Of an unknown call it says which are known.
#[derive(Clone, Copy, PartialEq, Eq, Debug)]
pub enum Why {
    CarriageReturn,
    EmptyWord,
    UnknownCall(Known),
    MissingWord,
    ExtraWord,
    NoOctets,
    NoOracle,
    NoKind,
    NoForm,
    NoList,
    NoNumber,
    OddDigits,
    NoDigit,
    EmptyPath,
    NoFile,
}

impl Why {
    // What is wrong, and what to do.
    fn message(&self) -> &'static str {
        match self {
            Why::CarriageReturn => "a carriage return: end each line with a newline alone",
            Why::EmptyWord =>
                "a space too many: write one space between words, and none at either end",
            Why::UnknownCall(Known::Oracles) =>
                "an unknown call: the first word must name one, as element, digest or verdict",
            Why::UnknownCall(Known::Lists) =>
                "an unknown call: the first word must name one, as element, digest, verdict, join, write or read",
            Why::MissingWord => "a word is missing: write each argument of the call",
            Why::ExtraWord => "a word too many: write only the arguments of the call",
            Why::NoOctets => "no octets: write hex: and digits, or @ and a path",
            Why::NoOracle => "no oracle: write scheme, or book and the octets of a verdict book",
            Why::NoKind => "no kind of points: write v4, v6 or as",
            Why::NoForm => "no kind of value: write addresses or asn",
            Why::NoList =>
                "no list: write FIRST-LAST ranges with a comma between each two, or none",
            Why::NoNumber =>
                "no number: write it in decimal, without zeros in front, and below 18446744073709551616",
            Why::OddDigits => "an odd number of digits: write two digits for each octet",
            Why::NoDigit =>
                "a character that is no hexadecimal digit: write 0 to 9, a to f or A to F",
            Why::EmptyPath => "no path: write the path of a file after the @",
            Why::NoFile => "the file cannot be read: check its path and its permissions",
        }
    }
}

impl fmt::Display for Why {
    fn fmt<W: fmt::Write>(&self, f: &mut fmt::Formatter<W>) -> fmt::Result {
        f.write_str(self.message())
    }
}

// The words of a line that are still to be read.
#[derive(Clone, Copy)]
pub struct Words<'a> {
    pieces: Pieces<'a>,
}

impl<'a> Words<'a> {
    // All the words of a line.
    pub fn of(line: &'a [u8]) -> Words<'a>
        ensures value { left result ≡ words_of line.now }
        ensures joined { spaced (words_of line.now) ≡ line.now }
        ensures spaceless { AllByRecursion (λ w. lacking 32 w ≡ true) (words_of line.now) }
    {
        Words {
            pieces: Pieces::of(line, b' '),
        }
    }

    // The next word.
    pub fn next(&mut self) -> Result<&'a [u8], Why>
        ensures { beside (λ x. x.now) result (left self.new) ≡ take_word (left self.old) }
    {
        match self.pieces.next() {
            None => Err(Why::MissingWord),
            Some([]) => Err(Why::EmptyWord),
            Some(word) => Ok(word),
        }
    }

    // The next word, as octets.
    pub fn octets(&mut self) -> Result<Octets<'a>, Why>
        ensures value { beside said result (left self.new) ≡ argument_of (left self.old) }
        ensures lawful { IfOk result (λ o. Lawful (said o)) }
    {
        read_octets(self.next()?)
    }

    // The next word or two, as an oracle.
    pub fn oracle(&mut self) -> Result<OracleWord<'a>, Why>
        ensures value { beside sourced result (left self.new) ≡ oracle_of (left self.old) }
        ensures lawful { IfOk result (λ o. LawfulSource (sourced o)) }
    {
        let word = self.next()?;
        if word == b"scheme".as_slice() {
            return Ok(OracleWord::Scheme);
        }
        if word == b"book".as_slice() {
            return Ok(OracleWord::Book(self.octets()?));
        }
        Err(Why::NoOracle)
    }

    // The next word, as a kind of points.
    pub fn kind(&mut self) -> Result<Kind, Why>
        ensures { beside (λ k. k) result (left self.new) ≡ kind_of (left self.old) }
    {
        match self.next()? {
            b"v4" => Ok(Kind::V4),
            b"v6" => Ok(Kind::V6),
            b"as" => Ok(Kind::Asn),
            _ => Err(Why::NoKind),
        }
    }

    // The next word, as the kind of a value that is read.
    pub fn form(&mut self) -> Result<Form, Why>
        ensures { beside (λ f. f) result (left self.new) ≡ form_of (left self.old) }
    {
        let word = self.next()?;
        if word == b"addresses".as_slice() {
            return Ok(Form::Addresses);
        }
        if word == b"asn".as_slice() {
            return Ok(Form::Asn);
        }
        Err(Why::NoForm)
    }

    // The next word, which is a list of the kind.
    pub fn list(&mut self, kind: Kind) -> Result<&'a [u8], Why>
        ensures value { beside (λ x. x.now) result (left self.new) ≡ list_word_of kind (left self.old) }
        ensures lawful { IfOk result (λ w. is_list_of kind w.now ≡ true) }
    {
        let word = self.next()?;
        if is_of(kind, word) {
            return Ok(word);
        }
        Err(Why::NoList)
    }

    // The last word, if there is one, as the room of an area.
    pub fn area(&mut self) -> Result<Option<u64>, Why>
        ensures value { beside (λ a. a) result (left self.new) ≡ area_of (left self.old) }
        ensures lawful { IfOk result (λ a. LawfulArea a) }
    {
        let mut pieces = self.pieces;
        let Some(word) = pieces.next() else {
            return Ok(None);
        };
        self.pieces = pieces;
        if let [] = word {
            return Err(Why::EmptyWord);
        }
        Ok(Some(read_number(word, u64::MAX).ok_or(Why::NoNumber)?))
    }

    // That no word is left.
    pub fn end(self) -> Result<(), Why>
        ensures { result ≡ ended (left self.entry) }
    {
        let mut pieces = self.pieces;
        match pieces.next() {
            None => Ok(()),
            Some([]) => Err(Why::EmptyWord),
            Some(_) => Err(Why::ExtraWord),
        }
    }
}

// Octets as a line writes them: by their digits, or by the path of a file that holds them.
#[derive(Clone, Copy)]
pub enum Octets<'a> {
    Digits(&'a [u8]),
    Path(&'a [u8]),
}

// An oracle as a line names it: the test scheme, or the verdict book of some octets.
#[derive(Clone, Copy)]
pub enum OracleWord<'a> {
    Scheme,
    Book(Octets<'a>),
}

// What follows the prefix, where the word begins with it.
fn after<'a>(word: &'a [u8], prefix: &[u8]) -> Option<&'a [u8]>
    ensures { option_map (λ x. x.now) result ≡ stripped prefix.now word.now }
{
    word.strip_prefix(prefix)
}

// Digits that write octets: even in number, and each one a digit.
fn read_digits<'a>(digits: &'a [u8]) -> Result<Octets<'a>, Why>
    ensures value { seen said result ≡ digits_of digits.now }
    ensures lawful { IfOk result (λ o. Lawful (said o)) }
{
    if digits.len() % 2 != 0 {
        return Err(Why::OddDigits);
    }
    if !hex_text::all_digits(digits) {
        return Err(Why::NoDigit);
    }
    Ok(Octets::Digits(digits))
}

// A path that is not empty.
fn read_path<'a>(path: &'a [u8]) -> Result<Octets<'a>, Why>
    ensures value { seen said result ≡ path_of path.now }
    ensures lawful { IfOk result (λ o. Lawful (said o)) }
{
    if path.is_empty() {
        return Err(Why::EmptyPath);
    }
    Ok(Octets::Path(path))
}

// The octets that a word writes.
pub fn read_octets<'a>(word: &'a [u8]) -> Result<Octets<'a>, Why>
    ensures value { seen said result ≡ octets_of word.now }
    ensures lawful { IfOk result (λ o. Lawful (said o)) }
{
    if let Some(digits) = after(word, b"hex:") {
        return read_digits(digits);
    }
    if let Some(path) = after(word, b"@") {
        return read_path(path);
    }
    Err(Why::NoOctets)
}

// A kind of points: IPv4 addresses, IPv6 addresses or AS numbers.
#[derive(Clone, Copy, PartialEq, Eq, Debug)]
pub enum Kind {
    V4,
    V6,
    Asn,
}

// The kind of a value that is read: the addresses or the AS numbers of a certificate.
#[derive(Clone, Copy, PartialEq, Eq, Debug)]
pub enum Form {
    Addresses,
    Asn,
}

// Whether a word is a list of the kind.
fn is_of(kind: Kind, word: &[u8]) -> bool
    ensures { result ≡ is_list_of kind word.now }
{
    match kind {
        Kind::V4 => is_list::<V4>(word),
        Kind::V6 => is_list::<V6>(word),
        Kind::Asn => is_list::<Asn>(word),
    }
}
