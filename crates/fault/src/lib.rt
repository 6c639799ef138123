// What the calls of this validator answer when they refuse.
//
// A `Rule` is what was broken, and `Rule::number` is the one place where each has its number. Reading
// octets answers a fault: the rule, the place in the file and the innermost layer that saw it, which
// together are a `Report`. Each layer has a fault type of its own; a layer takes over the faults of the
// layers below it by `From` and `?`, and every such conversion promises that the report stays the same.
//
// To add a layer: declare its fault type with a variant for each fault type below and one of its own,
// give it a report in `specs/Faults.antt`, an `impl Fault` and an `impl From` for each layer below,
// as `SetFault` has them (and an `impl LayerFault` in the crate `layout`).
#![tactic(auto)]

ghost use Rattle.std.specs.Prelude.{◌≡◌};
ghost use Rattle.fault.specs.declared.Report.{Report};
ghost use Rattle.fault.specs.Faults.{element_report, set_report};
ghost use Rattle.fault.specs.Numbers.{number_of, word_of};

use std::fmt;

// A rule that a call can find broken.
#[derive(Clone, Copy, PartialEq, Eq, Debug)]
pub enum Rule {
    // an element breaks its form
    Form,
    // a wrong tag, or a missing or surplus element or extension
    Structure,
    // a value that its rule forbids
    Value,
    // the entries of a resource list are out of order or touch
    Order,
    // an entry past the 256th, or an attribute past 256 octets
    Count,
    // an unlawful name
    Name,
    // an unlawful length of a file or a key
    Length,
    // a new name where the table of files or of anchors is full
    Full,
    // the other files and this one exceed the bank
    Bank,
    // no such name
    Unknown,
    // not a moment
    Moment,
    // more payloads than a list holds
    Payloads,
    // no sweep was accepted yet
    Unswept,
    // a prefix too long for its family, or with bits set past its length
    Prefix,
    // a text or a set longer than its area
    Area,
}

impl Rule {
    // The number by which logs and messages name the rule.
    pub fn number(self) -> u8
        ensures { result ≡ number_of self }
    {
        match self {
            Rule::Form => 1,
            Rule::Structure => 2,
            Rule::Value => 3,
            Rule::Order => 4,
            Rule::Count => 5,
            Rule::Name => 6,
            Rule::Length => 7,
            Rule::Full => 8,
            Rule::Bank => 9,
            Rule::Unknown => 10,
            Rule::Moment => 11,
            Rule::Payloads => 12,
            Rule::Unswept => 13,
            Rule::Prefix => 14,
            Rule::Area => 15,
        }
    }
}

// A layer of reading, from the single element up to whole files.
#[derive(Clone, Copy, PartialEq, Eq)]
pub enum Layer {
    Element,
    Set,
    Certificate,
    Crl,
    Shell,
    Content,
}

impl Layer {
    // The word by which answers name the layer.
    pub fn word(self) -> &'static str
        ensures { result.now ≡ word_of self }
    {
        match self {
            Layer::Element => "element",
            Layer::Set => "set",
            Layer::Certificate => "certificate",
            Layer::Crl => "crl",
            Layer::Shell => "shell",
            Layer::Content => "content",
        }
    }
}

// What every fault of reading says in the end: the rule, the offset in the file, and the innermost layer.
#[derive(Clone, Copy)]
pub struct Report {
    pub rule: Rule,
    pub place: usize,
    pub layer: Layer,
}

// A fault of some layer, by the report that it makes.
pub trait Fault {
    ghost told: { Self → Report };

    fn report(&self) -> Report
        ensures { result ≡ told self.now };
}

// The way in which octets are no element. All are breaches of one rule, the form of an element, and
// the word tells the reader of a message which part of it.
#[derive(Clone, Copy, PartialEq, Eq)]
pub enum Breach {
    // no octet stands there
    NoTag,
    // the octets end inside the length
    LengthCut,
    // the length begins with an octet that begins none of its forms
    LengthForm,
    // the length has a shorter form
    LengthNotShortest,
    // the octets end inside the content
    ContentCut,
    Boolean,
    Integer,
    BitString,
    Null,
    Oid,
    Ia5String,
    Time,
}

impl Breach {
    // The rule in words, for whoever reads a message.
    fn message(&self) -> &'static str {
        match self {
            Breach::NoTag => "an element begins with a tag, and no octet stands here",
            Breach::LengthCut => "the octets end inside the length",
            Breach::LengthForm =>
                "a length begins with an octet below 80, with 81 or with 82 (hexadecimal)",
            Breach::LengthNotShortest => "a length is written in its shortest form",
            Breach::ContentCut => "the octets end inside the content",
            Breach::Boolean => "a BOOLEAN is one octet, 00 or FF",
            Breach::Integer =>
                "an INTEGER has at least one octet, and none in front that only repeats the sign",
            Breach::BitString =>
                "a BIT STRING begins with its count of unused bits, 0 to 7, and these bits are zero",
            Breach::Null => "a NULL is empty",
            Breach::Oid =>
                "an OBJECT IDENTIFIER ends with an octet below 80, and no number in it begins with 80",
            Breach::Ia5String => "each octet of an IA5String is below 80",
            Breach::Time =>
                "a time is YYMMDDhhmmssZ (UTCTime) or YYYYMMDDhhmmssZ (GeneralizedTime) of a true date",
        }
    }
}

impl fmt::Display for Breach {
    fn fmt<W: fmt::Write>(&self, f: &mut fmt::Formatter<W>) -> fmt::Result {
        f.write_str(self.message())
    }
}

// Octets that are no element, with the offset of the tag.
#[derive(Clone, Copy)]
pub struct ElementFault {
    pub breach: Breach,
    pub place: usize,
}

impl Fault for ElementFault {
    ghost told = { element_report };

    fn report(&self) -> Report {
        Report {
            rule: Rule::Form,
            place: self.place,
            layer: Layer::Element,
        }
    }
}

// A fault in a set of resources: one of an element in it, or a rule of its own.
#[derive(Clone, Copy)]
pub enum SetFault {
    Element(ElementFault),
    Own { rule: Rule, place: usize },
}

impl Fault for SetFault {
    ghost told = { set_report };

    fn report(&self) -> Report {
        match self {
            SetFault::Element(e) => e.report(),
            SetFault::Own { rule, place } => Report {
                rule: *rule,
                place: *place,
                layer: Layer::Set,
            },
        }
    }
}

impl From<ElementFault> for SetFault {
    ghost from_gives = { λ e r. set_report r ≡ element_report e };

    fn from(e: ElementFault) -> SetFault {
        SetFault::Element(e)
    }
}
