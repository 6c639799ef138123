// What a layout wants of the elements in a content: one of a given tag next, and nothing after the last.
//
// `next`, `expect` and `end` serve every layer: they are generic over the layer's own fault type, whose faults say
// that an element is missing, has a wrong tag or is one too many. A missing element is reported at the end of the
// content that lacks it, every other fault at the offending tag. `read_rows` goes over the elements of a content, and
// leaves to a `Row` what is known of them. They rest on `element` for reading.
#![tactic(auto)]

ghost use Rattle.std.specs.Prelude.{◌≡◌, Result};
ghost use Rattle.fault.specs.declared.Rule.{Rule};
ghost use Rattle.fault.specs.declared.Layer.{Layer};
ghost use Rattle.fault.specs.declared.Report.{Report};
ghost use Rattle.fault.specs.Faults.{element_report, set_report};
ghost use Rattle.fault.specs.declared.Layer.TheVariants.{Set};
ghost use Rattle.element.specs.Reading.{Seen, seen, octets_of};
ghost use Rattle.layout.specs.Expecting.{part_of, next_of, expect_of, end_of, told_by};
ghost use Rattle.layout.specs.Rows.{rows_of};

use element::{Element, Part, read};
use fault::{ElementFault, Rule, SetFault};

// The fault type of a layer: what it reports, and how its own faults and those of an element are made.
pub trait LayerFault: Sized {
    ghost told: { Self → Report };

    ghost layer: { Layer };

    // the fault of an element, with its report as it was
    fn of_element(e: ElementFault) -> Self
        ensures { told result ≡ element_report e };

    // a broken rule of the layer's own
    fn own(rule: Rule, place: usize) -> Self
        ensures { told result ≡ record { rule = rule; place = place; layer = layer } };
}

// The next element of a content, of any tag, and the octets after it.
pub fn next<'a, F: LayerFault>(input: Part<'a>) -> Result<(Element<'a>, Part<'a>), F>
    ensures value { told_by F.told part_of result ≡ next_of F.layer (octets_of input.entry) }
{
    let end = input.place;
    if input.octets.is_empty() {
        return Err(F::own(Rule::Structure, end));
    }
    match read(input) {
        Err(fault) => Err(F::of_element(fault)),
        Ok(found) => Ok(found),
    }
}

// The next element of a content, which has to have this tag, and the octets after it.
pub fn expect<'a, F: LayerFault>(input: Part<'a>, tag: u8) -> Result<(Element<'a>, Part<'a>), F>
    ensures value { told_by F.told part_of result ≡ expect_of F.layer tag (octets_of input.entry) }
{
    if input.octets.is_empty() {
        return Err(F::own(Rule::Structure, input.place));
    }
    match read(input) {
        Err(fault) => Err(F::of_element(fault)),
        Ok((element, rest)) => {
            if element.tag != tag {
                return Err(F::own(Rule::Structure, element.place));
            }
            Ok((element, rest))
        },
    }
}

// Nothing more in a content.
pub fn end<F: LayerFault>(rest: Part<'_>) -> Result<(), F>
    ensures { told_by F.told (λ u. u) result ≡ end_of F.layer (octets_of rest.entry) }
{
    if rest.octets.is_empty() {
        return Ok(());
    }
    match read(rest) {
        Err(fault) => Err(F::of_element(fault)),
        Ok((element, _)) => Err(F::own(Rule::Structure, element.place)),
    }
}

// What is known of a row of elements so far: it grows by one element at a time, or a fault ends the reading.
pub trait Row<'a, F: LayerFault>: Sized + Drop {
    // what is known, as the definitions say it
    ghost Known: { Type 0 };

    ghost view: { Self → Known };

    ghost step: { Known → Seen → Result Known Report };

    // what is known with one element more
    fn take(self, element: &Element<'a>) -> Result<Self, F>
        ensures { told_by F.told view result ≡ step (view self) (seen element.now) };
}

// Reads the elements of a content one after the other, up to its end.
pub fn read_rows<'a, F: LayerFault, R: Row<'a, F>>(content: Part<'a>, start: R) -> Result<R, F>
    ensures { told_by F.told R.view result ≡ rows_of R.step (R.view start) (octets_of content.entry) }
{
    let mut known = start;
    let mut rest = content;
    while !rest.octets.is_empty() {
        let (element, following) = match read(rest) {
            Ok(found) => found,
            Err(fault) => return Err(F::of_element(fault)),
        };
        known = known.take(&element)?;
        rest = following;
    }
    Ok(known)
}

impl LayerFault for SetFault {
    ghost told = { set_report };

    ghost layer = { Set };

    fn of_element(e: ElementFault) -> SetFault {
        SetFault::Element(e)
    }

    fn own(rule: Rule, place: usize) -> SetFault {
        SetFault::Own { rule, place }
    }
}
