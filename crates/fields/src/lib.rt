// The single fields that the layouts of certificates, revocation lists and signed objects share.
//
// Each call reads the next element of a content as one kind of field, and answers its value and the octets after it,
// or the first fault: a missing element at the end of the content, a wrong tag (2) or a forbidden value (3) at the tag.
// All are generic over the layer's fault type, as `layout::expect` is. It rests on `layout` for reading, on `moment`
// for times and on `entries` for AS numbers.
#![tactic(auto)]

ghost use Rattle.std.specs.Prelude.{◌≡◌, ◌<◌};
ghost use Rattle.moment.specs.Calendar.{number_in};
ghost use Rattle.element.specs.Reading.{seen, octets_of};
ghost use Rattle.layout.specs.Expecting.{told_by};
ghost use Rattle.fields.specs.Fields.{both_of, moment_and, whole_seen, is_constant, is_number20, is_serial, whole_of, sequence_of, constant_of, number20_of, serial_of, as_number_of, whole_bits_of, time_in, time_of, gtime_of};

use content::tag;
use element::{Element, Part};
use fault::Rule;
use layout::{LayerFault, expect, next};
use moment::{Moment, generalized_time, utc_time};

// Whether a content is the INTEGER n, a number below 128.
fn is_constant(content: &[u8], n: u8) -> bool
    ensures { result ≡ is_constant n content.now }
{
    content.len() == 1 && content[0] == n
}

// The INTEGER n, a number below 128, is next: the octets after it.
pub fn constant_integer<'a, F: LayerFault>(input: Part<'a>, n: u8) -> Result<Part<'a>, F>
    ensures value { told_by F.told octets_of result ≡ constant_of F.layer n (octets_of input.entry) }
{
    let (element, rest) = expect::<F>(input, tag::INTEGER)?;
    if !is_constant(element.content.octets, n) {
        return Err(F::own(Rule::Value, element.place));
    }
    Ok(rest)
}

// An AS number, an INTEGER of 32 bits, and the octets after it.
pub fn as_number<'a, F: LayerFault>(input: Part<'a>) -> Result<(u32, Part<'a>), F>
    ensures value { told_by F.told (λ p. (p.0, octets_of p.1)) result ≡ as_number_of F.layer (octets_of input.entry) }
{
    let (element, rest) = expect::<F>(input, tag::INTEGER)?;
    let Some(number) = entries::as_number(element.content.octets) else {
        return Err(F::own(Rule::Value, element.place));
    };
    Ok((number, rest))
}

// Whether the content of an INTEGER is a number from 0, in at most 20 octets.
fn is_number20(content: &[u8]) -> bool
    ensures { result ≡ is_number20 content.now }
{
    !content.is_empty() && content.len() <= 20 && content[0] < 128
}

// Whether the content of an INTEGER is a positive number, in at most 20 octets.
fn is_serial(content: &[u8]) -> bool
    ensures { result ≡ is_serial content.now }
{
    is_number20(content) && !is_constant(content, 0)
}

// An INTEGER from 0 of at most 20 octets: its content, and the octets after it.
pub fn number20<'a, F: LayerFault>(input: Part<'a>) -> Result<(Part<'a>, Part<'a>), F>
    ensures value { told_by F.told both_of result ≡ number20_of F.layer (octets_of input.entry) }
{
    let (element, rest) = expect::<F>(input, tag::INTEGER)?;
    if !is_number20(element.content.octets) {
        return Err(F::own(Rule::Value, element.place));
    }
    Ok((element.content, rest))
}

// A serial, a positive INTEGER of at most 20 octets: its content, and the octets after it.
pub fn serial<'a, F: LayerFault>(input: Part<'a>) -> Result<(Part<'a>, Part<'a>), F>
    ensures value { told_by F.told both_of result ≡ serial_of F.layer (octets_of input.entry) }
{
    let (element, rest) = expect::<F>(input, tag::INTEGER)?;
    if !is_serial(element.content.octets) {
        return Err(F::own(Rule::Value, element.place));
    }
    Ok((element.content, rest))
}

// A BIT STRING without unused bits: its octets, and the octets after it.
pub fn whole_bits<'a, F: LayerFault>(input: Part<'a>) -> Result<(Part<'a>, Part<'a>), F>
    ensures value { told_by F.told both_of result ≡ whole_bits_of F.layer (octets_of input.entry) }
{
    let (element, rest) = expect::<F>(input, tag::BIT_STRING)?;
    let content = element.content.octets;
    if content.is_empty() || content[0] != 0 {
        return Err(F::own(Rule::Value, element.place));
    }
    Ok((element.content.skip(1), rest))
}

// The moment that an element says: UTCTime through 2049, GeneralizedTime from 2050.
fn time_in<F: LayerFault>(element: &Element<'_>) -> Result<Moment, F>
    ensures { told_by F.told number_in result ≡ time_in F.layer (seen element.now) }
{
    let content = element.content.octets;
    let said = match element.tag {
        tag::UTC_TIME => utc_time(content),
        tag::GENERALIZED_TIME => generalized_time(content),
        _ => return Err(F::own(Rule::Structure, element.place)),
    };
    let Some(moment) = said else {
        return Err(F::own(Rule::Value, element.place));
    };
    if element.tag == tag::GENERALIZED_TIME && moment.number() < 20_500_000_000_000 {
        return Err(F::own(Rule::Value, element.place));
    }
    Ok(moment)
}

// A time, as UTCTime through 2049 and as GeneralizedTime from 2050, and the octets after it.
pub fn time<'a, F: LayerFault>(input: Part<'a>) -> Result<(Moment, Part<'a>), F>
    ensures value { told_by F.told moment_and result ≡ time_of F.layer (octets_of input.entry) }
{
    let (element, rest) = next::<F>(input)?;
    let moment = time_in::<F>(&element)?;
    Ok((moment, rest))
}

// A GeneralizedTime of any year, and the octets after it.
pub fn gtime<'a, F: LayerFault>(input: Part<'a>) -> Result<(Moment, Part<'a>), F>
    ensures value { told_by F.told moment_and result ≡ gtime_of F.layer (octets_of input.entry) }
{
    let (element, rest) = expect::<F>(input, tag::GENERALIZED_TIME)?;
    let Some(moment) = generalized_time(element.content.octets) else {
        return Err(F::own(Rule::Value, element.place));
    };
    Ok((moment, rest))
}

// An element of this tag: all its octets, tag and length too; the element; and the octets after it.
pub fn whole<'a, F: LayerFault>(
    input: Part<'a>,
    tag: u8,
) -> Result<(Part<'a>, Element<'a>, Part<'a>), F>
    ensures value { told_by F.told whole_seen result ≡ whole_of F.layer tag (octets_of input.entry) }
{
    let (element, rest) = expect::<F>(input, tag)?;
    Ok((input.before(rest), element, rest))
}

// A SEQUENCE that is not looked into: all its octets, tag and length too, and the octets after it.
pub fn sequence<'a, F: LayerFault>(input: Part<'a>) -> Result<(Part<'a>, Part<'a>), F>
    ensures value { told_by F.told both_of result ≡ sequence_of F.layer (octets_of input.entry) }
{
    let (all, _, rest) = whole::<F>(input, tag::SEQUENCE)?;
    Ok((all, rest))
}
