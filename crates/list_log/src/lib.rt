// The calls of a log that may also join, write and read lists of resources.
//
// `Call` is the set of calls of `log_lines` with three more, so that `log_lines::read_line::<Call>` reads a line as one of them. What is read is lent
// from the line, and nothing is allocated. It rests on `arguments` for the arguments of a call.
//
// A further call is a variant of `Call`, a function for its arguments and an `if` in `read`, with its lines in specs/ (`Asked`, `call_named`,
// `LawfulListCall`, `list_call_words`, `asked`) and in proofs/Lists.antt (`call_taken`, `call_given`, `call_loud`). A further kind of value for `read` is a
// variant of `Form` in `arguments` alone.
#![tactic(auto)]

ghost use Rattle.std.specs.Prelude.{◌≡◌};
ghost use Rattle.std.specs.Option.{option_map};
ghost use Rattle.arguments.specs.Views.{left, beside};
ghost use Rattle.log_lines.specs.Sets.{Stands};
ghost use Rattle.list_log.specs.Lists.{Asked, join_of, write_of, read_of, list_calls};
ghost use Rattle.list_log.specs.Views.{asked};

use arguments::{Form, Kind, Known, Octets, Why, Words};
use log_lines::Calls;

// A call with its arguments: one on elements and oracles, or one on lists.
#[derive(Clone, Copy)]
pub enum Call<'a> {
    Base(log_lines::Call<'a>),
    Join {
        kind: Kind,
        one: &'a [u8],
        other: &'a [u8],
    },
    Write {
        kind: Kind,
        list: &'a [u8],
        area: Option<u64>,
    },
    Read {
        form: Form,
        octets: Octets<'a>,
    },
}

// The arguments of `join`.
fn read_join<'a>(words: &mut Words<'a>) -> Result<Call<'a>, Why>
    ensures { beside asked result (left words.new) ≡ join_of (left words.old) }
{
    let kind = words.kind()?;
    let one = words.list(kind)?;
    let other = words.list(kind)?;
    Ok(Call::Join { kind, one, other })
}

// The arguments of `write`.
fn read_write<'a>(words: &mut Words<'a>) -> Result<Call<'a>, Why>
    ensures { beside asked result (left words.new) ≡ write_of (left words.old) }
{
    let kind = words.kind()?;
    let list = words.list(kind)?;
    let area = words.area()?;
    Ok(Call::Write { kind, list, area })
}

// The arguments of `read`.
fn read_read<'a>(words: &mut Words<'a>) -> Result<Call<'a>, Why>
    ensures { beside asked result (left words.new) ≡ read_of (left words.old) }
{
    Ok(Call::Read {
        form: words.form()?,
        octets: words.octets()?,
    })
}

impl<'a> Calls<'a> for Call<'a> {
    ghost Meaning = { Asked };

    ghost meant = { asked };

    ghost set = { list_calls };

    fn known() -> Known
        ensures value { result ≡ list_calls.known }
        ensures stands { Stands list_calls }
    {
        Known::Lists
    }

    fn read(name: &[u8], words: &mut Words<'a>) -> Option<Result<Call<'a>, Why>>
        ensures { option_map (λ r. beside asked r (left words.new)) result ≡ list_calls.reads name.now (left words.old) }
    {
        if name == b"join".as_slice() {
            return Some(read_join(words));
        }
        if name == b"write".as_slice() {
            return Some(read_write(words));
        }
        if name == b"read".as_slice() {
            return Some(read_read(words));
        }
        match log_lines::Call::read(name, words)? {
            Ok(call) => Some(Ok(Call::Base(call))),
            Err(why) => Some(Err(why)),
        }
    }
}
