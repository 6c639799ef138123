// The lines of a log of calls.
//
// `read_line` reads a line, without its newline, as nothing (an empty line, or a comment, which begins with `#`) or as a call with its arguments, and
// else says why the line is no call. Its answer is what `line_of` of specs/Sets.antt defines, and it is a call exactly where the line is that call's
// text, as `element OCTETS`. Which calls there are is a set of them, a type that implements `Calls`: the set here has the calls on elements and oracles,
// and `list_log` adds those on lists. What is read is lent from the line, and nothing is allocated. It rests on `arguments` for the words of a line and
// what they write.
//
// A further call is a variant of `Call`, a function for its arguments and an arm in `read`, with its lines in specs/ (`Asked`, `asked_of`, `LawfulAsked`,
// `asked_words`, `asked`) and in proofs/Oracles.antt (`asked_taken`, `asked_given`, `asked_loud`).
#![tactic(auto)]

ghost use Rattle.std.specs.Prelude.{◌≡◌, true, IfOk};
ghost use Rattle.std.specs.Option.{option_map};
ghost use Rattle.arguments.specs.Words.{words_of};
ghost use Rattle.arguments.specs.Views.{left, beside, seen};
ghost use Rattle.log_lines.specs.Sets.{CallSet, Stands, call_of, whole_of, silent, line_of, LawfulLine, ReadsCalls, ReadsElements};
ghost use Rattle.log_lines.specs.Oracles.{Asked, element_of, digest_of, verdict_of, oracle_calls};
ghost use Rattle.log_lines.specs.Views.{asked};

use arguments::{Known, Octets, OracleWord, Why, Words};

// A set of calls that a line may have. `meant` is what a call asks, and `set` says which words write which call.
pub trait Calls<'a>: Copy {
    ghost Meaning: { Type 0 };

    ghost meant: { Self → Meaning };

    ghost set: { CallSet Meaning };

    // Which calls there are.
    fn known() -> Known
        ensures value { result ≡ set.known }
        ensures stands { Stands set };

    // The call that a word names, where it names one, with its arguments from the words after it.
    fn read(name: &[u8], words: &mut Words<'a>) -> Option<Result<Self, Why>>
        ensures { option_map (λ r. beside meant r (left words.new)) result ≡ set.reads name.now (left words.old) };
}

// A call on elements and oracles, with its arguments.
#[derive(Clone, Copy)]
pub enum Call<'a> {
    Element(Octets<'a>),
    Digest {
        oracle: OracleWord<'a>,
        octets: Octets<'a>,
    },
    Verdict {
        oracle: OracleWord<'a>,
        key: Octets<'a>,
        message: Octets<'a>,
        signature: Octets<'a>,
    },
}

// The arguments of `element`.
fn read_element<'a>(words: &mut Words<'a>) -> Result<Call<'a>, Why>
    ensures { beside asked result (left words.new) ≡ element_of (left words.old) }
{
    Ok(Call::Element(words.octets()?))
}

// The arguments of `digest`.
fn read_digest<'a>(words: &mut Words<'a>) -> Result<Call<'a>, Why>
    ensures { beside asked result (left words.new) ≡ digest_of (left words.old) }
{
    Ok(Call::Digest {
        oracle: words.oracle()?,
        octets: words.octets()?,
    })
}

// The arguments of `verdict`.
fn read_verdict<'a>(words: &mut Words<'a>) -> Result<Call<'a>, Why>
    ensures { beside asked result (left words.new) ≡ verdict_of (left words.old) }
{
    Ok(Call::Verdict {
        oracle: words.oracle()?,
        key: words.octets()?,
        message: words.octets()?,
        signature: words.octets()?,
    })
}

impl<'a> Calls<'a> for Call<'a> {
    ghost Meaning = { Asked };

    ghost meant = { asked };

    ghost set = { oracle_calls };

    fn known() -> Known
        ensures value { result ≡ oracle_calls.known }
        ensures stands { Stands oracle_calls }
    {
        Known::Oracles
    }

    fn read(name: &[u8], words: &mut Words<'a>) -> Option<Result<Call<'a>, Why>>
        ensures { option_map (λ r. beside asked r (left words.new)) result ≡ oracle_calls.reads name.now (left words.old) }
    {
        if name == b"element".as_slice() {
            return Some(read_element(words));
        }
        if name == b"digest".as_slice() {
            return Some(read_digest(words));
        }
        if name == b"verdict".as_slice() {
            return Some(read_verdict(words));
        }
        None
    }
}

// A call and its arguments, from the words of a line.
fn read_call<'a, C: Calls<'a>>(words: &mut Words<'a>, known: Known) -> Result<C, Why>
    requires { known ≡ C.set.known }
    ensures { beside C.meant result (left words.new) ≡ call_of C.set (left words.old) }
{
    let name = words.next()?;
    match C::read(name, words) {
        Some(call) => call,
        None => Err(Why::UnknownCall(known)),
    }
}

// The call of a line that is not silent, with no word after its arguments.
fn read_whole<'a, C: Calls<'a>>(line: &'a [u8], known: Known) -> Result<C, Why>
    requires { known ≡ C.set.known }
    ensures { seen C.meant result ≡ whole_of C.set (words_of line.now) }
{
    let mut words = Words::of(line);
    let call = read_call::<C>(&mut words, known)?;
    words.end()?;
    Ok(call)
}

// Whether a line is empty or a comment.
fn says_nothing(line: &[u8]) -> bool
    ensures { result ≡ silent line.now }
{
    match line {
        [] => true,
        [first, ..] => *first == b'#',
    }
}

// What a line says, without its newline, or why it is no call.
pub fn read_line<'a, C: Calls<'a>>(line: &'a [u8]) -> Result<Option<C>, Why>
    ensures value { seen (option_map C.meant) result ≡ line_of C.set line.now }
    ensures lawful { IfOk result (λ o. LawfulLine C.set (option_map C.meant o)) }
    ensures calls { ReadsCalls C.set line.now (seen (option_map C.meant) result) }
    ensures elements { ReadsElements C.set line.now (seen (option_map C.meant) result) }
{
    let known = C::known();
    if says_nothing(line) {
        return Ok(None);
    }
    if line.contains(&b'\r') {
        return Err(Why::CarriageReturn);
    }
    Ok(Some(read_whole::<C>(line, known)?))
}
