// Octets as hexadecimal text, two digits to an octet.
//
// `decode` gives the octets that some digits of either case write, and none where a digit is missing or is none; `push_octets` appends the lower-case
// digits of some octets to a text; `all_digits` says whether each character is a digit, `nibble` what a digit is worth, `octet` what two are, and `digit`
// is the digit of a value. Each answers what `unhex`, `hex_text`, `all_digits`, `nibble_of`, `octet_of` and `digit_of` of specs/Digits.antt define. The
// contracts of `decode` and `push_octets` also say that nothing is lost: what is written is read as the same octets, and what is read is written as the
// same digits in lower case. The crate rests on `std` alone.
#![tactic(auto)]

ghost use Rattle.std.specs.Prelude.{◌≡◌, ◌/◌, ◌%◌, ◌<◌, ◌&&◌, [], ◌∷◌, ◌++◌, length, is_some, IfSome, IfOk, vec_items, string_bytes, OnOk, ◌==◌};
ghost use Rattle.std.specs.Option.{option_map};
ghost use Rattle.hex_text.specs.Digits.{nibble_of, octet_of, unhex, all_digits, digit_of, hex_text};
ghost use Rattle.hex_text.specs.Laws.{ReadsBack, WritesBack};

use std::alloc::{AllocError, Global};

// The value of a digit.
pub fn nibble(c: u8) -> Option<u8>
    ensures value { result ≡ nibble_of c }
    ensures bound { IfSome result (λ v. v < 16) }
{
    match c {
        b'0'..=b'9' => Some(c - b'0'),
        b'a'..=b'f' => Some(c - b'a' + 10),
        b'A'..=b'F' => Some(c - b'A' + 10),
        _ => None,
    }
}

// The octet that two digits write.
pub fn octet(high: u8, low: u8) -> Option<u8>
    ensures { result ≡ octet_of high low }
{
    Some(nibble(high)? * 16 + nibble(low)?)
}

// The octets that the digits write, or none where their number is odd or one is no digit.
pub fn decode(heap: Global, digits: &[u8]) -> Result<Option<Vec<u8>>, AllocError>
    ensures value { IfOk result (λ o. option_map vec_items o ≡ unhex digits.now) }
    ensures back { WritesBack }
{
    let mut octets = Vec::new(heap);
    let mut rest = digits;
    while rest.len() >= 2 {
        let Some(x) = octet(rest[0], rest[1]) else {
            return Ok(None);
        };
        octets.push(x)?;
        rest = &rest[2..];
    }
    if rest.is_empty() {
        Ok(Some(octets))
    } else {
        Ok(None)
    }
}

// Whether each character is a digit: then the digits write octets exactly where their number is even.
pub fn all_digits(digits: &[u8]) -> bool
    ensures value { result ≡ all_digits digits.now }
    ensures reads { is_some (unhex digits.now) ≡ (length digits.now % 2 == 0 && result) }
{
    digits.iter().all(|c| nibble(*c).is_some())
}

// The lower-case digit of a value.
pub fn digit(value: u8) -> char
    requires { value < 16 }
    ensures value { result ≡ digit_of value }
    ensures bound { result < 128 }
{
    if value < 10 {
        (value + b'0') as char
    } else {
        (value - 10 + b'a') as char
    }
}

// Appends the two digits of an octet.
fn push_octet(text: &mut String, octet: u8) -> Result<(), AllocError>
    ensures { OnOk result (string_bytes text.new ≡ string_bytes text.old ++ (digit_of (octet / 16) ∷ (digit_of (octet % 16) ∷ []))) }
{
    text.push(digit(octet / 16))?;
    text.push(digit(octet % 16))?;
    Ok(())
}

// Appends two lower-case digits for each octet.
pub fn push_octets(text: &mut String, octets: &[u8]) -> Result<(), AllocError>
    ensures value { OnOk result (string_bytes text.new ≡ string_bytes text.old ++ hex_text octets.now) }
    ensures back { ReadsBack }
{
    for x in octets {
        push_octet(text, *x)?;
    }
    Ok(())
}
