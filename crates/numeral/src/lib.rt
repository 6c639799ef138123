// Numbers in decimal, as words of text write them.
//
// `read_number` reads a word as a number from 0 to a largest one, which the caller names. It answers the number exactly where the word is the number's
// decimal text: digits alone, no sign, and no zero in front but in `0`. Any other word, and a larger number, is none. Nothing is allocated. It rests
// on `std` alone.
#![tactic(auto)]

ghost use Rattle.std.specs.Prelude.{◌≡◌, ◌≤◌, IfSome, Some};
ghost use Rattle.numeral.specs.Numbers.{grown, number_from, plain, number_of, ReadsNumber};

// The number with a further digit, where that is a digit and the number no larger than `most`.
fn grow(number: u64, digit: u8, most: u64) -> Option<u64>
    ensures value { result ≡ grown most (Some number) digit }
    ensures bound { IfSome result (λ n. n ≤ most) }
{
    if !digit.is_ascii_digit() {
        return None;
    }
    let next = number
        .checked_mul(10)?
        .checked_add(u64::from(digit - b'0'))?;
    if next > most {
        return None;
    }
    Some(next)
}

// The number that digits write, of which there may be none.
fn read_digits(digits: &[u8], most: u64) -> Option<u64>
    ensures { result ≡ number_from most (Some 0) digits.now }
{
    let mut number = 0;
    for digit in digits {
        number = grow(number, *digit, most)?;
    }
    Some(number)
}

// Whether the word is not empty, and begins with no zero unless that is all.
fn is_plain(word: &[u8]) -> bool
    ensures { result ≡ plain word.now }
{
    match word {
        [] => false,
        [_] => true,
        [first, ..] => *first != b'0',
    }
}

// The number that a word writes, where it is at most `most`.
pub fn read_number(word: &[u8], most: u64) -> Option<u64>
    ensures value { result ≡ number_of most word.now }
    ensures text { ReadsNumber most word.now result }
    ensures bound { IfSome result (λ n. n ≤ most) }
{
    if !is_plain(word) {
        return None;
    }
    read_digits(word, most)
}
