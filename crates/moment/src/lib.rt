// What a moment in time is, and how the two time types of DER write one. A `Moment` is a true date of the Gregorian calendar with
// a time of day, in UTC and to the second, kept as the number YYYYMMDDhhmmss: `Moment::new` and `is_moment` take just the numbers
// of true dates of the years 1 to 9999, and `number` and `year` give the number and the year back. `utc_time` and `generalized_time`
// read the content octets of a UTCTime and of a GeneralizedTime in DER's one form of each, and answer the moment where the
// octets are that form of a moment, and none for any others; no content has two moments, and every moment (of the years 1950
// to 2049 for a UTCTime) has one content. No call asks anything of its caller, and all rests on the calendar's rule and the
// decimal digits alone, as specs/Calendar.antt and specs/Times.antt state them.
#![tactic(auto)]

ghost use Rattle.std.specs.Prelude.{◌≡◌, ℕ, ◌+◌, ◌/◌, ◌^◌, ◌<◌, ◌≤◌, true, length, IfSome, Decides, MatchOption};
ghost use Rattle.moment.specs.Calendar.{leap, days_in, is_day, is_time, is_moment, IsMoment, moment_of, number_in};
ghost use Rattle.moment.specs.Times.{decimal_after, zulu_of, full_year, utc_of, generalized_of, noted, UtcTime, GeneralizedTime, UtcOneMoment, UtcOneContent, GeneralizedOneMoment, GeneralizedOneContent};

// A moment: a true date of the Gregorian calendar with a time of day, as the number YYYYMMDDhhmmss.
#[derive(Clone, Copy, PartialEq, Eq, PartialOrd, Ord, Debug)]
pub struct Moment {
    number: u64,
}

impl Moment {
    // The moment of this number, where the number is one.
    pub fn new(number: u64) -> Option<Moment>
        ensures { result ≡ moment_of number }
    {
        if is_moment(number) {
            Some(Moment { number })
        } else {
            None
        }
    }

    // The number YYYYMMDDhhmmss.
    pub fn number(self) -> u64
        ensures { result ≡ number_in self }
    {
        self.number
    }

    // The year, YYYY.
    pub fn year(self) -> u64
        ensures { result ≡ number_in self / 10000000000 }
    {
        let Moment { number } = self;
        number / 10_000_000_000
    }
}

// Whether a year has a 29th of February.
fn is_leap(year: u64) -> bool
    ensures { result ≡ leap year }
{
    year % 4 == 0 && (year % 100 != 0 || year % 400 == 0)
}

// How many days a month of a year has.
fn days_in(year: u64, month: u64) -> u64
    ensures { result ≡ days_in year month }
{
    match month {
        2 if is_leap(year) => 29,
        2 => 28,
        4 | 6 | 9 | 11 => 30,
        _ => 31,
    }
}

// Whether there is such a day.
fn is_day(year: u64, month: u64, day: u64) -> bool
    ensures { result ≡ is_day year month day }
{
    1 <= year
        && year <= 9999
        && 1 <= month
        && month <= 12
        && 1 <= day
        && day <= days_in(year, month)
}

// Whether there is such a time of day.
fn is_time(hour: u64, minute: u64, second: u64) -> bool
    ensures { result ≡ is_time hour minute second }
{
    hour <= 23 && minute <= 59 && second <= 59
}

// Whether a number, read as YYYYMMDDhhmmss, is a true date.
pub fn is_moment(number: u64) -> bool
    ensures value { result ≡ is_moment number }
    ensures dates { Decides result (IsMoment number) }
{
    let year = number / 10_000_000_000;
    let month = number / 100_000_000 % 100;
    let day = number / 1_000_000 % 100;
    let hour = number / 10_000 % 100;
    let minute = number / 100 % 100;
    let second = number % 100;
    is_day(year, month, day) && is_time(hour, minute, second)
}

// The number that decimal digits say, where every octet is a digit.
fn decimal(digits: &[u8]) -> Option<u64>
    requires { length digits.now ≤ 14 }
    ensures value { result ≡ decimal_after 0 digits.now }
    ensures bound { IfSome result (λ n. n < 10 ^ length digits.now) }
{
    let mut number = 0;
    for digit in digits {
        if !digit.is_ascii_digit() {
            return None;
        }
        number = number * 10 + u64::from(*digit - b'0');
    }
    Some(number)
}

// The number that `count` digits before a 'Z' say, where the content is just that.
fn zulu(content: &[u8], count: usize) -> Option<u64>
    requires { count ≤ 14 }
    ensures value { result ≡ zulu_of count content.now }
    ensures bound { IfSome result (λ n. n < 10 ^ count) }
{
    if content.len() != count + 1 || content[count] != b'Z' {
        return None;
    }
    decimal(&content[0..count])
}

// YYYYMMDDhhmmss by the YYMMDDhhmmss of a UTCTime: the years 50 to 99 are 1950 to 1999, the others 2000 to 2049.
fn utc_number(content: &[u8]) -> Option<u64>
    ensures { result ≡ full_year (zulu_of 12 content.now) }
{
    let short = zulu(content, 12)?;
    if short < 500_000_000_000 {
        Some(20_000_000_000_000 + short)
    } else {
        Some(19_000_000_000_000 + short)
    }
}

// The moment that the content of a UTCTime says.
pub fn utc_time(content: &[u8]) -> Option<Moment>
    ensures value { noted result ≡ utc_of content.now }
    ensures relation { MatchOption result ((m : ℕ) → UtcTime content.now m → ⊥) (λ m. UtcTime content.now (number_in m)) }
{
    let full = utc_number(content)?;
    Moment::new(full)
}

// The moment that the content of a GeneralizedTime says.
pub fn generalized_time(content: &[u8]) -> Option<Moment>
    ensures value { noted result ≡ generalized_of content.now }
    ensures relation { MatchOption result ((m : ℕ) → GeneralizedTime content.now m → ⊥) (λ m. GeneralizedTime content.now (number_in m)) }
{
    let number = zulu(content, 14)?;
    Moment::new(number)
}

// That no content is the UTCTime of two moments, and that every moment of 1950 to 2049 has one content, which is read as it.
pub fn utc_times_stand() -> bool
    ensures shown { result ≡ true }
    ensures moments { UtcOneMoment }
    ensures contents { UtcOneContent }
{
    let utc_shown = true;
    utc_shown
}

// That no content is the GeneralizedTime of two moments, and that every moment has one content, which is read as it.
pub fn generalized_times_stand() -> bool
    ensures shown { result ≡ true }
    ensures moments { GeneralizedOneMoment }
    ensures contents { GeneralizedOneContent }
{
    let generalized_shown = true;
    generalized_shown
}
