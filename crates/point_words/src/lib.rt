// The text of a point of each kind, what a word is read as, and that the two belong together.
//
// specs/Texts.antt has the texts: four octets in decimal for an IPv4 address, eight groups of four hexadecimal digits for an IPv6 address, an AS number in
// decimal. The calls state theorems and do no work: the text of a point is read as the point, and a word that is read as a point is its text, but for
// the case of the digits of an IPv6 address. They rest on `points` for the kinds, on `pieces`, `numeral` and `hex_text` for the parts of a text.
#![tactic(auto)]

ghost use Rattle.std.specs.Prelude.{◌≡◌, true, map};
ghost use Rattle.std.specs.Char.{to_ascii_lowercase};
ghost use Rattle.points.specs.Ranks.{v4_fits, v6_fits, asn_fits};
ghost use Rattle.point_words.specs.Texts.{itself, v4_of, v4_text, asn_of, asn_text, v6_of, v6_text};
ghost use Rattle.point_words.specs.Laws.{WordLaws};

// That a word is read as an AS number exactly where it is the number's text.
pub fn numbers_have_one_text() -> bool
    ensures shown { result ≡ true }
    ensures theorem { WordLaws asn_fits asn_text itself asn_of }
{
    let shown = true;
    shown
}

// The same of addresses of each family; the digits of an IPv6 address may have either case.
pub fn addresses_have_one_text() -> bool
    ensures shown { result ≡ true }
    ensures v4 { WordLaws v4_fits v4_text itself v4_of }
    ensures v6 { WordLaws v6_fits v6_text (map to_ascii_lowercase) v6_of }
{
    let shown = true;
    shown
}
