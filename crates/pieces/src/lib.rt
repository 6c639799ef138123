// A text as the pieces between the marks in it.
//
// `Pieces::of` takes a text apart at a mark, as at each space or comma, and `next` gives the pieces one by one; `at_end` gives a value
// only where no piece is left. Two marks in a row have an empty
// piece between them, so that the pieces with a mark between each two are the text, and no piece holds the mark; `of` promises both. What is read is
// lent from the text, and nothing is allocated. It rests on `std` alone.
#![tactic(auto)]

ghost use Rattle.std.specs.Prelude.{◌≡◌, ℕ, ◌≤◌, true, length};
ghost use Rattle.std.specs.List.{AllByRecursion};
ghost use Rattle.pieces.specs.Marks.{pieces_of, joined, lacking, piece_end, pieces_past, take_piece, beside, at_end};
ghost use Rattle.pieces.specs.Views.{coming, left};

// Where the first piece ends: at the first mark, or at the end.
fn piece_end(s: &[u8], mark: u8) -> usize
    ensures value { result ≡ piece_end mark s.now }
    ensures bound { result ≤ length s.now }
{
    s.iter().position(|c| *c == mark).unwrap_or(s.len())
}

// What follows the mark that ends a piece.
fn past<'a>(s: &'a [u8], end: usize) -> Option<&'a [u8]>
    ensures { (mark : ℕ) → coming mark result ≡ pieces_past mark end s.now }
{
    if end < s.len() {
        Some(&s[end + 1..])
    } else {
        None
    }
}

// The pieces of a text that are still to be read.
#[derive(Clone, Copy)]
pub struct Pieces<'a> {
    rest: Option<&'a [u8]>,
    mark: u8,
}

impl<'a> Pieces<'a> {
    // All the pieces of a text.
    pub fn of(text: &'a [u8], mark: u8) -> Pieces<'a>
        ensures value { left result ≡ pieces_of mark text.now }
        ensures joined { joined mark (pieces_of mark text.now) ≡ text.now }
        ensures markless { AllByRecursion (λ w. lacking mark w ≡ true) (pieces_of mark text.now) }
    {
        Pieces {
            rest: Some(text),
            mark,
        }
    }

    // The next piece, or none where all are read.
    pub fn next(&mut self) -> Option<&'a [u8]>
        ensures { beside (λ x. x.now) result (left self.new) ≡ take_piece (left self.old) }
    {
        let rest = self.rest?;
        let end = piece_end(rest, self.mark);
        self.rest = past(rest, end);
        Some(&rest[0..end])
    }
}

// The value, where no piece is left.
pub fn at_end<T: Copy>(parts: &mut Pieces<'_>, value: T) -> Option<T>
    ensures { result ≡ at_end (left parts.old) value }
{
    match parts.next() {
        Some(_) => None,
        None => Some(value),
    }
}
