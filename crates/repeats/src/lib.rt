// The first octet string among many that stood before, found without comparing every pair, in lent memory.
//
// While strings are read, `note` writes each into lent memory as a `Spot`, with its number and the place that a fault is
// to name. `repeat_place` then answers the place of the first string that is the same as one before it, and
// `first_repeat` its number; or that all are different. The spots are sorted by their octets and then by their numbers,
// so that equal strings are neighbours, and the answer is the least number of a spot that follows one of the same
// octets. The sort of `std` takes no memory, and no choice of strings makes it slow.
// specs/Repeats.antt has what the calls promise, and specs/Reading.antt that to look for repeats after a reading is the
// same as to look while reading. The callers number the spots from 0, as `note` does. The crate rests on `std` alone.
#![tactic(auto)]

ghost use Rattle.std.specs.Prelude.{◌≡◌, ℕ, ◌+◌, ◌<◌, ◌≤◌, true, List, [], ◌∷◌, ◌++◌, length, take, drop, MatchOption};
ghost use Rattle.std.specs.List.Sorted.{IsPermutation};
ghost use Rattle.std.specs.Str.{bytes_eq};
ghost use Rattle.repeats.specs.Reading.{LookingAfter};
ghost use Rattle.repeats.specs.Repeats.{AllDifferent, FirstRepeat, Numbered, keys_of, first_repeat, lesser, with_next, least_next, places_of, place_at, place_with, Notes, Stirs};

// An octet string, its number among those that were read, and the place that a fault of it names. The place has no part
// in the order.
#[derive(Clone, Copy)]
#[derive_where(PartialEq, Eq, PartialOrd, Ord)]
pub struct Spot<'a> {
    pub octets: &'a [u8],
    pub index: usize,
    #[derive_where(skip)]
    pub place: usize,
}

// The lesser of a number, if there is one, and another.
fn lower(best: Option<usize>, index: usize) -> usize
    ensures { result ≡ lesser best index }
{
    best.map_or(index, |least| least.min(index))
}

// Whether two strings are the same.
pub fn same(a: &[u8], b: &[u8]) -> bool
    ensures { result ≡ bytes_eq a.now b.now }
{
    a == b
}

// The least number so far, and that of a spot whose octets are those of the spot before it.
fn with_next(best: Option<usize>, before: Spot<'_>, spot: Spot<'_>) -> Option<usize>
    ensures { result ≡ with_next best before.entry spot.entry }
{
    if same(before.octets, spot.octets) {
        return Some(lower(best, spot.index));
    }
    best
}

// The least number of a spot whose octets are those of the spot before it.
fn least_next(spots: &[Spot<'_>]) -> Option<usize>
    ensures { result ≡ least_next spots.now }
{
    let (first, others) = spots.split_first()?;
    let mut best = None;
    let mut before = first;
    for spot in others {
        best = with_next(best, *before, *spot);
        before = spot;
    }
    best
}

// The least number of a string that is the same as one before it, or nothing where all are different. The spots are
// then in another order.
pub fn first_repeat(spots: &mut [Spot<'_>]) -> Option<usize>
    requires { Numbered spots.old }
    ensures value { result ≡ first_repeat (keys_of spots.old) }
    ensures plain { MatchOption result (AllDifferent (keys_of spots.old)) (FirstRepeat (keys_of spots.old)) }
    ensures same { IsPermutation spots.old spots.new }
{
    spots.sort_unstable();
    least_next(spots)
}

// The place of the first spot of this number, if there is one.
fn place_with(spots: &[Spot<'_>], index: usize) -> Option<usize>
    ensures { result ≡ place_with index spots.now }
{
    let found = spots.iter().find(|spot| spot.index == index)?;
    Some(found.place)
}

// The place of the first string that is the same as one before it, or nothing where all are different.
fn place_of_repeat(spots: &mut [Spot<'_>]) -> Option<usize>
    requires { Numbered spots.old }
    ensures value { result ≡ place_at (places_of spots.old) (first_repeat (keys_of spots.old)) }
    ensures same { IsPermutation spots.old spots.new }
{
    let index = first_repeat(spots)?;
    place_with(spots, index)
}

// Notes one more string and its place, where so many are noted.
pub fn note<'a>(spots: &mut [Spot<'a>], count: usize, octets: &'a [u8], place: usize)
    requires { count < length spots.old }
    ensures noted { (ks : List (List ℕ)) (ps : List ℕ) → Notes ks ps spots.old count → Notes (ks ++ octets.now ∷ []) (ps ++ place ∷ []) spots.new (count + 1) }
    ensures rest { drop (count + 1) spots.new ≡ drop (count + 1) spots.old }
{
    spots[count] = Spot {
        octets,
        index: count,
        place,
    };
}

// The place of the first of the noted strings that is the same as one before it, or nothing where all are different.
// The notes are then in another order.
pub fn repeat_place(spots: &mut [Spot<'_>], count: usize) -> Option<usize>
    requires within { count ≤ length spots.old }
    requires numbered { Numbered (take count spots.old) }
    ensures value { (ks : List (List ℕ)) (ps : List ℕ) → Notes ks ps spots.old count → result ≡ place_at ps (first_repeat ks) }
    ensures same { Stirs count spots.old spots.new }
{
    place_of_repeat(&mut spots[0..count])
}

// Looking for repeats after a reading that noted the keys up to its first fault, and letting a repeat win, is the same
// as looking at each key while reading, whatever the state, the items and the faults of the reading are.
pub fn looking_after_is_looking_while<State, Item, Fault>() -> bool
    ensures shown { result ≡ true }
    ensures same { LookingAfter State Item Fault }
{
    true
}
