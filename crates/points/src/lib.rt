// Points with a total order, of which sets are made: IPv4 addresses, IPv6 addresses and AS numbers.
//
// A `Point` is a kind of points, numbered in their order from 0 to `top`. The numbers tell the points apart, and every
// point below the last has a next one. The calls compare two points, and give the first and the last; what they promise speaks
// of the numbers alone, so that code over `Point` is written and proved once for every kind. A further kind costs its own
// order: the members, the three laws and the four calls. It rests on no other crate.
#![tactic(auto)]

ghost use Rattle.std.specs.Prelude.{◌≡◌, ℕ, ◌+◌, ◌-◌, ◌^◌, ◌<◌, ◌≤◌, Decides, refl};
ghost use Rattle.points.specs.Ranks.{v4_rank, v4_fits, v6_rank, v6_fits, v6_of, asn_rank, asn_fits};
ghost use Rattle.std.proofs.Common.{arith, ap, ◌∙◌, inl, inr};
ghost use Rattle.std.proofs.lemmas.Bool.{cases_eq};

// A kind of points. `fits` holds of every value that code can have, and `rank` numbers those in their order.
pub trait Point: Copy {
    ghost rank: { Self → ℕ };

    ghost top: { ℕ };

    ghost fits: { Self → Type 0 };

    // Whether the point is the other one or stands before it. Each kind answers `self <= other`: a body here would not know that
    // its points fit, and without that their order is not that of their numbers.
    fn at_most(self, other: Self) -> bool
        ensures order { Decides result (rank self ≤ rank other) }
        ensures fit { fits self × fits other };

    // Whether no point stands between the two: the other is at most the next after this one.
    fn touches(self, other: Self) -> bool
        ensures { Decides result (rank other ≤ rank self + 1) };

    fn first() -> Self
        ensures { (rank result ≡ 0) × fits result };

    fn last() -> Self
        ensures { (rank result ≡ top) × fits result };

    // no point stands past the last
    ghost last_point: { (x : Self) → fits x → rank x ≤ top };

    // the numbers tell the points apart
    ghost one_point: { (x y : Self) → fits x → fits y → rank x ≡ rank y → x ≡ y };

    // every point below the last has a next one
    ghost next_point: { (x : Self) → fits x → rank x < top → ((y : Self) × fits y × (rank y ≡ rank x + 1)) };
}

// An IPv4 address.
#[derive(Clone, Copy, PartialEq, Eq, PartialOrd, Ord, Debug)]
pub struct V4 {
    pub word: u32,
}

impl Point for V4 {
    ghost rank = { v4_rank };

    ghost top = { 2 ^ 32 - 1 };

    ghost fits = { v4_fits };

    ghost last_point = { λ x f. omega arith };

    ghost one_point = { λ x y f g e. ap (λ (n : ℕ). let t : Self = record { word = n } in t) e };

    ghost next_point = { λ x f h. (record { word = x.word + 1 }, omega arith, refl) };

    fn at_most(self, other: V4) -> bool {
        self <= other
    }

    fn touches(self, other: V4) -> bool {
        other.word.saturating_sub(self.word) <= 1
    }

    fn first() -> V4 {
        V4 { word: 0 }
    }

    fn last() -> V4 {
        V4 { word: u32::MAX }
    }
}

// An IPv6 address: its upper and its lower 64 bits.
#[derive(Clone, Copy, PartialEq, Eq, PartialOrd, Ord, Debug)]
pub struct V6 {
    pub high: u64,
    pub low: u64,
}

// The address that is a number of 128 bits.
impl From<u128> for V6 {
    ghost from_gives = { λ n a. a ≡ v6_of n };

    fn from(number: u128) -> V6 {
        V6 {
            high: (number >> 64) as u64,
            low: (number % (1 << 64)) as u64,
        }
    }
}

// An address as one number.
impl From<V6> for u128 {
    ghost from_gives = { λ a n. n ≡ v6_rank a };

    fn from(address: V6) -> u128 {
        (u128::from(address.high) << 64) + u128::from(address.low)
    }
}

impl Point for V6 {
    ghost rank = { v6_rank };

    ghost top = { 2 ^ 128 - 1 };

    ghost fits = { v6_fits };

    ghost last_point = { λ x f. omega arith };

    ghost one_point = { λ x y f g e.
        let h : x.high ≡ y.high = omega arith in
        let l : x.low ≡ y.low = omega arith in
        ap (λ (n : ℕ). let t : Self = record { high = n; low = x.low } in t) h ∙ ap (λ (n : ℕ). let t : Self = record { high = y.high; low = n } in t) l };

    // the lower half goes up by one, or falls to 0 where it carries
    ghost next_point = { λ x f h.
        elim (cases_eq (x.low + 1) (2 ^ 64)) [
          | inl e ↦ (record { high = x.high + 1; low = 0 }, (omega arith, omega arith), omega arith)
          | inr e ↦ (record { high = x.high; low = x.low + 1 }, (omega arith, omega arith), omega arith)
        ] };

    fn at_most(self, other: V6) -> bool {
        self <= other
    }

    fn touches(self, other: V6) -> bool {
        u128::from(other).saturating_sub(u128::from(self)) <= 1
    }

    fn first() -> V6 {
        V6 { high: 0, low: 0 }
    }

    fn last() -> V6 {
        V6 {
            high: u64::MAX,
            low: u64::MAX,
        }
    }
}

// An AS number: a word as an IPv4 address is, but a kind of its own. One type for both would be no plainer: each call is one line.
#[derive(Clone, Copy, PartialEq, Eq, PartialOrd, Ord, Debug)]
pub struct Asn {
    pub number: u32,
}

impl Point for Asn {
    ghost rank = { asn_rank };

    ghost top = { 2 ^ 32 - 1 };

    ghost fits = { asn_fits };

    ghost last_point = { λ x f. omega arith };

    ghost one_point = { λ x y f g e. ap (λ (n : ℕ). let t : Self = record { number = n } in t) e };

    ghost next_point = { λ x f h. (record { number = x.number + 1 }, omega arith, refl) };

    fn at_most(self, other: Asn) -> bool {
        self <= other
    }

    fn touches(self, other: Asn) -> bool {
        other.number.saturating_sub(self.number) <= 1
    }

    fn first() -> Asn {
        Asn { number: 0 }
    }

    fn last() -> Asn {
        Asn { number: u32::MAX }
    }
}
