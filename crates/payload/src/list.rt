ghost use Rattle.std.specs.Prelude.{◌≡◌, ℕ, ◌<◌, ◌≤◌, true, length, take};
ghost use Rattle.payload.specs.Order.{Rising, AllSmall, all_lawful};

use super::Payload;

mod calls;

// A list of payloads: the first `count` entries, each before the next in the order. The other entries are room.
#[derive(Drop)]
pub struct PayloadList<'a> {
    // a slice and a count in place of a Vec: the memory is lent, as in every library crate
    entries: &'a mut [Payload],
    count: usize,
    // where it is true, every prefix of the list is lawful
    tidy: bool,
    ghost fits: { count ≤ length entries.now },
    ghost rising: { Rising (take count entries.now) },
    ghost small: { AllSmall (take count entries.now) },
    ghost laws: { (tidy ≡ true → all_lawful (take count entries.now) ≡ true) },
}

// What became of a payload that was to be put into a list.
#[derive(Clone, Copy, PartialEq, Eq, Debug)]
pub enum Inserted {
    // it is in the list now
    Added,
    // the list had it already
    Present,
    // the list has it not, and no room is left
    Full,
}
