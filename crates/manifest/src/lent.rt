ghost use Rattle.std.specs.Prelude.{◌≤◌, length};

use super::ManifestEntry;
use repeats::Spot;

// What the caller lends: a table for the entries, and spots for the notes on their names, with room for as many as a manifest can
// have. They are slices, and no arrays of full size: a caller may lend longer ones, and what stands past the entries is told.
#[derive(Drop)]
pub struct Lent<'t, 'a> {
    pub table: &'t mut [ManifestEntry<'a>],
    pub spots: &'t mut [Spot<'a>],
    ghost entries: { 1490 ≤ length table.now },
    ghost names: { 1490 ≤ length spots.now },
}
