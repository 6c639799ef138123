ghost use Rattle.std.specs.Prelude.{◌≡◌, ◌+◌, ◌≤◌, length};

use super::{ROWS, RoaRow};
use payload::Family;

// The rows of a family while they are read: the first `count` of the table, of which `base` are those of another family.
#[derive(Drop)]
pub struct FamilyRows<'a> {
    pub family: Family,
    pub base: usize,
    pub count: usize,
    pub table: &'a mut [RoaRow; ROWS],
    ghost size: { length table.now ≡ 512 },
    ghost few: { base ≤ 256 },
    ghost after: { base ≤ count },
    ghost room: { count ≤ base + 256 },
}
