ghost use Rattle.std.specs.Prelude.{◌≡◌, ◌≤◌, length};
ghost use Rattle.roa.specs.Most.{most_rows};

use super::{ROWS, RoaRow};
use payload::Family;

// The rows of all families while they are read: the first `count` of the table, and the last family, if there is one.
#[derive(Drop)]
pub struct AllRows<'a> {
    pub last: Option<Family>,
    pub count: usize,
    pub table: &'a mut [RoaRow; ROWS],
    ghost size: { length table.now ≡ 512 },
    ghost most: { count ≤ most_rows last },
}
