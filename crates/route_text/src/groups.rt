// The groups of an IPv6 address that stand at the front of a text.
ghost use Rattle.std.specs.Prelude.{◌*◌, ◌^◌, ◌<◌, ◌≤◌};

// Groups with a colon between, eight at most: the number that they write, how many there are, and the text after them.
#[derive(Clone, Copy)]
pub struct Groups<'a> {
    pub value: u128,
    pub count: usize,
    pub rest: &'a [u8],
    ghost few: { count ≤ 8 },
    ghost fits: { value < 2 ^ (16 * count) },
}
