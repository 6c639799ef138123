// Parts of a file, and the elements in it.

ghost use Rattle.std.specs.Prelude.{◌+◌, ◌^◌, ◌<◌, length};

// Some octets of a file, and the offset at which they begin in it.
#[derive(Clone, Copy)]
pub struct Part<'a> {
    pub octets: &'a [u8],
    pub place: usize,
    ghost placed: { place + length octets.now < 2 ^ 64 },
}

// An element: its tag, the offset of the tag, and its content.
#[derive(Clone, Copy)]
pub struct Element<'a> {
    pub tag: u8,
    pub place: usize,
    pub content: Part<'a>,
}
