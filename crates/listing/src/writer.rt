// The area into which a text is written, piece by piece, and the place of its next octet. What goes past the end of the
// area is counted, and not written.
#[derive(Drop)]
pub struct Writer<'a> {
    pub area: &'a mut [u8],
    pub at: usize,
}
