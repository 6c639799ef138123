// The octets of an entry, as they are put together.
ghost use Rattle.std.specs.Prelude.{◌≡◌, ℕ, ◌+◌, ◌≤◌, List, [], ◌++◌, length, take};

use std::marker::Model;

// The most octets that an entry has.
const MOST: usize = 40;

// Octets, 40 at most.
#[derive(Drop)]
pub struct Text {
    octets: [u8; MOST],
    size: usize,
}

impl Model for Text {
    ghost Value = { List ℕ };

    ghost view = { λ t. take t.size t.octets };

    ghost invariant = { λ t. t.size ≤ 40 };
}

impl Text {
    // No octets.
    pub fn new() -> Text
        ensures { result ≡ [] }
    {
        Text {
            octets: [0; MOST],
            size: 0,
        }
    }

    // How many octets it has.
    pub fn len(&self) -> usize
        ensures { result ≡ length self.now }
    {
        self.as_slice().len()
    }

    // The octets as a slice.
    pub fn as_slice(&self) -> &[u8]
        ensures { result.now ≡ self.now }
    {
        &self.octets[..self.size]
    }

    // Puts octets after those that it has.
    pub fn extend(&mut self, octets: &[u8])
        requires { length self.old + length octets.now ≤ 40 }
        ensures { self.new ≡ self.old ++ octets.now }
    {
        let end = self.size + octets.len();
        self.octets[self.size..end].copy_from_slice(octets);
        self.size = end;
    }
}
