// A list of payloads as text: `payloads=2`, and a line for each, `asn=64496 prefix=192.0.2.0/24 max=26`.
//
// `print` writes the text at the front of an area and answers its length, or refuses where the area is too short, and
// then changes nothing; what stands past the text stays. The text is `list_text` of specs/Texts.antt, and
// `texts_stand` says that it is the text of one list of lawful payloads only. Every piece is written as far as the
// area goes, so that the same code measures a line, in an area without room, and writes it; `put_head` and `put_line`
// do so for one line, for whoever compares a line with another text. It rests on `payload` for the list.
#![tactic(auto)]

ghost use Rattle.std.specs.Prelude.{◌≡◌, ℕ, ◌+◌, ◌^◌, ◌<◌, ◌≤◌, true, [], ◌∷◌, ◌++◌, length, drop, decimal};
ghost use Rattle.payload.specs.Lists.{held};
ghost use Rattle.listing.specs.Laws.{TextTells};
ghost use Rattle.listing.specs.Texts.{octet_at, ipv4_text, hex_digit, group_at, group_text, ipv6_text, address_text, line_text, head_text, lines_text, list_text};
ghost use Rattle.listing.specs.Writing.{room_for, laid, Written, Writes, SameArea};

mod writer;

use fault::Rule;
use payload::{Family, Payload, PayloadList};
use writer::Writer;

// The octet of an address at a place.
fn octet_at(place: u8, address: u128) -> u64
    requires { place < 16 }
    ensures value { result ≡ octet_at place address }
    ensures bound { result < 256 }
{
    ((address >> (120 - 8 * place)) % 256) as u64
}

// The group of an address at a place.
fn group_at(place: u8, address: u128) -> u64
    requires { place < 8 }
    ensures value { result ≡ group_at place address }
    ensures bound { result < 65536 }
{
    ((address >> (112 - 16 * place)) % 65_536) as u64
}

// The lower-case digit of a number below 16. (hex_text writes its digits into a String on the heap, and this crate has none.)
fn digit(number: u64) -> u8
    requires { number < 16 }
    ensures { result ≡ hex_digit number }
{
    if number < 10 {
        number as u8 + b'0'
    } else {
        number as u8 - 10 + b'a'
    }
}

impl Writer<'_> {
    // Writes an octet, if the area goes so far.
    fn octet(&mut self, octet: u8)
        requires { self.old.at < 2 ^ 32 }
        ensures written { Writes (octet ∷ []) self.old self.new }
        ensures kept { SameArea self.old self.new }
        ensures bound { self.new.at ≤ self.old.at + 1 }
    {
        // `get_mut` would lend the area on, and its ghost name with it: no plainer
        if self.at < self.area.len() {
            self.area[self.at] = octet;
        }
        self.at += 1;
    }

    // Writes a word.
    fn word(&mut self, word: &[u8])
        requires { self.old.at + length word.now < 2 ^ 32 }
        ensures written { Writes word.now self.old self.new }
        ensures kept { SameArea self.old self.new }
        ensures bound { self.new.at ≤ self.old.at + length word.now }
    {
        for octet in word {
            self.octet(*octet);
        }
    }

    // Writes a number in decimal.
    fn decimal(&mut self, number: u64)
        requires { self.old.at < 2 ^ 16 }
        ensures written { Writes (decimal number) self.old self.new }
        ensures kept { SameArea self.old self.new }
        ensures bound { self.new.at ≤ self.old.at + 20 }
    {
        if number >= 10 {
            self.decimal(number / 10);
        }
        self.octet(b'0' + (number % 10) as u8);
    }

    // Writes an IPv4 address.
    fn ipv4(&mut self, address: u128)
        requires { self.old.at < 2 ^ 15 }
        ensures written { Writes (ipv4_text address) self.old self.new }
        ensures kept { SameArea self.old self.new }
        ensures bound { self.new.at ≤ self.old.at + 128 }
    {
        // by place, as the text of so many octets is told: an iterator over `to_be_bytes` is no plainer
        for place in 0..3 {
            self.decimal(octet_at(place, address));
            self.octet(b'.');
        }
        self.decimal(octet_at(3, address));
    }

    // Writes a group of 16 bits.
    fn group(&mut self, group: u64)
        requires { (self.old.at < 2 ^ 16) × (group < 65536) }
        ensures written { Writes (group_text group) self.old self.new }
        ensures kept { SameArea self.old self.new }
        ensures bound { self.new.at ≤ self.old.at + 4 }
    {
        self.octet(digit(group / 4096));
        self.octet(digit(group / 256 % 16));
        self.octet(digit(group / 16 % 16));
        self.octet(digit(group % 16));
    }

    // Writes an IPv6 address.
    fn ipv6(&mut self, address: u128)
        requires { self.old.at < 2 ^ 15 }
        ensures written { Writes (ipv6_text address) self.old self.new }
        ensures kept { SameArea self.old self.new }
        ensures bound { self.new.at ≤ self.old.at + 128 }
    {
        // by place, likewise
        for place in 0..7 {
            self.group(group_at(place, address));
            self.octet(b':');
        }
        self.group(group_at(7, address));
    }

    // Writes an address.
    fn address(&mut self, family: Family, address: u128)
        requires { self.old.at < 2 ^ 15 }
        ensures written { Writes (address_text family address) self.old self.new }
        ensures kept { SameArea self.old self.new }
        ensures bound { self.new.at ≤ self.old.at + 128 }
    {
        match family {
            Family::Ipv4 => self.ipv4(address),
            Family::Ipv6 => self.ipv6(address),
        }
    }
}

// Writes the line of a payload at the front of the area, as far as the area goes, and answers its length.
pub fn put_line(area: &mut [u8], p: Payload) -> usize
    ensures written { Written (line_text p) area.old 0 area.new result }
    ensures bound { result ≤ 256 }
{
    let mut text = Writer { area, at: 0 };
    text.word(b"asn=");
    text.decimal(u64::from(p.asn));
    text.word(b" prefix=");
    text.address(p.prefix.family, p.prefix.address);
    text.word(b"/");
    text.decimal(u64::from(p.prefix.length));
    text.word(b" max=");
    text.decimal(u64::from(p.max));
    text.word(b"\n");
    text.at
}

// Writes the first line, which says how many payloads there are, likewise.
pub fn put_head(area: &mut [u8], count: usize) -> usize
    ensures written { Written (head_text count) area.old 0 area.new result }
    ensures bound { result ≤ 256 }
{
    let mut text = Writer { area, at: 0 };
    text.word(b"payloads=");
    text.decimal(count as u64);
    text.word(b"\n");
    text.at
}

// The length of the line of a payload.
fn line_size(p: Payload) -> usize
    ensures { result ≡ length (line_text p) }
{
    let mut none = [0u8; 0];
    put_line(&mut none, p)
}

// The length of the first line.
fn head_size(count: usize) -> usize
    ensures { result ≡ length (head_text count) }
{
    let mut none = [0u8; 0];
    put_head(&mut none, count)
}

// The length of the text of a list, where it is no longer than the room.
fn measure(payloads: &[Payload], room: usize) -> Result<usize, Rule>
    ensures { result ≡ room_for (list_text payloads.now) room }
{
    let head = head_size(payloads.len());
    if room < head {
        return Err(Rule::Area);
    }
    let mut left = room - head;
    for p in payloads {
        let size = line_size(*p);
        if left < size {
            return Err(Rule::Area);
        }
        left -= size;
    }
    Ok(room - left)
}

// Writes the text of a list, which the area has room for, at the front of the area.
fn write_list(payloads: &[Payload], area: &mut [u8])
    requires { length (list_text payloads.now) ≤ length area.old }
    ensures { area.new ≡ list_text payloads.now ++ drop (length (list_text payloads.now)) area.old }
{
    let mut at = put_head(area, payloads.len());
    for p in payloads {
        at += put_line(&mut area[at..], *p);
    }
}

// Writes the text of a list at the front of the area, and answers how many octets it took. Refused where the area
// is too short.
pub fn print(list: &PayloadList<'_>, area: &mut [u8]) -> Result<usize, Rule>
    ensures value { result ≡ room_for (list_text (held list.now)) (length area.old) }
    ensures after { area.new ≡ laid result (list_text (held list.now)) area.old }
{
    let payloads = list.payloads();
    let size = measure(payloads, area.len())?;
    write_list(payloads, area);
    Ok(size)
}

// A text is the text of one list of lawful payloads.
pub fn texts_stand() -> bool
    ensures shown { result ≡ true }
    ensures theorem { TextTells }
{
    true
}
