// The two families of addresses, IPv4 and IPv6, in their order.
//
// `Family` says which, and `Family::width` how many bits an address of the family has. It rests on `std` alone.
#![tactic(auto)]

ghost use Rattle.std.specs.Prelude.{◌≡◌, ◌%◌, ◌≤◌};
ghost use Rattle.family.specs.Widths.{width};

// The family of an address; IPv4 comes before IPv6.
#[derive(Clone, Copy, PartialEq, Eq, PartialOrd, Ord, Debug)]
pub enum Family {
    Ipv4,
    Ipv6,
}

impl Family {
    // How many bits an address has.
    pub fn width(self) -> u8
        ensures value { result ≡ width self }
        ensures whole { result % 8 ≡ 0 }
        ensures most { result ≤ 128 }
    {
        match self {
            Family::Ipv4 => 32,
            Family::Ipv6 => 128,
        }
    }
}
