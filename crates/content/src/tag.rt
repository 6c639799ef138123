// The tags of elements by their names: those of the universal kinds, and of the context the ones that layouts want. An element keeps its tag as the octet that it is, since any octet may stand there.

pub const BOOLEAN: u8 = 0x01;

pub const INTEGER: u8 = 0x02;

pub const BIT_STRING: u8 = 0x03;

pub const OCTET_STRING: u8 = 0x04;

pub const NULL: u8 = 0x05;

pub const OID: u8 = 0x06;

pub const ENUMERATED: u8 = 0x0a;

pub const UTF8_STRING: u8 = 0x0c;

pub const PRINTABLE_STRING: u8 = 0x13;

pub const IA5_STRING: u8 = 0x16;

pub const UTC_TIME: u8 = 0x17;

pub const GENERALIZED_TIME: u8 = 0x18;

pub const SEQUENCE: u8 = 0x30;

pub const SET: u8 = 0x31;

// [6] IMPLICIT: a name in an access description.
pub const URI: u8 = 0x86;

// [0] EXPLICIT: a wrapper round another element.
pub const EXPLICIT_0: u8 = 0xa0;
