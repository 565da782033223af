// A call of the writer, what it is given, and what it leaves.
ghost use Rattle.std.specs.Prelude.{◌<◌, ◌≤◌};

use codes::Refusal;
use print::Fours;
use rules::{Masks, Settings};
use std::fmt;

// The bytes of a buffer; the first ones are lent, and each is 0xaa before the call. No record below has such a byte.
pub const ROOM: usize = 128;

// What the call gave, and the buffer.
#[derive(Clone, Copy)]
pub struct Left {
    pub outcome: Result<usize, Refusal>,
    pub bytes: [u8; ROOM],
}

// The number and the length, which is 0 where the call is refused.
impl fmt::Display for Left {
    fn fmt<W: fmt::Write>(&self, f: &mut fmt::Formatter<W>) -> fmt::Result {
        write!(
            f,
            "{}, length {}",
            codes::number(self.outcome),
            self.outcome.unwrap_or(0)
        )
    }
}

pub fn write(s: Settings, lent: usize) -> Left
    requires { lent ≤ 128 }
{
    let mut bytes = [0xaa; ROOM];
    let outcome = writer::write_records(s, &mut bytes[..lent]);
    Left { outcome, bytes }
}

fn pair(and: u32, or: u32) -> Masks {
    Masks { and, or }
}

// Register k, from 0, has the AND mask 0xf0e0d0c0 + (k + 1) x 0x01010101 and the OR mask 0x10204080 + (k + 1) x 0x01010101; Device Control and Link Control,
// registers 4 and 5, have the low halves. So the sixteen differ, and each OR mask lies within its AND mask.
fn different_masks() -> [Masks; 8] {
    [
        pair(0xf1e1_d1c1, 0x1121_4181),
        pair(0xf2e2_d2c2, 0x1222_4282),
        pair(0xf3e3_d3c3, 0x1323_4383),
        pair(0xf4e4_d4c4, 0x1424_4484),
        pair(0xd5c5, 0x4585),
        pair(0xd6c6, 0x4686),
        pair(0xf7e7_d7c7, 0x1727_4787),
        pair(0xf8e8_d8c8, 0x1828_4888),
    ]
}

// Which records are present: the flags of types 0, 1 and 2.
#[derive(Clone, Copy)]
pub struct Flags(pub u8, pub u8, pub u8);

impl fmt::Display for Flags {
    fn fmt<W: fmt::Write>(&self, f: &mut fmt::Formatter<W>) -> fmt::Result {
        write!(f, "{} {} {}", self.0, self.1, self.2)
    }
}

// The type 0 and type 1 records of the example of document 002 and a type 2 record with these masks, by their flags.
pub fn settings(flags: Flags) -> Settings {
    Settings {
        express: fixtures::express(different_masks()),
        has_pci: flags.0,
        has_pci_x: flags.1,
        has_express: flags.2,
        ..fixtures::example_settings()
    }
}

// The settings with other masks of register k.
pub fn with_masks(s: Settings, k: usize, and: u32, or: u32) -> Settings
    requires { k < 8 }
{
    let mut m = different_masks();
    m[k] = pair(and, or);
    Settings {
        express: fixtures::express(m),
        ..s
    }
}

// A record, or the bytes in its place: tag and length, then fours.
#[derive(Clone, Copy)]
pub struct Record<'a>(pub &'a [u8]);

impl fmt::Display for Record<'_> {
    fn fmt<W: fmt::Write>(&self, f: &mut fmt::Formatter<W>) -> fmt::Result {
        match self.0.split_at_checked(3) {
            Some((head, value)) => write!(f, ",{}{}", Fours(head), Fours(value)),
            None => Ok(()),
        }
    }
}
