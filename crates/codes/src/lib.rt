// The numbers that cross to C as enums: refusals, kinds of bridges, editions of the control field.
#![tactic(auto)]

ghost use Rattle.std.specs.Prelude.{◌≡◌};
ghost use Rattle.codes.specs.Numbers.{number_of, number, given, DecodesKind, DecodesEdition, edition_of};

use std::fmt;

// The refusals of documents 01 and 02, by their numbers.
#[derive(Clone, Copy, Debug, PartialEq, Eq)]
pub enum Refusal {
    NoSuchBridge = 1,
    NotOwner = 2,
    Framing = 3,
    NoSuchBus = 4,
    BadPlace = 5,
    Mcfg = 6,
    Rows = 7,
    RecordBlock = 8,
    NoRecord = 9,
    Registers = 10,
    NoHotPlug = 11,
    Rom = 12,
    NoImage = 13,
    RecordValue = 14,
    ShortBuffer = 15,
}

impl From<Refusal> for u8 {
    ghost from_gives = { λ refusal n. n ≡ number_of refusal };

    fn from(refusal: Refusal) -> u8 {
        refusal as u8
    }
}

// In short words.
impl fmt::Display for Refusal {
    fn fmt<W: fmt::Write>(&self, f: &mut fmt::Formatter<W>) -> fmt::Result {
        f.write_str(match self {
            Refusal::NoSuchBridge => "the bridge number is not in the table",
            Refusal::NotOwner => "the bridge's owner is not the calling session",
            Refusal::Framing => "_OSC framing",
            Refusal::NoSuchBus => {
                "the bus is outside the bridge's buses, or the address is in no bridge of this session"
            }
            Refusal::BadPlace => "device, function, offset or width",
            Refusal::Mcfg => "the MCFG table breaks a rule",
            Refusal::Rows => "the bridge list breaks a rule",
            Refusal::RecordBlock => "the deciding record block breaks a rule",
            Refusal::NoRecord => "the deciding block has no such record",
            Refusal::Registers => "the register list",
            Refusal::NoHotPlug => "the bridge does not hold control bit 0",
            Refusal::Rom => "the ROM breaks a rule",
            Refusal::NoImage => "the ROM has no such image",
            Refusal::RecordValue => "a value breaks a range",
            Refusal::ShortBuffer => "the buffer is too short",
        })
    }
}

// The number of a call that gave this: 0 where it is done.
pub fn number<T: Copy>(outcome: Result<T, Refusal>) -> u8
    ensures { result ≡ number outcome }
{
    match outcome {
        Ok(_) => 0,
        Err(refusal) => u8::from(refusal),
    }
}

// What kind of host bridge a row is of.
#[derive(Clone, Copy, Debug, PartialEq, Eq)]
pub enum Kind {
    Express = 0,
    Conventional = 1,
}

impl TryFrom<u8> for Kind {
    type Error = Refusal;

    ghost try_from_gives = { DecodesKind };

    fn try_from(kind: u8) -> Result<Self, Refusal> {
        match kind {
            0 => Ok(Kind::Express),
            1 => Ok(Kind::Conventional),
            _ => Err(Refusal::Rows),
        }
    }
}

// The edition of the control field by which a bridge answers _OSC.
#[derive(Clone, Copy, Debug, PartialEq, Eq)]
pub enum Edition {
    V3_0 = 0,
    V3_3 = 1,
}

impl TryFrom<u8> for Edition {
    type Error = Refusal;

    ghost try_from_gives = { DecodesEdition };

    fn try_from(edition: u8) -> Result<Self, Refusal> {
        match edition {
            0 => Ok(Edition::V3_0),
            1 => Ok(Edition::V3_3),
            _ => Err(Refusal::Rows),
        }
    }
}

impl Edition {
    // That of a bridge in the table: what start let in is 0 or 1.
    pub fn of_bridge(edition: u8) -> Edition
        ensures { result ≡ edition_of edition }
    {
        match edition {
            1 => Edition::V3_3,
            _ => Edition::V3_0,
        }
    }
}
