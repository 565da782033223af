// What a search of lent bytes gives: a part of them, or a refusal; and the same as a struct, with the empty part beside a refusal's number.
#![tactic(auto)]

ghost use Rattle.std.specs.Prelude.{◌≡◌, ◌+◌, ◌≤◌, length};
ghost use Rattle.rules.specs.Parts.{refused, part, part_at};
ghost use Rattle.parts.specs.Found.{placed, found_at};

use codes::Refusal;
use rules::{Found, FoundAt};

// Where a part lies: its first byte, and its length, header included.
#[derive(Clone, Copy, Debug, PartialEq, Eq)]
pub struct Part {
    pub start: usize,
    pub size: usize,
}

// The part of the bytes, where they lie.
pub fn cut<'a>(b: &'a [u8], at: Part) -> &'a [u8]
    requires { at.start + at.size ≤ length b.now }
    ensures { (result.now ≡ part (placed at) b.now) × (result.ref_ptr ≡ part_at (placed at) b.entry.ref_ptr) }
{
    let start = at.start;
    let end = at.start + at.size;
    &b[start..end]
}

// No part.
const NONE: FoundAt = FoundAt {
    number: 0,
    start: 0,
    size: 0,
};

// What is handed back beside a refusal number.
pub fn refusal(number: u8) -> FoundAt
    ensures { result ≡ refused number }
{
    FoundAt { number, ..NONE }
}

// As it crosses to C: the empty part beside the number of a refusal, written out, since by `refusal` an image search takes four instructions more.
// Stays: a function, since a From between FoundAt and Result, both of other crates, may not be written here.
pub fn found_at(found: Result<Part, Refusal>) -> FoundAt
    ensures { result ≡ found_at found }
{
    match found {
        Ok(Part { start, size }) => FoundAt {
            number: 0,
            start,
            size,
        },
        Err(refusal) => FoundAt {
            number: u8::from(refusal),
            start: 0,
            size: 0,
        },
    }
}

// With the part itself: that of the bytes which was found, or beside a refusal the empty one, where the bytes begin.
pub fn found<'a>(b: &'a [u8], at: Result<Part, Refusal>) -> Found<'a>
    requires { (found_at at).start + (found_at at).size ≤ length b.now }
    ensures { (result.number ≡ (found_at at).number)
        × (result.part.now ≡ part (found_at at) b.now)
        × (result.part.ref_ptr ≡ part_at (found_at at) b.entry.ref_ptr) }
{
    let FoundAt {
        number,
        start,
        size,
    } = found_at(at);
    Found {
        number,
        part: cut(b, Part { start, size }),
    }
}
