// What the programs print to, and what their lines are made of beside what the library prints: bytes in fours, lists of numbers.
#![tactic(auto)]

use std::fmt;

mod stdout;

pub use stdout::Output;

// Bytes as stored, in fours, each with a space before them.
#[derive(Clone, Copy)]
pub struct Fours<'a>(pub &'a [u8]);

impl fmt::Display for Fours<'_> {
    fn fmt<W: fmt::Write>(&self, f: &mut fmt::Formatter<W>) -> fmt::Result {
        for (i, b) in self.0.iter().enumerate() {
            if i % 4 == 0 {
                f.write_str(" ")?;
            }
            write!(f, "{b:02x}")?;
        }
        Ok(())
    }
}

// Numbers in base 16, each with a space before it.
#[derive(Clone, Copy)]
pub struct Hexes<'a>(pub &'a [u32]);

impl fmt::Display for Hexes<'_> {
    fn fmt<W: fmt::Write>(&self, f: &mut fmt::Formatter<W>) -> fmt::Result {
        for n in self.0 {
            write!(f, " {n:#x}")?;
        }
        Ok(())
    }
}
