// The limits of record blocks, the record search and register values.
// Stays: bounds of a case (`k < 8` and the like) in the clauses of what prints it; a type for each bound would have to be made in each line.
#![tactic(auto)]

use print::Output;
use std::io;

mod blocks;
mod registers;

fn lines_to(rt: &impl Print) -> io::Result<()> {
    blocks::lines(rt)?;
    registers::lines(rt)?;
    Ok(())
}

// Output gives no error.
pub fn lines() {
    let _ = lines_to(&Output);
}
