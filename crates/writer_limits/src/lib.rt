// The limits of the writer of record blocks: document 02, g and h.
// Stays: bounds of a case (`k < 8` and the like) in the clauses of what prints it; a type for each bound would have to be made in each line.
#![tactic(auto)]

use print::Output;
use std::io;

mod buffers;
mod reading;
mod values;
mod writing;

fn lines_to(rt: &impl Print) -> io::Result<()> {
    println!(rt; "Written record blocks")?;
    values::lines(rt)?;
    buffers::lines(rt)?;
    reading::lines(rt)?;
    Ok(())
}

// Output gives no error.
pub fn lines() {
    let _ = lines_to(&Output);
}
