// The limits of start: the MCFG table and the starting list.
#![tactic(auto)]

use print::Output;
use std::io;

mod mcfg_table;
mod starting_list;

fn lines_to(rt: &impl Print) -> io::Result<()> {
    mcfg_table::lines(rt)?;
    starting_list::lines(rt)?;
    Ok(())
}

// Output gives no error.
pub fn lines() {
    let _ = lines_to(&Output);
}
