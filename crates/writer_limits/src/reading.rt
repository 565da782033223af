// "Reading what was written gives the same records."
ghost use Rattle.std.specs.Prelude.{◌≤◌};

use crate::writing::{Flags, Record, settings, write};
use std::io;

// The end of a line: the number, where the record lies in a block, and its bytes.
fn search(rt: &impl Print, block: &[u8], record_type: u32) -> io::Result<()> {
    let outcome = hpx::search(b"", block, record_type);
    let start = outcome.map_or(0, |part| part.start);
    let size = outcome.map_or(0, |part| part.size);
    let record = hpx::find_record(b"", block, record_type).part;
    println!(rt;
        ": {}, part {start} {size}{}",
        codes::number(outcome),
        Record(record)
    )
}

// Flags, bytes lent, the type looked for in all of them.
fn read(rt: &impl Print, flags: Flags, lent: usize, record_type: u32) -> io::Result<()>
    requires { lent ≤ 128 }
{
    let l = write(settings(flags), lent);
    print!(rt; "read {flags} {lent} {record_type}")?;
    search(rt, &l.bytes[..lent], record_type)
}

// All three, "by rising type".
fn three(rt: &impl Print) -> io::Result<()> {
    read(rt, Flags(1, 1, 1), 113, 0)?;
    read(rt, Flags(1, 1, 1), 113, 1)?;
    read(rt, Flags(1, 1, 1), 113, 2)?;
    read(rt, Flags(1, 1, 1), 113, 3)?;
    Ok(())
}

// One is absent.
fn two(rt: &impl Print) -> io::Result<()> {
    read(rt, Flags(1, 1, 0), 42, 0)?;
    read(rt, Flags(1, 1, 0), 42, 1)?;
    read(rt, Flags(1, 1, 0), 42, 2)?;
    read(rt, Flags(1, 0, 1), 94, 0)?;
    read(rt, Flags(1, 0, 1), 94, 1)?;
    read(rt, Flags(1, 0, 1), 94, 2)?;
    read(rt, Flags(0, 1, 1), 90, 0)?;
    read(rt, Flags(0, 1, 1), 90, 1)?;
    read(rt, Flags(0, 1, 1), 90, 2)?;
    Ok(())
}

// Two are, or all.
fn fewer(rt: &impl Print) -> io::Result<()> {
    read(rt, Flags(1, 0, 0), 23, 0)?;
    read(rt, Flags(1, 0, 0), 23, 2)?;
    read(rt, Flags(0, 1, 0), 19, 1)?;
    read(rt, Flags(0, 1, 0), 19, 0)?;
    read(rt, Flags(0, 0, 1), 71, 2)?;
    read(rt, Flags(0, 0, 1), 71, 1)?;
    read(rt, Flags(0, 0, 0), 0, 0)?;
    Ok(())
}

pub fn lines(rt: &impl Print) -> io::Result<()> {
    println!(rt;
        "(read: flags of types 0, 1 and 2, bytes lent, which are a block then; type looked for, and its record)"
    )?;
    three(rt)?;
    two(rt)?;
    fewer(rt)?;
    Ok(())
}
