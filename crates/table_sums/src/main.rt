// The sum of bytes by itself, at every length from 0 to 64 and at the lengths of MCFG tables of 0 to 64 entries. One line for each length: how many bytes; then their sum modulo 256 if each
// is 1, if each is 255, and if they are 1, 2, 3 and so on. Behind the bytes that are lent there are more of the same kind.
#![tactic(auto)]

ghost use Rattle.std.specs.Prelude.{◌≤◌};

use print::Output;
use std::{array, io};

const ROOM: usize = 1072;

fn line(rt: &impl Print, length: usize) -> io::Result<()>
    requires { length ≤ 1068 }
{
    let ones = words::byte_sum(&[1; ROOM][..length]);
    let full = words::byte_sum(&[255; ROOM][..length]);
    let rising: [u8; ROOM] = array::from_fn(|i| ((1 + i) % 256) as u8);
    println!(rt;
        "bytes {length}: {ones} {full} {}",
        words::byte_sum(&rising[..length])
    )
}

fn lengths(rt: &impl Print) -> io::Result<()> {
    println!(rt; "Of 0 to 64 bytes")?;
    for length in 0..65 {
        line(rt, length)?;
    }
    Ok(())
}

fn tables(rt: &impl Print) -> io::Result<()> {
    println!(rt; "Of tables of 0 to 64 entries")?;
    for entries in 0..65 {
        line(rt, 44 + 16 * entries)?;
    }
    Ok(())
}

fn sums(rt: &impl Print) -> io::Result<()> {
    lengths(rt)?;
    tables(rt)
}

// Output gives no error.
fn main() {
    let _ = sums(&Output);
}
