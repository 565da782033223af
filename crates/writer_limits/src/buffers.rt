// The buffer's length, the records that are present, and which refusal comes first: "number 15 when the buffer is too short for the result; 14 first".
ghost use Rattle.std.specs.Prelude.{◌<◌, ◌≤◌};

use crate::writing::{Flags, settings, with_masks, write};
use rules::{Masks, PciSetting, PciXSetting, Settings};
use std::io;

// The end of a line: the number, the length, and how many of the 128 bytes are not 0xaa.
fn counted(rt: &impl Print, s: Settings, lent: usize) -> io::Result<()>
    requires { lent ≤ 128 }
{
    let l = write(s, lent);
    let changed = l.bytes.iter().filter(|b| **b != 0xaa).count();
    println!(rt; ": {l}, changed {changed}")
}

// Flags, and bytes lent.
fn records(rt: &impl Print, flags: Flags, lent: usize) -> io::Result<()>
    requires { lent ≤ 128 }
{
    print!(rt; "records {flags} {lent}")?;
    counted(rt, settings(flags), lent)
}

// The settings, where the values of one type break their ranges.
fn broken(record_type: u8, s: Settings) -> Settings {
    match record_type {
        0 => Settings {
            pci: PciSetting {
                cache_line_size: 256,
                latency_timer: 256,
                enable_serr: 2,
                enable_perr: 2,
            },
            ..s
        },
        1 => Settings {
            pci_x: PciXSetting {
                maximum_memory_read_byte_count: 4,
                average_maximum_outstanding_split_transactions: 8,
                total_maximum_outstanding_split_transactions: 8,
            },
            ..s
        },
        _ => Settings {
            express: fixtures::express([Masks {
                and: 0x1_0000,
                or: 0x1_0000,
            }; 8]),
            ..s
        },
    }
}

fn bad(rt: &impl Print, record_type: u8, flags: Flags, lent: usize) -> io::Result<()>
    requires { lent ≤ 128 }
{
    print!(rt; "bad {record_type} {flags} {lent}")?;
    counted(rt, broken(record_type, settings(flags)), lent)
}

// Register k has a senseless pair: bit 0 is clear in AND and set in OR.
fn senseless(rt: &impl Print, k: usize, flags: Flags, lent: usize) -> io::Result<()>
    requires { (k < 8) × (lent ≤ 128) }
{
    print!(rt; "senseless {k} {flags} {lent}")?;
    counted(rt, with_masks(settings(flags), k, 0xfe, 0xf), lent)
}

// Each register in turn, with room for all three records.
fn each_senseless(rt: &impl Print, express: u8) -> io::Result<()> {
    for k in 0..8 {
        senseless(rt, k, Flags(1, 1, express), 113)?;
    }
    Ok(())
}

// "hands back their length"; "leaving the rest untouched"
fn lengths(rt: &impl Print) -> io::Result<()> {
    records(rt, Flags(1, 1, 1), 113)?;
    records(rt, Flags(1, 1, 1), 112)?;
    records(rt, Flags(1, 1, 1), 114)?;
    records(rt, Flags(1, 1, 1), 128)?;
    records(rt, Flags(1, 1, 1), 0)?;
    records(rt, Flags(1, 0, 0), 23)?;
    records(rt, Flags(1, 0, 0), 22)?;
    records(rt, Flags(0, 1, 0), 19)?;
    records(rt, Flags(0, 1, 0), 18)?;
    records(rt, Flags(0, 0, 1), 71)?;
    records(rt, Flags(0, 0, 1), 70)?;
    records(rt, Flags(1, 1, 0), 42)?;
    records(rt, Flags(1, 1, 0), 41)?;
    records(rt, Flags(1, 0, 1), 94)?;
    records(rt, Flags(1, 0, 1), 93)?;
    records(rt, Flags(0, 1, 1), 90)?;
    records(rt, Flags(0, 1, 1), 89)?;
    Ok(())
}

// "at most one record of each known type": none of them, and any flag but 0
fn flags(rt: &impl Print) -> io::Result<()> {
    records(rt, Flags(0, 0, 0), 0)?;
    records(rt, Flags(0, 0, 0), 1)?;
    records(rt, Flags(0, 0, 0), 128)?;
    records(rt, Flags(255, 0, 0), 128)?;
    records(rt, Flags(0, 255, 0), 128)?;
    records(rt, Flags(0, 0, 255), 128)?;
    records(rt, Flags(2, 128, 255), 113)?;
    records(rt, Flags(2, 128, 255), 112)?;
    Ok(())
}

// "14 first"; the values of a record that is not there count for nothing
fn orders(rt: &impl Print) -> io::Result<()> {
    bad(rt, 0, Flags(1, 1, 1), 128)?;
    bad(rt, 0, Flags(1, 1, 1), 112)?;
    bad(rt, 0, Flags(1, 1, 1), 0)?;
    bad(rt, 1, Flags(1, 1, 1), 128)?;
    bad(rt, 1, Flags(1, 1, 1), 112)?;
    bad(rt, 1, Flags(1, 1, 1), 0)?;
    bad(rt, 2, Flags(1, 1, 1), 128)?;
    bad(rt, 2, Flags(1, 1, 1), 112)?;
    bad(rt, 2, Flags(1, 1, 1), 0)?;
    bad(rt, 0, Flags(255, 0, 0), 22)?;
    bad(rt, 1, Flags(0, 255, 0), 18)?;
    bad(rt, 2, Flags(0, 0, 255), 70)?;
    bad(rt, 0, Flags(0, 1, 1), 128)?;
    bad(rt, 0, Flags(0, 1, 1), 89)?;
    bad(rt, 1, Flags(1, 0, 1), 128)?;
    bad(rt, 1, Flags(1, 0, 1), 93)?;
    bad(rt, 2, Flags(1, 1, 0), 128)?;
    bad(rt, 2, Flags(1, 1, 0), 41)?;
    bad(rt, 0, Flags(0, 0, 0), 0)?;
    Ok(())
}

// Document 02, h: 14 before 15; the masks of a type 2 record that is not there count for nothing
fn senseless_pairs(rt: &impl Print) -> io::Result<()> {
    each_senseless(rt, 1)?;
    each_senseless(rt, 0)?;
    senseless(rt, 0, Flags(1, 1, 1), 112)?;
    senseless(rt, 7, Flags(0, 0, 1), 71)?;
    senseless(rt, 7, Flags(0, 0, 1), 70)?;
    senseless(rt, 7, Flags(0, 0, 255), 0)?;
    senseless(rt, 7, Flags(1, 1, 0), 42)?;
    senseless(rt, 7, Flags(1, 1, 0), 41)?;
    senseless(rt, 7, Flags(0, 0, 0), 0)?;
    Ok(())
}

pub fn lines(rt: &impl Print) -> io::Result<()> {
    println!(rt;
        "(records: flags of types 0, 1 and 2, bytes lent; how many of 128 bytes of 0xaa are changed)"
    )?;
    lengths(rt)?;
    flags(rt)?;
    println!(rt; "(bad: type whose values break their ranges; then the same)")?;
    orders(rt)?;
    println!(rt; "(senseless: register whose pair it is; then the same)")?;
    senseless_pairs(rt)?;
    Ok(())
}
