// The ranges: "Number 14 when a value breaks a range in document 01"; senseless masks. One record alone, into a byte more than it has.
ghost use Rattle.std.specs.Prelude.{◌<◌};

use crate::writing::{Flags, Record, settings, with_masks, write};
use rules::{PciSetting, PciXSetting, Settings};
use std::io;

fn type_0(
    rt: &impl Print,
    cache_line_size: u32,
    latency_timer: u32,
    enable_serr: u32,
    enable_perr: u32,
) -> io::Result<()> {
    let l = write(
        Settings {
            pci: PciSetting {
                cache_line_size,
                latency_timer,
                enable_serr,
                enable_perr,
            },
            ..settings(Flags(1, 0, 0))
        },
        24,
    );
    print!(rt; "type 0 {cache_line_size} {latency_timer} {enable_serr} {enable_perr}")?;
    println!(rt; ": {l}{}", Record(l.bytes.split_at(24).0))
}

fn type_1(rt: &impl Print, read_count: u32, average: u32, total: u32) -> io::Result<()> {
    let l = write(
        Settings {
            pci_x: PciXSetting {
                maximum_memory_read_byte_count: read_count,
                average_maximum_outstanding_split_transactions: average,
                total_maximum_outstanding_split_transactions: total,
            },
            ..settings(Flags(0, 1, 0))
        },
        20,
    );
    println!(rt;
        "type 1 {read_count} {average} {total}: {l}{}",
        Record(l.bytes.split_at(20).0)
    )
}

fn masks(rt: &impl Print, k: usize, and: u32, or: u32) -> io::Result<()>
    requires { k < 8 }
{
    let l = write(with_masks(settings(Flags(0, 0, 1)), k, and, or), 72);
    let at = 7 + 8 * k;
    print!(rt; "masks {k} {and:#x} {or:#x}: {l}")?;
    println!(rt;
        ", {:#x} {:#x}",
        words::read32(&l.bytes, at),
        words::read32(&l.bytes, 4 + at)
    )
}

// Each register in turn.
fn each(rt: &impl Print, and: u32, or: u32) -> io::Result<()> {
    for k in 0..8 {
        masks(rt, k, and, or)?;
    }
    Ok(())
}

// "type 0 cache line and latency at most 255, SERR and PERR 0 or 1"
fn pci(rt: &impl Print) -> io::Result<()> {
    println!(rt; "(type 0: cache line, latency, SERR, PERR; into 24 bytes of 0xaa, which follow)")?;
    type_0(rt, 8, 64, 1, 0)?;
    type_0(rt, 0, 0, 0, 0)?;
    type_0(rt, 255, 64, 1, 0)?;
    type_0(rt, 256, 64, 1, 0)?;
    type_0(rt, 65536, 64, 1, 0)?;
    type_0(rt, 8, 255, 1, 0)?;
    type_0(rt, 8, 256, 1, 0)?;
    type_0(rt, 8, 65536, 1, 0)?;
    type_0(rt, 8, 64, 0, 1)?;
    type_0(rt, 8, 64, 2, 1)?;
    type_0(rt, 8, 64, 256, 1)?;
    type_0(rt, 8, 64, 1, 1)?;
    type_0(rt, 8, 64, 1, 2)?;
    type_0(rt, 8, 64, 1, 256)?;
    Ok(())
}

// "type 1 read count at most 3, both split counts at most 7"
fn pci_x(rt: &impl Print) -> io::Result<()> {
    println!(rt;
        "(type 1: read count, average and total of split transactions; into 20 bytes of 0xaa, which follow)"
    )?;
    type_1(rt, 3, 4, 7)?;
    type_1(rt, 0, 0, 0)?;
    type_1(rt, 4, 4, 7)?;
    type_1(rt, 256, 4, 7)?;
    type_1(rt, 2, 7, 5)?;
    type_1(rt, 2, 8, 5)?;
    type_1(rt, 2, 256, 5)?;
    type_1(rt, 2, 4, 7)?;
    type_1(rt, 2, 4, 8)?;
    type_1(rt, 2, 4, 256)?;
    Ok(())
}

// "those of Device Control and Link Control at most 65535"
fn limited(rt: &impl Print) -> io::Result<()> {
    masks(rt, 4, 0xffff, 0)?;
    masks(rt, 4, 0x1_0000, 0)?;
    masks(rt, 4, 0x8000_0000, 0)?;
    masks(rt, 4, 0xffff, 0xffff)?;
    masks(rt, 4, 0xffff, 0x1_0000)?;
    masks(rt, 4, 0x1_0000, 0x1_0000)?;
    masks(rt, 4, 0xffff, 0x8000_0000)?;
    masks(rt, 5, 0xffff, 0)?;
    masks(rt, 5, 0x1_0000, 0)?;
    masks(rt, 5, 0x8000_0000, 0)?;
    masks(rt, 5, 0xffff, 0xffff)?;
    masks(rt, 5, 0xffff, 0x1_0000)?;
    masks(rt, 5, 0x1_0000, 0x1_0000)?;
    masks(rt, 5, 0xffff, 0x8000_0000)?;
    Ok(())
}

// "type 2 eight AND/OR pairs": the six of the error registers have no limit
fn free(rt: &impl Print) -> io::Result<()> {
    masks(rt, 0, 0xffff_ffff, 0)?;
    masks(rt, 0, 0xffff_ffff, 0xffff_ffff)?;
    masks(rt, 1, 0xffff_ffff, 0xffff_ffff)?;
    masks(rt, 2, 0xffff_ffff, 0xffff_ffff)?;
    masks(rt, 3, 0xffff_ffff, 0xffff_ffff)?;
    masks(rt, 6, 0xffff_ffff, 0xffff_ffff)?;
    masks(rt, 7, 0xffff_ffff, 0xffff_ffff)?;
    Ok(())
}

// Document 02, h: "a bit clear in the AND mask and set in the OR mask". Bits 1 to 3 are set, 4 to 7 kept, the rest cleared; bit 0 is set, then senseless.
fn pairs(rt: &impl Print) -> io::Result<()> {
    each(rt, 0xff, 0xf)?;
    each(rt, 0xfe, 0xf)?;
    Ok(())
}

// One bit cleared, set, senseless; an AND mask of 0, and single bits; the pair of the bench sheet, and with OR's bits in AND
fn bits(rt: &impl Print) -> io::Result<()> {
    masks(rt, 0, 0xffff_fffe, 0)?;
    masks(rt, 0, 0xffff_ffff, 1)?;
    masks(rt, 0, 0xffff_fffe, 1)?;
    masks(rt, 7, 0x7fff_ffff, 0)?;
    masks(rt, 7, 0xffff_ffff, 0x8000_0000)?;
    masks(rt, 7, 0x7fff_ffff, 0x8000_0000)?;
    masks(rt, 4, 0x7fff, 0x8000)?;
    masks(rt, 5, 0x7fff, 0x8000)?;
    masks(rt, 3, 0, 0)?;
    masks(rt, 3, 0, 1)?;
    masks(rt, 3, 2, 1)?;
    masks(rt, 0, 0xffff_fff0, 0x6)?;
    masks(rt, 0, 0xffff_fff6, 0x6)?;
    Ok(())
}

pub fn lines(rt: &impl Print) -> io::Result<()> {
    pci(rt)?;
    pci_x(rt)?;
    println!(rt;
        "(masks: register of a type 2 record, from 0, Device Control 4, Link Control 5; its AND mask, its OR mask; into 72 bytes of 0xaa, and the DWORDs where the two go)"
    )?;
    limited(rt)?;
    free(rt)?;
    pairs(rt)?;
    bits(rt)?;
    Ok(())
}
