// The MCFG table: start with no rows.
ghost use Rattle.std.specs.Prelude.{◌<◌, ◌≤◌};

use fixtures::{Entries, MCFG_ROOM};
use rules::Entry;
use std::io;

// So many entries, each of a segment of its own, the first with base 0xe0000000, for buses 0 to 255.
fn sound(count: usize) -> [u8; MCFG_ROOM]
    requires { count ≤ 80 }
{
    fixtures::mcfg(Entries {
        base: 0xe000_0000,
        first_bus: 0,
        last_bus: 255,
        count,
    })
}

// The number of start with these bytes and no rows.
fn judged(m: &[u8]) -> u8 {
    let (number, _) = fixtures::start_on(m, fixtures::rows_by_bus(), 0);
    number
}

// One byte of a sound table of one entry is this; the sum is made right again.
fn byte(rt: &impl Print, at: usize, value: u8) -> io::Result<()>
    requires { at < 60 }
{
    let mut m = sound(1);
    m[at] = value;
    fixtures::seal(&mut m, 60);
    println!(rt; "byte {at} {value}: {}", judged(m.split_at(60).0))
}

// A sound table of 60 bytes, but that the sum of all bytes is so much more than a multiple of 256.
pub fn with_sum(more: u8) -> [u8; MCFG_ROOM] {
    let mut m = sound(1);
    m[9] = m[9].wrapping_add(more);
    m
}

fn sum(rt: &impl Print, more: u8) -> io::Result<()> {
    println!(rt; "sum {more}: {}", judged(with_sum(more).split_at(60).0))
}

// The table of 44 bytes, with this checksum: the others sum to 330.
fn checksum(rt: &impl Print, value: u8) -> io::Result<()> {
    let mut m = sound(0);
    m[9] = value;
    println!(rt; "checksum {value}: {}", judged(m.split_at(44).0))
}

// The length field, and so many bytes: zeros behind the header.
fn length(rt: &impl Print, field: u32, lent: usize) -> io::Result<()>
    requires { lent ≤ 1324 }
{
    let mut m = sound(0);
    fixtures::seal(&mut m, field);
    println!(rt; "length {field} {lent}: {}", judged(&m[..lent]))
}

// So many entries.
fn entries(rt: &impl Print, count: usize) -> io::Result<()>
    requires { count ≤ 80 }
{
    println!(rt;
        "entries {count}: {}",
        judged(&sound(count)[..44 + 16 * count])
    )
}

// One entry.
fn one(rt: &impl Print, base: u64, first_bus: u8, last_bus: u8) -> io::Result<()> {
    let m = fixtures::mcfg(Entries {
        base,
        first_bus,
        last_bus,
        count: 1,
    });
    println!(rt;
        "entry {base:#x} {first_bus} {last_bus}: {}",
        judged(m.split_at(60).0)
    )
}

// An MCFG table of three entries, of 92 bytes.
pub fn of_three(entries: [Entry; 3]) -> [u8; MCFG_ROOM] {
    let mut m = sound(0);
    for (i, e) in entries.iter().enumerate() {
        fixtures::put_entry(&mut m, i, *e);
    }
    fixtures::seal(&mut m, 92);
    m
}

pub fn entry(segment: u16, base: u64, start_bus: u8, end_bus: u8) -> Entry {
    Entry {
        base,
        segment,
        start_bus,
        end_bus,
    }
}

// Three entries: segment 0, base 0xe0000000, buses 16 to 31, window 0xe1000000 to 0xe1ffffff; segment 2, base 0, bus 0; and this one.
fn third(rt: &impl Print, segment: u16, base: u64, first: u8, last: u8) -> io::Result<()> {
    let m = of_three([
        entry(0, 0xe000_0000, 16, 31),
        entry(2, 0, 0, 0),
        entry(segment, base, first, last),
    ]);
    println!(rt;
        "third entry {base:#x} {segment} {first} {last}: {}",
        judged(m.split_at(92).0)
    )
}

// "the four letters are there"
fn letters(rt: &impl Print) -> io::Result<()> {
    println!(rt; "(byte: where, what)")?;
    byte(rt, 0, b'M')?;
    byte(rt, 0, b'N')?;
    byte(rt, 1, b'D')?;
    byte(rt, 2, b'G')?;
    byte(rt, 3, b'H')?;
    Ok(())
}

// "at least 44 bytes are lent; length field equals the lent length"
fn lengths(rt: &impl Print) -> io::Result<()> {
    println!(rt; "(length: length field, bytes lent)")?;
    length(rt, 44, 44)?;
    length(rt, 43, 43)?;
    length(rt, 40, 40)?;
    length(rt, 28, 28)?;
    length(rt, 43, 44)?;
    length(rt, 45, 44)?;
    length(rt, 65580, 44)?;
    length(rt, 16777260, 44)?;
    Ok(())
}

// "revision 1; all bytes sum to a multiple of 256"
fn revisions_and_sums(rt: &impl Print) -> io::Result<()> {
    println!(rt; "(byte: where, what; sum: sum of all bytes; checksum: of the table of 44 bytes)")?;
    byte(rt, 8, 1)?;
    byte(rt, 8, 0)?;
    byte(rt, 8, 2)?;
    byte(rt, 8, 3)?;
    sum(rt, 0)?;
    sum(rt, 1)?;
    sum(rt, 128)?;
    checksum(rt, 182)?;
    checksum(rt, 181)?;
    Ok(())
}

// 0 to 64 whole entries (document 02, e)
fn whole_entries(rt: &impl Print) -> io::Result<()> {
    println!(rt; "(entries: how many; length: length field, bytes lent)")?;
    entries(rt, 0)?;
    entries(rt, 64)?;
    entries(rt, 65)?;
    length(rt, 48, 48)?;
    length(rt, 52, 52)?;
    length(rt, 59, 59)?;
    length(rt, 60, 60)?;
    length(rt, 61, 61)?;
    Ok(())
}

// "start not above end; base a multiple of 2^20; base + (end + 1) x 2^20 at most 2^64"
fn single(rt: &impl Print) -> io::Result<()> {
    println!(rt; "(entry: base, start bus, end bus)")?;
    one(rt, 0xe000_0000, 5, 5)?;
    one(rt, 0xe000_0000, 5, 4)?;
    one(rt, 0xe010_0000, 0, 255)?;
    one(rt, 0xe008_0000, 0, 255)?;
    one(rt, 0xe000_0001, 0, 255)?;
    one(rt, 0xffff_ffff_fff0_0000, 0, 0)?;
    one(rt, 0xffff_ffff_fff0_0000, 0, 1)?;
    one(rt, 0xffff_ffff_fff0_0000, 1, 1)?;
    Ok(())
}

// "entries of one segment share no bus"
fn shared_buses(rt: &impl Print) -> io::Result<()> {
    println!(rt;
        "(third entry: base, segment, start bus, end bus; the first: 0xe0000000 0 16 31; the second: 0x0 2 0 0)"
    )?;
    third(rt, 0, 0x4000_0000, 15, 15)?;
    third(rt, 0, 0x4000_0000, 16, 16)?;
    third(rt, 0, 0x4000_0000, 20, 21)?;
    third(rt, 0, 0x4000_0000, 31, 31)?;
    third(rt, 0, 0x4000_0000, 32, 32)?;
    third(rt, 0, 0x4000_0000, 1, 255)?;
    third(rt, 1, 0x4000_0000, 16, 31)?;
    third(rt, 256, 0x4000_0000, 16, 31)?;
    third(rt, 2, 0x4000_0000, 0, 0)?;
    Ok(())
}

// "the address windows .. share no byte between any two entries"; and a third entry that breaks a rule by itself
fn shared_bytes(rt: &impl Print) -> io::Result<()> {
    third(rt, 1, 0xe000_0000, 0, 15)?;
    third(rt, 1, 0xe010_0000, 0, 15)?;
    third(rt, 1, 0xe200_0000, 0, 15)?;
    third(rt, 1, 0xe1f0_0000, 0, 15)?;
    third(rt, 1, 0xe140_0000, 0, 0)?;
    third(rt, 0, 0xe140_0000, 0, 0)?;
    third(rt, 1, 0x1_e140_0000, 0, 0)?;
    third(rt, 1, 0xe140_0000, 12, 12)?;
    third(rt, 1, 0xe000_0000, 0, 255)?;
    third(rt, 1, 0, 0, 0)?;
    third(rt, 1, 0x4008_0000, 0, 0)?;
    third(rt, 1, 0x4000_0000, 5, 4)?;
    Ok(())
}

// "Reserved bytes are ignored", and no rule names the header's bytes from 10 on
fn reserved(rt: &impl Print) -> io::Result<()> {
    println!(rt; "(byte: where, what)")?;
    byte(rt, 10, 255)?;
    byte(rt, 36, 255)?;
    byte(rt, 40, 255)?;
    byte(rt, 43, 255)?;
    byte(rt, 56, 255)?;
    byte(rt, 59, 255)?;
    Ok(())
}

pub fn lines(rt: &impl Print) -> io::Result<()> {
    println!(rt; "The MCFG table")?;
    letters(rt)?;
    lengths(rt)?;
    revisions_and_sums(rt)?;
    whole_entries(rt)?;
    single(rt)?;
    shared_buses(rt)?;
    shared_bytes(rt)?;
    reserved(rt)?;
    Ok(())
}
