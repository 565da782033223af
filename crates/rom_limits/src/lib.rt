// The limits of the image search: document 02, a.
#![tactic(auto)]

ghost use Rattle.std.specs.Prelude.{◌<◌, ◌≤◌};

use fixtures::ROM_ROOM;
use print::Output;
use std::io;

// The end of a line: the number, and where the image lies in a ROM.
fn search(rt: &impl Print, rom: &[u8], vendor: u32, device: u32, code_type: u32) -> io::Result<()> {
    let outcome = fixtures::search_rom(rom, vendor, device, code_type);
    let start = outcome.map_or(0, |part| part.start);
    let size = outcome.map_or(0, |part| part.size);
    println!(rt; ": {}, part {start} {size}", codes::number(outcome))
}

// These three asked for.
fn asked(rt: &impl Print, vendor: u32, device: u32, code_type: u32) -> io::Result<()> {
    print!(rt; "asked {vendor:#x} {device:#x} {code_type:#x}")?;
    search(
        rt,
        fixtures::two_images().split_at(1024).0,
        vendor,
        device,
        code_type,
    )
}

// A byte of the two images is this.
fn byte(rt: &impl Print, at: usize, value: u8, code_type: u32) -> io::Result<()>
    requires { at < 1024 }
{
    let mut rom = fixtures::two_images();
    rom[at] = value;
    print!(rt; "byte {at} {value} {code_type}")?;
    search(rt, rom.split_at(1024).0, 0x10ec, 0x8139, code_type)
}

// So many bytes of the two images, and zeros behind them.
fn lent(rt: &impl Print, bytes: usize, code_type: u32) -> io::Result<()>
    requires { bytes ≤ 1536 }
{
    print!(rt; "lent {bytes} {code_type}")?;
    search(
        rt,
        &fixtures::two_images()[..bytes],
        0x10ec,
        0x8139,
        code_type,
    )
}

// One image, the last, with this pointer, in so many bytes.
fn pointer(rt: &impl Print, pointer: u16, bytes: usize) -> io::Result<()>
    requires { (pointer ≤ 1508) × (bytes ≤ 1536) }
{
    let mut rom = [0; ROM_ROOM];
    fixtures::put_image(&mut rom, 0, pointer, 0, 0x80);
    print!(rt; "pointer {pointer} {bytes}")?;
    search(rt, &rom[..bytes], 0x10ec, 0x8139, 0)
}

// The first image has so many units of 512 bytes and this indicator; another, the last, stands at a byte.
fn units(rt: &impl Print, units: u8, indicator: u8, second: usize, code_type: u32) -> io::Result<()>
    requires { second ≤ 1024 }
{
    let mut rom = [0; ROM_ROOM];
    fixtures::put_image(&mut rom, second, 28, 3, 0x80);
    fixtures::put_image(&mut rom, 0, 28, 0, indicator);
    rom[44] = units;
    print!(rt; "units {units} {indicator} {second} {code_type}")?;
    search(rt, &rom, 0x10ec, 0x8139, code_type)
}

// "the first image with the asked vendor, device and code type (its structure's own fields; a device list doesn't count)"
fn matches(rt: &impl Print) -> io::Result<()> {
    println!(rt;
        "(asked: vendor, device, code type; of two images of 0x10ec and 0x8139, code types 0 and 3, each with a device list of 0x8168)"
    )?;
    asked(rt, 0x10ec, 0x8139, 0)?;
    asked(rt, 0x10ec, 0x8139, 3)?;
    asked(rt, 0x10ec, 0x8139, 1)?;
    asked(rt, 0x10ed, 0x8139, 0)?;
    asked(rt, 0x11ec, 0x8139, 0)?;
    asked(rt, 0x10ec, 0x8138, 0)?;
    asked(rt, 0x10ec, 0x8039, 0)?;
    asked(rt, 0x10ec, 0x8168, 0)?;
    asked(rt, 0x0001_10ec, 0x8139, 0)?;
    asked(rt, 0x10ec, 0x0001_8139, 0)?;
    asked(rt, 0x10ec, 0x8139, 256)?;
    Ok(())
}

// "every signature is right"; the first of two matches; "the whole chain is checked before any image is chosen"
fn bytes(rt: &impl Print) -> io::Result<()> {
    println!(rt; "(byte: where in these two images, what; code type asked for)")?;
    byte(rt, 0, 0x54, 3)?;
    byte(rt, 1, 0xab, 3)?;
    byte(rt, 28, 0x51, 3)?;
    byte(rt, 29, 0x44, 3)?;
    byte(rt, 30, 0x4a, 3)?;
    byte(rt, 31, 0x53, 3)?;
    byte(rt, 512, 0x54, 0)?;
    byte(rt, 513, 0xab, 0)?;
    byte(rt, 540, 0x51, 0)?;
    byte(rt, 543, 0x53, 0)?;
    byte(rt, 24, 29, 3)?;
    byte(rt, 536, 29, 0)?;
    byte(rt, 2, 0xff, 3)?;
    byte(rt, 48, 3, 3)?;
    byte(rt, 560, 0, 0)?;
    byte(rt, 560, 0, 3)?;
    Ok(())
}

// "length in units of 512 bytes", "no length is 0", "every image .. inside the ROM"
fn lengths(rt: &impl Print) -> io::Result<()> {
    byte(rt, 44, 0, 0)?;
    byte(rt, 44, 2, 0)?;
    byte(rt, 45, 1, 0)?;
    byte(rt, 556, 0, 0)?;
    byte(rt, 556, 2, 0)?;
    byte(rt, 557, 1, 0)?;
    println!(rt;
        "(units: those of the first image, its indicator, where the second stands, code type asked for, in 1536 bytes)"
    )?;
    units(rt, 2, 0, 1024, 3)?;
    units(rt, 2, 0, 512, 3)?;
    units(rt, 3, 0x80, 1024, 0)?;
    units(rt, 4, 0x80, 1024, 0)?;
    Ok(())
}

// "last-image bit"
fn indicators(rt: &impl Print) -> io::Result<()> {
    println!(rt; "(byte: as above)")?;
    byte(rt, 49, 0x7f, 3)?;
    byte(rt, 49, 0x80, 3)?;
    byte(rt, 49, 0x80, 0)?;
    byte(rt, 561, 0, 0)?;
    byte(rt, 561, 0x7f, 0)?;
    byte(rt, 561, 0xff, 0)?;
    Ok(())
}

// "broken before or in its last image": bytes behind it are not looked at
fn ends(rt: &impl Print) -> io::Result<()> {
    println!(rt; "(lent: bytes of these two images and zeros; code type asked for)")?;
    lent(rt, 0, 0)?;
    lent(rt, 1, 0)?;
    lent(rt, 25, 0)?;
    lent(rt, 26, 0)?;
    lent(rt, 511, 0)?;
    lent(rt, 512, 0)?;
    lent(rt, 513, 0)?;
    lent(rt, 1023, 0)?;
    lent(rt, 1024, 0)?;
    lent(rt, 1025, 3)?;
    lent(rt, 1536, 1)?;
    Ok(())
}

// "the 24 bytes from its structure's start lie inside the ROM"; nothing more is asked of where it lies
fn pointers(rt: &impl Print) -> io::Result<()> {
    println!(rt; "(pointer: of one image of 512 bytes; bytes lent)")?;
    pointer(rt, 488, 512)?;
    pointer(rt, 489, 512)?;
    pointer(rt, 489, 513)?;
    pointer(rt, 26, 512)?;
    pointer(rt, 27, 512)?;
    pointer(rt, 512, 535)?;
    pointer(rt, 512, 536)?;
    pointer(rt, 1508, 1531)?;
    pointer(rt, 1508, 1532)?;
    Ok(())
}

fn lines_to(rt: &impl Print) -> io::Result<()> {
    println!(rt; "Images of an expansion ROM")?;
    matches(rt)?;
    bytes(rt)?;
    lengths(rt)?;
    indicators(rt)?;
    ends(rt)?;
    pointers(rt)?;
    Ok(())
}

// Output gives no error.
pub fn lines() {
    let _ = lines_to(&Output);
}
