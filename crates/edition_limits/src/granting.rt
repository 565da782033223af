// What a bridge grants that holds nothing, by its edition.
use crate::{call, two_bridges};
use codes::{Edition, Kind};
use std::io;

// A taking call on an Express bridge.
fn grant(
    rt: &impl Print,
    edition: Edition,
    permitted: u32,
    support: u32,
    control: u32,
) -> io::Result<()> {
    let mut t = two_bridges(Kind::Express, edition, permitted);
    print!(rt; "edition {} {permitted:#x}", edition as u8)?;
    call(rt, "", &mut t, 0, support, control)
}

fn grant_3_3(rt: &impl Print, permitted: u32, support: u32, control: u32) -> io::Result<()> {
    grant(rt, Edition::V3_3, permitted, support, control)
}

fn grant_3_0(rt: &impl Print, support: u32, control: u32) -> io::Result<()> {
    grant(rt, Edition::V3_0, 0x1f, support, control)
}

// A taking call on a conventional bridge that permits bit 1, with every support bit.
fn conventional(rt: &impl Print, edition: Edition, control: u32) -> io::Result<()> {
    let mut t = two_bridges(Kind::Conventional, edition, 0x02);
    print!(rt; "conventional {}", edition as u8)?;
    call(rt, "", &mut t, 0, 0x1ff, control)
}

// 000, table 4-5: "it must also set bit 4". The bit with bit 4; without it; with one that is not permitted; where the bit itself is not permitted.
fn with_4(rt: &impl Print, bit: u32) -> io::Result<()> {
    let both = 0x10 | bit;
    grant_3_3(rt, both, 0, both)?;
    grant_3_3(rt, both, 0, bit)?;
    grant_3_3(rt, bit, 0, both)?;
    grant_3_3(rt, 0x10, 0, both)?;
    Ok(())
}

// Bits 4, 6 and 9, which need nothing: permitted, and not.
fn alone(rt: &impl Print) -> io::Result<()> {
    grant_3_3(rt, 0x10, 0, 0x10)?;
    grant_3_3(rt, 0x3ef, 0, 0x10)?;
    grant_3_3(rt, 0x40, 0, 0x40)?;
    grant_3_3(rt, 0x3bf, 0, 0x40)?;
    grant_3_3(rt, 0x200, 0, 0x200)?;
    grant_3_3(rt, 0x1ff, 0, 0x200)?;
    Ok(())
}

// 000, table 4-5, bit 7: "it must also set bit 7 of the Support field .. and bits 3 and 4 of the Control field"; 4.5.2.4: "Firmware is required to maintain ownership of Advanced Error
// Reporting if it retains ownership of Downstream Port Containment Configuration." With all of them; without support bit 7; without 3, 7 or 4; where 3, 7 or 4 is not permitted.
fn containment(rt: &impl Print) -> io::Result<()> {
    grant_3_3(rt, 0x98, 0x80, 0x98)?;
    grant_3_3(rt, 0x98, 0x17f, 0x98)?;
    grant_3_3(rt, 0x98, 0x80, 0x90)?;
    grant_3_3(rt, 0x98, 0x80, 0x18)?;
    grant_3_3(rt, 0x98, 0x80, 0x88)?;
    grant_3_3(rt, 0x90, 0x80, 0x98)?;
    grant_3_3(rt, 0x18, 0x80, 0x98)?;
    grant_3_3(rt, 0x88, 0x80, 0x98)?;
    Ok(())
}

// "the largest set of requested known bits in which each is already held, or is permitted and has all the control bits it needs in the set and its needed support bits declared"
fn largest(rt: &impl Print) -> io::Result<()> {
    grant_3_3(rt, 0x3ff, 0x80, 0x98)?;
    grant_3_3(rt, 0x3ff, 0, 0x98)?;
    grant_3_3(rt, 0x3ff, 0x80, 0x18)?;
    grant_3_3(rt, 0x3ff, 0, 0x12)?;
    grant_3_3(rt, 0x3ff, 0, 0x02)?;
    grant_3_3(rt, 0x3ff, 0x1ff, 0x3ff)?;
    grant_3_3(rt, 0x3ff, 0x17f, 0x3ff)?;
    grant_3_3(rt, 0x3ff, 0x1f, 0x3ff)?;
    grant_3_3(rt, 0x3ff, 0x1ff, 0x3ef)?;
    grant_3_3(rt, 0x3ef, 0x1ff, 0x3ff)?;
    grant_3_3(rt, 0x1f, 0x1ff, 0x1f)?;
    grant_3_3(rt, 0, 0x1ff, 0x3ff)?;
    Ok(())
}

// 000, table 4-5: "10 - 31 Reserved"
fn unknown(rt: &impl Print) -> io::Result<()> {
    grant_3_3(rt, 0x3ff, 0, 0x400)?;
    grant_3_3(rt, 0x3ff, 0, 0x8000_0000)?;
    grant_3_3(rt, 0x3ff, 0, 0x610)?;
    grant_3_3(rt, 0x3ff, 0, 0)?;
    Ok(())
}

// 000, table 4-4: "9:31 Reserved"; document 01: "support (bits 0 to 4 known)", "the support DWORD as it came"
fn supports(rt: &impl Print) -> io::Result<()> {
    grant_3_3(rt, 0x3ff, 0x100, 0)?;
    grant_3_3(rt, 0x3ff, 0x200, 0)?;
    grant_3_3(rt, 0x3ff, 0x3ff, 0)?;
    grant_3_3(rt, 0x3ff, 0xffff_ffff, 0x98)?;
    grant_3_0(rt, 0x10, 0)?;
    grant_3_0(rt, 0x20, 0)?;
    grant_3_0(rt, 0x3ff, 0)?;
    grant_3_0(rt, 0xffff_ffff, 0x18)?;
    Ok(())
}

// "Rows of the old edition answer as they did": AER without bit 7, whatever the support; SHPC hot plug without bit 4; no bit above 4
fn old(rt: &impl Print) -> io::Result<()> {
    grant_3_0(rt, 0, 0x18)?;
    grant_3_0(rt, 0x80, 0x18)?;
    grant_3_0(rt, 0, 0x98)?;
    grant_3_0(rt, 0x80, 0x98)?;
    grant_3_0(rt, 0, 0x02)?;
    grant_3_0(rt, 0x1ff, 0x1f)?;
    grant_3_0(rt, 0x1ff, 0x3ff)?;
    grant_3_0(rt, 0x1ff, 0x3e0)?;
    Ok(())
}

// "a conventional row of either still permits no bit but 1", which needs bit 4 in edition 3.3
fn conventionals(rt: &impl Print) -> io::Result<()> {
    println!(rt;
        "(conventional: edition of a row that permits bit 1; status, support and control DWORD)"
    )?;
    conventional(rt, Edition::V3_3, 0x02)?;
    conventional(rt, Edition::V3_3, 0x12)?;
    conventional(rt, Edition::V3_3, 0x3ff)?;
    conventional(rt, Edition::V3_0, 0x02)?;
    conventional(rt, Edition::V3_0, 0x12)?;
    Ok(())
}

pub fn lines(rt: &impl Print) -> io::Result<()> {
    println!(rt;
        "(edition: 0 the old one, 1 edition 3.3; permitted bits; status, support and control DWORD)"
    )?;
    with_4(rt, 0x01)?;
    with_4(rt, 0x02)?;
    with_4(rt, 0x04)?;
    with_4(rt, 0x20)?;
    with_4(rt, 0x100)?;
    alone(rt)?;
    containment(rt)?;
    largest(rt)?;
    unknown(rt)?;
    supports(rt)?;
    old(rt)?;
    conventionals(rt)?;
    Ok(())
}
