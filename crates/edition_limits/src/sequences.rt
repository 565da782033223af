// Calls one after the other on a bridge of edition 3.3 that permits every bit.
use crate::{call, held, two_bridges};
use codes::{Edition, Kind};
use fixtures::SoundTable;
use rules::{BridgeNumber, SessionNumber};
use std::io;

fn every_bit() -> SoundTable {
    two_bridges(Kind::Express, Edition::V3_3, 0x3ff)
}

// A taking call, once these bits were taken.
fn taken(
    rt: &impl Print,
    supported: u32,
    before: u32,
    support: u32,
    control: u32,
) -> io::Result<()> {
    let mut t = every_bit();
    t.take(supported, before);
    print!(rt; "taken {supported:#x} {before:#x}")?;
    call(rt, "", &mut t, 0, support, control)
}

// The first call on a table, which is handed back.
fn first(rt: &impl Print, status: u32, support: u32, control: u32) -> io::Result<SoundTable> {
    let mut t = every_bit();
    call(rt, "first", &mut t, status, support, control)?;
    Ok(t)
}

fn then(
    rt: &impl Print,
    t: &mut SoundTable,
    status: u32,
    support: u32,
    control: u32,
) -> io::Result<()> {
    call(rt, "then", t, status, support, control)
}

fn reset(rt: &impl Print, t: &mut SoundTable) -> io::Result<()> {
    let outcome = t.reset(SessionNumber(1), BridgeNumber(0));
    let h = held(t, 1, 0);
    println!(rt;
        "reset: {}, holds {:#x} {:#x}",
        codes::number(outcome),
        h.held,
        h.supported
    )
}

// Bit 4 held, and the bit asked for without it and with it; both held, and the bit asked for alone.
fn with_4(rt: &impl Print, bit: u32) -> io::Result<()> {
    let both = 0x10 | bit;
    taken(rt, 0, 0x10, 0, bit)?;
    taken(rt, 0, 0x10, 0, both)?;
    taken(rt, 0, both, 0, bit)?;
    Ok(())
}

// "each is already held, or is permitted and has all the control bits it needs in the set": held bits asked for, and left out; new ones beside them
fn held_bits(rt: &impl Print) -> io::Result<()> {
    taken(rt, 0x80, 0x98, 0, 0x08)?;
    taken(rt, 0x80, 0x98, 0, 0x80)?;
    taken(rt, 0x80, 0x98, 0, 0x98)?;
    taken(rt, 0x80, 0x98, 0, 0x10)?;
    taken(rt, 0x80, 0x98, 0, 0)?;
    taken(rt, 0x80, 0x98, 0, 0x89)?;
    taken(rt, 0x80, 0x98, 0, 0x99)?;
    taken(rt, 0, 0x10, 0x80, 0x88)?;
    taken(rt, 0, 0x10, 0x80, 0x98)?;
    Ok(())
}

// "declared (among the supported bits or the known ones of this call)"
fn declared(rt: &impl Print) -> io::Result<()> {
    taken(rt, 0x80, 0, 0, 0x98)?;
    taken(rt, 0x17f, 0, 0, 0x98)?;
    taken(rt, 0x17f, 0, 0x80, 0x98)?;
    Ok(())
}

// "The three negotiating calls must now carry the same support field": the second query, and the taking call, without it
fn other_field(rt: &impl Print) -> io::Result<()> {
    let mut t = first(rt, 1, 0x80, 0x98)?;
    then(rt, &mut t, 1, 0, 0x98)?;
    let mut t = first(rt, 1, 0x80, 0x98)?;
    then(rt, &mut t, 0, 0, 0x98)
}

// The three with the same one, with support bit 7 and without it.
fn same_field(rt: &impl Print) -> io::Result<()> {
    let mut t = first(rt, 1, 0x80, 0x498)?;
    then(rt, &mut t, 1, 0x80, 0x98)?;
    then(rt, &mut t, 0, 0x80, 0x98)?;
    let mut t = first(rt, 1, 0x1f, 0x3ff)?;
    then(rt, &mut t, 1, 0x1f, 0x377)?;
    then(rt, &mut t, 0, 0x1f, 0x377)
}

// "Held bits leave only by reset of that bridge."; "Reset sets a bridge's held and supported bits to 0."
fn resets(rt: &impl Print) -> io::Result<()> {
    let mut t = first(rt, 0, 0x80, 0x98)?;
    then(rt, &mut t, 0, 0x100, 0x40)?;
    then(rt, &mut t, 1, 0, 0x88)?;
    reset(rt, &mut t)?;
    then(rt, &mut t, 0, 0, 0x98)?;
    let mut t = first(rt, 0, 0x80, 0)?;
    then(rt, &mut t, 1, 0, 0x98)?;
    reset(rt, &mut t)?;
    then(rt, &mut t, 1, 0, 0x98)
}

pub fn lines(rt: &impl Print) -> io::Result<()> {
    println!(rt;
        "(taken: support and control DWORD of a taking call, edition 3.3, every bit permitted; status, support and control DWORD of the next)"
    )?;
    with_4(rt, 0x01)?;
    with_4(rt, 0x02)?;
    with_4(rt, 0x04)?;
    with_4(rt, 0x20)?;
    with_4(rt, 0x100)?;
    held_bits(rt)?;
    declared(rt)?;
    println!(rt;
        "(first, then: status, support and control DWORD of calls one after the other, edition 3.3, every bit permitted)"
    )?;
    other_field(rt)?;
    same_field(rt)?;
    resets(rt)?;
    Ok(())
}
