// The limits of a place and its address, and of an address read back. fixtures::three_bridges says whose bridges there are.
#![tactic(auto)]

use ecam::Asked;
use fixtures::{Entries, SoundTable};
use print::Output;
use rules::{BridgeNumber, SessionNumber};
use std::io;

// A session asks for an address.
fn asked(rt: &impl Print, session: u8, bridge: u8, a: Asked) -> io::Result<()> {
    let t = fixtures::three_bridges(0);
    let outcome = t.address(SessionNumber(session), BridgeNumber(bridge), a);
    print!(rt;
        "address {session} {bridge} {} {} {} {} {}",
        a.bus, a.device, a.function, a.offset, a.width
    )?;
    println!(rt; ": {}, {:#x}", codes::number(outcome), outcome.unwrap_or(0))
}

// For one byte of configuration space at offset 0 of function 0.
fn device(rt: &impl Print, session: u8, bridge: u8, bus: u32, device: u32) -> io::Result<()> {
    let a = Asked {
        bus,
        device,
        function: 0,
        offset: 0,
        width: 1,
    };
    asked(rt, session, bridge, a)
}

// Session 1 asks for a place of bridge 0.
fn place(
    rt: &impl Print,
    bus: u32,
    device: u32,
    function: u32,
    offset: u32,
    width: u32,
) -> io::Result<()> {
    let a = Asked {
        bus,
        device,
        function,
        offset,
        width,
    };
    asked(rt, 1, 0, a)
}

// An address read back under a session.
fn back(rt: &impl Print, session: u8, address: u64) -> io::Result<()> {
    let outcome = fixtures::three_bridges(0).locate(SessionNumber(session), address);
    let p = outcome.unwrap_or_default();
    println!(rt;
        "back {session} {address:#x}: {}, bridge {}, place {} {} {} {}",
        codes::number(outcome),
        p.bridge.0,
        p.bus,
        p.device,
        p.function,
        p.offset
    )
}

// "Address 1, 2, 5, 4." Bridge 3 is the first beyond the table, where the owner of an unused place is 0; 64 is the first beyond the array.
fn orders(rt: &impl Print) -> io::Result<()> {
    println!(rt;
        "(address: session, bridge, bus, device, function, offset, width; bridge 0: session 1, buses 16 to 31; 1: session 2, 32 to 47; 2: session 1, 255)"
    )?;
    device(rt, 2, 1, 32, 0)?;
    device(rt, 1, 2, 255, 0)?;
    device(rt, 1, 1, 32, 0)?;
    device(rt, 65, 0, 16, 0)?;
    device(rt, 0, 0, 16, 0)?;
    device(rt, 0, 3, 0, 0)?;
    device(rt, 1, 64, 16, 0)?;
    device(rt, 1, 3, 15, 32)?;
    device(rt, 1, 1, 15, 32)?;
    device(rt, 1, 0, 15, 32)?;
    Ok(())
}

// "device above 31, function above 7, offset above 4095"
fn parts(rt: &impl Print) -> io::Result<()> {
    place(rt, 16, 0, 0, 0, 1)?;
    place(rt, 16, 31, 0, 0, 1)?;
    place(rt, 16, 32, 0, 0, 1)?;
    place(rt, 16, 256, 0, 0, 1)?;
    place(rt, 16, 0, 7, 0, 1)?;
    place(rt, 16, 0, 8, 0, 1)?;
    place(rt, 16, 0, 256, 0, 1)?;
    place(rt, 16, 0, 0, 4095, 1)?;
    place(rt, 16, 0, 0, 4096, 1)?;
    place(rt, 16, 0, 0, 65536, 1)?;
    Ok(())
}

// "width not 1, 2 or 4, or offset not a multiple of width"
fn widths(rt: &impl Print) -> io::Result<()> {
    place(rt, 16, 0, 0, 0, 0)?;
    place(rt, 16, 0, 0, 6, 3)?;
    place(rt, 16, 0, 0, 0, 5)?;
    place(rt, 16, 0, 0, 0, 8)?;
    place(rt, 16, 0, 0, 0, 16)?;
    place(rt, 16, 0, 0, 0, 257)?;
    place(rt, 16, 0, 0, 2, 2)?;
    place(rt, 16, 0, 0, 1, 2)?;
    place(rt, 16, 0, 0, 4092, 4)?;
    place(rt, 16, 0, 0, 4093, 4)?;
    place(rt, 16, 0, 0, 2, 4)?;
    Ok(())
}

// "the bus is outside the bridge's buses"
fn buses(rt: &impl Print) -> io::Result<()> {
    place(rt, 15, 0, 0, 0, 1)?;
    place(rt, 31, 31, 7, 4094, 2)?;
    place(rt, 32, 0, 0, 0, 1)?;
    place(rt, 272, 0, 0, 0, 1)?;
    Ok(())
}

// "reading an address back, it lies in no bridge of this session"
fn windows(rt: &impl Print) -> io::Result<()> {
    println!(rt; "(back: session, address)")?;
    back(rt, 1, 0)?;
    back(rt, 0, 0)?;
    back(rt, 1, 0xe0ff_ffff)?;
    back(rt, 1, 0xe100_0000)?;
    back(rt, 1, 0xe1ff_ffff)?;
    back(rt, 1, 0xe200_0000)?;
    back(rt, 2, 0xe1ff_ffff)?;
    back(rt, 2, 0xe200_0000)?;
    back(rt, 3, 0xe200_0000)?;
    back(rt, 65, 0xe100_0000)?;
    Ok(())
}

// On a bus that no row has; in a session's second bridge; beyond 32 bits; and the parts of an address.
fn bits(rt: &impl Print) -> io::Result<()> {
    back(rt, 1, 0xe300_0000)?;
    back(rt, 1, 0xeff0_0000)?;
    back(rt, 1, 0x1_e100_0000)?;
    back(rt, 1, 0xe110_0000)?;
    back(rt, 1, 0xe100_8000)?;
    back(rt, 1, 0xe100_1000)?;
    back(rt, 1, 0xe100_0fff)?;
    Ok(())
}

// A table with as many bridges as it can have, all of session 1: bridge k has bus k alone.
fn full() -> SoundTable {
    let entry = Entries {
        base: 0xe000_0000,
        first_bus: 0,
        last_bus: 255,
        count: 1,
    };
    let (_, t) = fixtures::start(entry, fixtures::rows_by_bus(), 64);
    t
}

// The last address of a bus of it, and where that is found.
fn last_of(rt: &impl Print, bridge: u8, bus: u32) -> io::Result<()> {
    let t = full();
    let s = SessionNumber(1);
    let last = Asked {
        bus,
        device: 31,
        function: 7,
        offset: 4095,
        width: 1,
    };
    let outcome = t.address(s, BridgeNumber(bridge), last);
    let address = outcome.unwrap_or(0);
    let found = t.locate(s, address);
    let p = found.unwrap_or_default();
    print!(rt;
        "of 64 {bridge} {bus}: {}, {address:#x}",
        codes::number(outcome)
    )?;
    println!(rt; ", back {} {} {}", codes::number(found), p.bridge.0, p.bus)
}

// 64 bridges (document 02, e)
fn last_bridges(rt: &impl Print) -> io::Result<()> {
    println!(rt;
        "(of 64: bridge, bus; bridge k is session 1's, bus k; back: number, bridge, bus)"
    )?;
    last_of(rt, 0, 0)?;
    last_of(rt, 62, 62)?;
    last_of(rt, 63, 62)?;
    last_of(rt, 63, 63)?;
    last_of(rt, 63, 64)?;
    last_of(rt, 64, 64)?;
    Ok(())
}

fn lines_to(rt: &impl Print) -> io::Result<()> {
    println!(rt; "Place and address")?;
    orders(rt)?;
    parts(rt)?;
    widths(rt)?;
    buses(rt)?;
    windows(rt)?;
    bits(rt)?;
    last_bridges(rt)?;
    Ok(())
}

// Output gives no error.
pub fn lines() {
    let _ = lines_to(&Output);
}
