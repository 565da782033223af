// Granting control. Session 1 calls on bridge 0.
use crate::held;
use fixtures::SoundTable;
use print::Fours;
use rules::{BridgeNumber, SessionNumber};
use std::io;

// Control bit 4.
const EXPRESS_CAPABILITY: u32 = 0x10;

// A call, once the bits of `before` were taken with support bit 0.
fn sent(
    rt: &impl Print,
    permitted: u32,
    before: u32,
    status: u32,
    support: u32,
    control: u32,
) -> io::Result<()> {
    let mut t = fixtures::three_bridges(permitted);
    t.take(0x01, before);
    let mut answer = [0xaa; 12];
    let _ = t.right_call(status, support, control, &mut answer);
    let h = held(&t);
    print!(rt; "sent {permitted:#x} {before:#x} {status:#x} {support:#x} {control:#x}")?;
    println!(rt;
        ": answer{}, holds {:#x} {:#x}",
        Fours(&answer),
        h.held,
        h.supported
    )
}

// A taking call.
fn grant(rt: &impl Print, permitted: u32, before: u32, requested: u32) -> io::Result<()> {
    sent(rt, permitted, before, 0, 0, requested)
}

// Bits 0 and 4 of bridge 0 were taken with support bit 0.
fn taken() -> SoundTable {
    let mut t = fixtures::three_bridges(0x1f);
    t.take(0x01, 0x11);
    t
}

// A reset, once bit 1 was taken too with support bit 1.
fn reset(rt: &impl Print, session: u8, bridge: u8) -> io::Result<()> {
    let mut t = taken();
    t.take(0x02, 0x02);
    let outcome = t.reset(SessionNumber(session), BridgeNumber(bridge));
    let h = held(&t);
    print!(rt; "reset {session} {bridge}: {}", codes::number(outcome))?;
    println!(rt; ", holds {:#x} {:#x}", h.held, h.supported)
}

fn report(rt: &impl Print, session: u8, bridge: u8) -> io::Result<()> {
    let outcome = taken().report(SessionNumber(session), BridgeNumber(bridge));
    let h = outcome.unwrap_or_default();
    println!(rt;
        "report {session} {bridge}: {}, {:#x} {:#x}",
        codes::number(outcome),
        h.held,
        h.supported
    )
}

// Bits 1 and 4 need no other; bits above 4 are never granted.
fn alone(rt: &impl Print) -> io::Result<()> {
    println!(rt; "(sent: permitted, held; status, support and control DWORD)")?;
    grant(rt, 0x02, 0, 0x02)?;
    grant(rt, 0x1d, 0, 0x02)?;
    grant(rt, 0x10, 0, 0x10)?;
    grant(rt, 0x0f, 0, 0x10)?;
    grant(rt, 0x1f, 0, 0x20)?;
    grant(rt, 0x1f, 0, 0x8000_0000)?;
    grant(rt, 0x1f, 0, 0)?;
    Ok(())
}

// "permitted and, for bits 0, 2 and 3", document 02, b: "only if bit 4 is requested in the same call and is held or permitted. A held bit
// asked for again is still granted."
fn dependent(rt: &impl Print, bit: u32) -> io::Result<()> {
    let both = EXPRESS_CAPABILITY | bit;
    grant(rt, both, 0, both)?;
    grant(rt, both, 0, bit)?;
    grant(rt, bit, 0, both)?;
    grant(rt, EXPRESS_CAPABILITY, 0, both)?;
    grant(rt, both, EXPRESS_CAPABILITY, both)?;
    grant(rt, both, EXPRESS_CAPABILITY, bit)?;
    grant(rt, EXPRESS_CAPABILITY, EXPRESS_CAPABILITY, both)?;
    grant(rt, both, both, bit)?;
    Ok(())
}

// "either already held"; "granted bits join the held ones"
fn joined(rt: &impl Print) -> io::Result<()> {
    grant(rt, 0x1f, 0x10, 0x03)?;
    grant(rt, 0x1f, 0x11, 0x05)?;
    grant(rt, 0x1f, 0x12, 0x10)?;
    grant(rt, 0x1f, 0x12, 0x1c)?;
    Ok(())
}

// "bit 0 the query flag"; "Status input bits above 0 are ignored"; "support (bits 0 to 4 known)"
fn flags(rt: &impl Print) -> io::Result<()> {
    sent(rt, 0x1f, 0, 0, 0x1f, 0x11)?;
    sent(rt, 0x1f, 0, 1, 0x1f, 0x11)?;
    sent(rt, 0x0f, 0, 1, 0, 0x1f)?;
    sent(rt, 0x1f, 0x11, 1, 0, 0x01)?;
    sent(rt, 0x1f, 0x10, 1, 0, 0x01)?;
    sent(rt, 0x1f, 0, 3, 0x1f, 0x11)?;
    sent(rt, 0x1f, 0, 0xffff_fffe, 0x1f, 0x11)?;
    sent(rt, 0x1f, 0, 0, 0x1f, 0)?;
    sent(rt, 0x1f, 0, 0, 0x20, 0x11)?;
    sent(rt, 0x1f, 0, 0, 0xffff_ffff, 0x11)?;
    Ok(())
}

// "Reset and report 1, 2."
fn callers(rt: &impl Print) -> io::Result<()> {
    println!(rt; "Reset and report\n(reset, report: session, bridge)")?;
    reset(rt, 1, 0)?;
    reset(rt, 1, 2)?;
    reset(rt, 2, 0)?;
    reset(rt, 1, 3)?;
    reset(rt, 0, 3)?;
    reset(rt, 1, 64)?;
    report(rt, 1, 0)?;
    report(rt, 1, 2)?;
    report(rt, 2, 0)?;
    report(rt, 1, 3)?;
    report(rt, 0, 3)?;
    report(rt, 1, 64)?;
    Ok(())
}

pub fn lines(rt: &impl Print) -> io::Result<()> {
    println!(rt; "Granting control")?;
    alone(rt)?;
    dependent(rt, 0x01)?;
    dependent(rt, 0x04)?;
    dependent(rt, 0x08)?;
    joined(rt)?;
    flags(rt)?;
    callers(rt)?;
    Ok(())
}
