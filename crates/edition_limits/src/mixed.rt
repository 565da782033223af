// "the demands hold for tables that mix both": the same calls on either bridge of a table.
use crate::{held, two_bridges};
use codes::{Edition, Kind};
use fixtures::SoundTable;
use osc::Request;
use print::Fours;
use rules::{BridgeNumber, SessionNumber};
use std::io;

// A session's taking call on a bridge, and what both bridges hold after it.
fn mixed(
    rt: &impl Print,
    t: &mut SoundTable,
    session: u8,
    bridge: u8,
    support: u32,
    control: u32,
) -> io::Result<()> {
    let request = Request {
        revision: 1,
        count: 3,
        uuid: &fixtures::UUID,
        caps: &fixtures::request(0, support, control),
    };
    let mut answer = [0xaa; 12];
    let outcome = t.osc(
        SessionNumber(session),
        BridgeNumber(bridge),
        request,
        &mut answer,
    );
    let (a, b) = (held(t, 1, 0), held(t, 2, 1));
    print!(rt;
        "mixed {session} {bridge} {support:#x} {control:#x}: {}",
        codes::number(outcome)
    )?;
    print!(rt; ", answer{}", Fours(&answer))?;
    println!(rt;
        ", hold {:#x} {:#x} {:#x} {:#x}",
        a.held, a.supported, b.held, b.supported
    )
}

// Bridge 0 is of this edition and permits these bits.
fn both_bridges(rt: &impl Print, edition: Edition, permitted: u32) -> io::Result<()> {
    let mut t = two_bridges(Kind::Express, edition, permitted);
    mixed(rt, &mut t, 1, 1, 0x1ff, 0x3ff)?;
    mixed(rt, &mut t, 1, 0, 0x80, 0x02)?;
    mixed(rt, &mut t, 2, 1, 0x80, 0x02)?;
    mixed(rt, &mut t, 1, 0, 0x80, 0x1a)?;
    mixed(rt, &mut t, 2, 1, 0x80, 0x1a)?;
    mixed(rt, &mut t, 1, 0, 0x1ff, 0x3ff)?;
    mixed(rt, &mut t, 2, 1, 0x1ff, 0x3ff)
}

pub fn lines(rt: &impl Print) -> io::Result<()> {
    println!(rt;
        "(mixed: session, bridge; support and control DWORD of a taking call; bridge 0 of edition 3.3, bridge 1 of the old one, and what each holds)"
    )?;
    both_bridges(rt, Edition::V3_3, 0x3ff)?;
    println!(rt; "(mixed: bridge 0 of the old edition, bridge 1 of edition 3.3)")?;
    both_bridges(rt, Edition::V3_0, 0x1f)?;
    Ok(())
}
