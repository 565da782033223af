// The limits of _OSC by the edition of the control field, document 02, d.
#![tactic(auto)]

use codes::{Edition, Kind};
use fixtures::{Entries, SoundTable};
use print::{Fours, Output};
use rules::{BridgeNumber, BridgeRow, Holding, SessionNumber};
use start_array::LIST_ROWS;
use std::io;

mod granting;
mod mixed;
mod sequences;

// Session 2's row of the edition that is not this one, with every bit that it knows.
fn other_row(edition: Edition) -> BridgeRow {
    match edition {
        Edition::V3_3 => fixtures::row(2, 32, 47, 0x1f),
        Edition::V3_0 => BridgeRow {
            edition: Edition::V3_3 as u8,
            ..fixtures::row(2, 32, 47, 0x3ff)
        },
    }
}

// Bridge 0 is session 1's, of this kind and edition; bridge 1 is session 2's, Express and of the other edition.
fn two_bridges(kind: Kind, edition: Edition, permitted: u32) -> SoundTable {
    let entry = Entries {
        base: 0xe000_0000,
        first_bus: 16,
        last_bus: 255,
        count: 1,
    };
    let row = BridgeRow {
        kind: kind as u8,
        edition: edition as u8,
        ..fixtures::row(1, 16, 31, permitted)
    };
    let mut rows = [row; LIST_ROWS];
    rows[1] = other_row(edition);
    let (_, t) = fixtures::start(entry, rows, 2);
    t
}

// What a session's bridge holds.
fn held(t: &SoundTable, session: u8, bridge: u8) -> Holding {
    t.report(SessionNumber(session), BridgeNumber(bridge))
        .unwrap_or_default()
}

// A call of session 1 on bridge 0, and what that holds after it.
fn call(
    rt: &impl Print,
    words: &str,
    t: &mut SoundTable,
    status: u32,
    support: u32,
    control: u32,
) -> io::Result<()> {
    let mut answer = [0xaa; 12];
    let _ = t.right_call(status, support, control, &mut answer);
    let h = held(t, 1, 0);
    print!(rt;
        "{words} {status:#x} {support:#x} {control:#x}: answer{}",
        Fours(&answer)
    )?;
    println!(rt; ", holds {:#x} {:#x}", h.held, h.supported)
}

fn lines_to(rt: &impl Print) -> io::Result<()> {
    println!(rt; "The editions of the control field")?;
    granting::lines(rt)?;
    sequences::lines(rt)?;
    mixed::lines(rt)
}

// Output gives no error.
pub fn lines() {
    let _ = lines_to(&Output);
}
