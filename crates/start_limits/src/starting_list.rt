// The starting list. The MCFG table has three entries: segment 0, base 0xe0000000, buses 16 to 31; segment 0, base 0xc0000000, buses 32 to 47; segment 256, base 0x140000000,
// buses 16 to 31.
use crate::mcfg_table;
use codes::{Edition, Kind};
use fixtures::SoundTable;
use rules::{BridgeNumber, BridgeRow, SessionNumber};
use start_array::LIST_ROWS;
use std::io;

// The bytes that rows have for their kind and their edition.
const EXPRESS: u8 = Kind::Express as u8;

const CONVENTIONAL: u8 = Kind::Conventional as u8;

const V3_0: u8 = Edition::V3_0 as u8;

const V3_3: u8 = Edition::V3_3 as u8;

fn start(rows: [BridgeRow; LIST_ROWS], count: usize) -> (u8, SoundTable) {
    let m = mcfg_table::of_three([
        mcfg_table::entry(0, 0xe000_0000, 16, 31),
        mcfg_table::entry(0, 0xc000_0000, 32, 47),
        mcfg_table::entry(256, 0x1_4000_0000, 16, 31),
    ]);
    fixtures::start_on(m.split_at(92).0, rows, count)
}

// An MCFG table whose sum is so much too large, and so many rows of one bus each.
fn rows(rt: &impl Print, sum: u8, count: usize) -> io::Result<()> {
    let m = mcfg_table::with_sum(sum);
    let (number, t) = fixtures::start_on(m.split_at(60).0, fixtures::rows_by_bus(), count);
    println!(rt; "rows {sum} {count}: {number}, bridges {}", t.table.count)
}

// Such a table, and a row of this owner and edition.
fn both(rt: &impl Print, sum: u8, owner: u8, edition: u8) -> io::Result<()> {
    let row = BridgeRow {
        edition,
        ..fixtures::row(owner, 16, 31, 0)
    };
    let (number, t) = fixtures::start_on(
        mcfg_table::with_sum(sum).split_at(60).0,
        [row; LIST_ROWS],
        1,
    );
    println!(rt;
        "both {sum} {owner} {edition}: {number}, bridges {}",
        t.table.count
    )
}

// One row for bus 16 of segment 0.
fn one(rt: &impl Print, owner: u8, kind: u8, edition: u8, permitted: u32) -> io::Result<()> {
    let row = BridgeRow {
        kind,
        edition,
        ..fixtures::row(owner, 16, 16, permitted)
    };
    let (number, t) = start([row; LIST_ROWS], 1);
    println!(rt;
        "row {owner} {kind} {edition} {permitted:#x}: {number}, bridges {}",
        t.table.count
    )
}

// Express rows for buses 16 and 17 of segment 0, each by its edition and its permitted bits.
fn two_rows(rt: &impl Print, first: (u8, u32), second: (u8, u32)) -> io::Result<()> {
    let row = BridgeRow {
        edition: first.0,
        ..fixtures::row(1, 16, 16, first.1)
    };
    let mut rows = [row; LIST_ROWS];
    rows[1] = BridgeRow {
        edition: second.0,
        ..fixtures::row(2, 17, 17, second.1)
    };
    let (number, t) = start(rows, 2);
    print!(rt;
        "two rows {} {} {:#x} {:#x}",
        first.0, second.0, first.1, second.1
    )?;
    println!(rt; ": {number}, bridges {}", t.table.count)
}

// One Express row of session 1: its bridge's first address, and what it holds.
fn buses(rt: &impl Print, segment: u16, first: u8, last: u8) -> io::Result<()> {
    let row = BridgeRow {
        segment,
        ..fixtures::row(1, first, last, 0x1f)
    };
    let (number, t) = start([row; LIST_ROWS], 1);
    let asked = ecam::Asked {
        bus: u32::from(first),
        device: 0,
        function: 0,
        offset: 0,
        width: 1,
    };
    let begins = t.address(SessionNumber(1), BridgeNumber(0), asked);
    let holds = t.report(SessionNumber(1), BridgeNumber(0));
    println!(rt;
        "buses {segment} {first} {last}: {number}, begins {:#x}, holds {:#x} {:#x}",
        begins.unwrap_or(0),
        holds.map_or(0, |h| h.held),
        holds.map_or(0, |h| h.supported)
    )
}

// Rows for buses 20 to 23 and for this bus of segment 0, and a third row.
fn third(rt: &impl Print, bus: u8, segment: u16, first: u8, last: u8) -> io::Result<()> {
    let mut rows = [fixtures::row(1, 20, 23, 0); LIST_ROWS];
    rows[1] = fixtures::row(1, bus, bus, 0);
    rows[2] = BridgeRow {
        segment,
        ..fixtures::row(2, first, last, 0)
    };
    let (number, t) = start(rows, 3);
    println!(rt;
        "third row {bus} {segment} {first} {last}: {number}, bridges {}",
        t.table.count
    )
}

// "Start 6, 7."; 0 to 64 rows; owner not above 63 (document 02, e)
fn rows_and_owners(rt: &impl Print) -> io::Result<()> {
    println!(rt;
        "(rows: sum of the MCFG table, number of rows; both: that sum, owner and edition of a row; row: owner, kind, edition, permitted bits)"
    )?;
    rows(rt, 0, 0)?;
    rows(rt, 0, 64)?;
    rows(rt, 0, 65)?;
    rows(rt, 1, 64)?;
    rows(rt, 1, 65)?;
    both(rt, 0, 64, V3_0)?;
    both(rt, 1, 64, V3_0)?;
    one(rt, 0, EXPRESS, V3_0, 0x1f)?;
    one(rt, 63, EXPRESS, V3_0, 0x1f)?;
    one(rt, 64, EXPRESS, V3_0, 0x1f)?;
    one(rt, 255, EXPRESS, V3_0, 0x1f)?;
    Ok(())
}

// "first not above last; the row's buses lie inside one MCFG entry of its segment, whose base the row takes"; "Held and supported bits start at 0"
fn inside(rt: &impl Print) -> io::Result<()> {
    println!(rt;
        "(buses: segment, first, last; the MCFG entries: 0 16 31 at 0xe0000000, 0 32 47 at 0xc0000000, 256 16 31 at 0x140000000)"
    )?;
    buses(rt, 0, 20, 20)?;
    buses(rt, 0, 20, 19)?;
    buses(rt, 0, 16, 31)?;
    buses(rt, 0, 15, 31)?;
    buses(rt, 0, 32, 47)?;
    buses(rt, 0, 32, 48)?;
    buses(rt, 0, 31, 32)?;
    buses(rt, 256, 16, 31)?;
    buses(rt, 256, 32, 47)?;
    buses(rt, 1, 16, 31)?;
    Ok(())
}

// "two rows of one segment share no bus"
fn shared_buses(rt: &impl Print) -> io::Result<()> {
    println!(rt;
        "(third row: bus of the second, segment, first bus, last bus; the first: 0 20 23)"
    )?;
    third(rt, 17, 0, 24, 31)?;
    third(rt, 17, 0, 23, 31)?;
    third(rt, 17, 0, 18, 19)?;
    third(rt, 17, 0, 18, 20)?;
    third(rt, 17, 0, 21, 22)?;
    third(rt, 17, 0, 18, 31)?;
    third(rt, 17, 256, 20, 23)?;
    third(rt, 17, 0, 17, 17)?;
    third(rt, 20, 0, 24, 31)?;
    third(rt, 48, 0, 24, 31)?;
    Ok(())
}

// "no permitted bit above 4; a conventional row permits no bit but 1"
fn permitted(rt: &impl Print) -> io::Result<()> {
    println!(rt; "(row: owner, kind, edition, permitted bits)")?;
    one(rt, 1, EXPRESS, V3_0, 0x20)?;
    one(rt, 1, EXPRESS, V3_0, 0x8000_0000)?;
    one(rt, 1, CONVENTIONAL, V3_0, 0)?;
    one(rt, 1, CONVENTIONAL, V3_0, 0x02)?;
    one(rt, 1, CONVENTIONAL, V3_0, 0x03)?;
    one(rt, 1, CONVENTIONAL, V3_0, 0x06)?;
    one(rt, 1, CONVENTIONAL, V3_0, 0x0a)?;
    one(rt, 1, CONVENTIONAL, V3_0, 0x12)?;
    one(rt, 1, 2, V3_0, 0x02)?;
    Ok(())
}

// Document 02, d: the edition is "chosen per bridge row at start"; "Refusal 7 now forbids permitted bits not known in the row's edition"
fn editions(rt: &impl Print) -> io::Result<()> {
    println!(rt; "(row: as above; both: sum of the MCFG table, owner and edition of a row)")?;
    one(rt, 1, EXPRESS, V3_0, 0)?;
    one(rt, 1, EXPRESS, V3_3, 0)?;
    one(rt, 1, EXPRESS, 2, 0)?;
    one(rt, 1, EXPRESS, 128, 0)?;
    one(rt, 1, EXPRESS, 255, 0)?;
    both(rt, 0, 1, 2)?;
    both(rt, 1, 1, 2)?;
    one(rt, 1, EXPRESS, V3_3, 0x3ff)?;
    one(rt, 1, EXPRESS, V3_3, 0x200)?;
    one(rt, 1, EXPRESS, V3_3, 0x400)?;
    one(rt, 1, EXPRESS, V3_3, 0x8000_0000)?;
    one(rt, 1, EXPRESS, V3_0, 0x200)?;
    Ok(())
}

// "a conventional row of either still permits no bit but 1"
fn conventional(rt: &impl Print) -> io::Result<()> {
    one(rt, 1, CONVENTIONAL, V3_3, 0)?;
    one(rt, 1, CONVENTIONAL, V3_3, 0x02)?;
    one(rt, 1, CONVENTIONAL, V3_3, 0x01)?;
    one(rt, 1, CONVENTIONAL, V3_3, 0x12)?;
    one(rt, 1, CONVENTIONAL, V3_3, 0x20)?;
    one(rt, 1, CONVENTIONAL, V3_3, 0x202)?;
    one(rt, 1, CONVENTIONAL, 2, 0x02)?;
    one(rt, 1, 2, V3_3, 0x02)?;
    Ok(())
}

// Rows of both editions.
fn mixed(rt: &impl Print) -> io::Result<()> {
    println!(rt; "(two rows: their editions, their permitted bits)")?;
    two_rows(rt, (V3_3, 0x3ff), (V3_0, 0x1f))?;
    two_rows(rt, (V3_3, 0x3ff), (V3_0, 0x20))?;
    two_rows(rt, (V3_0, 0x1f), (V3_3, 0x3ff))?;
    two_rows(rt, (V3_0, 0x20), (V3_3, 0x3ff))?;
    two_rows(rt, (V3_0, 0x1f), (V3_3, 0x400))?;
    two_rows(rt, (V3_3, 0x3ff), (2, 0))?;
    Ok(())
}

pub fn lines(rt: &impl Print) -> io::Result<()> {
    println!(rt; "The starting list")?;
    rows_and_owners(rt)?;
    inside(rt)?;
    shared_buses(rt)?;
    permitted(rt)?;
    editions(rt)?;
    conventional(rt)?;
    mixed(rt)?;
    Ok(())
}
