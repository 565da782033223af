// The bench sheet of document 01, line by line in its order, through the calls; its fourth line as document 02, b, has it, its numbers of rows as e has them, its AND/OR line as a
// fact of the formula, beside the number that h gives, and at the end as many entries and the register value that f works out. P permitted, H held, R requested, G granted.
#![tactic(auto)]

ghost use Rattle.std.specs.Prelude.{◌<◌, ◌≤◌};

use ecam::Asked;
use fixtures::{Entries, SoundTable};
use print::{Fours, Output};
use rules::{BridgeNumber, SessionNumber};
use start_array::LIST_ROWS;
use std::io;

// The base of the MCFG entry, where the sheet names no other.
const BASE: u64 = 0xe000_0000;

// Who calls, and on what.
const SESSION: SessionNumber = SessionNumber(1);

const BRIDGE: BridgeNumber = BridgeNumber(0);

// Tag 0, length 3, and 3 bytes: the field ends where the block does.
const LENGTH_3: [u8; 6] = *b"\x00\x03\x00\x01\x00\x00";

// Bridge 0 of session 1, with these permitted bits. Entry and row begin at bus 1, so that an address would show a start bus subtracted.
fn begin(permitted: u32) -> SoundTable {
    let entry = Entries {
        base: BASE,
        first_bus: 1,
        last_bus: 255,
        count: 1,
    };
    let (_, t) = fixtures::start(entry, [fixtures::row(1, 1, 255, permitted); LIST_ROWS], 1);
    t
}

// What bridge 0 holds, by report.
fn held(t: &SoundTable) -> u32 {
    t.report(SESSION, BRIDGE).map_or(0, |holding| holding.held)
}

// A query for every bit.
fn query(rt: &impl Print) -> io::Result<()> {
    let mut t = begin(0x1f);
    let before = held(&t);
    let mut answer = [0xaa; 12];
    let outcome = t.right_call(1, 0x1f, 0x1f, &mut answer);
    println!(rt;
        "query{}, P 0x1f, H {before:#04x}: number {}, answer{}, H {:#04x}",
        Fours(&fixtures::request(1, 0x1f, 0x1f)),
        codes::number(outcome),
        Fours(&answer),
        held(&t)
    )
}

// A taking call for `requested`, once `first` was taken.
fn grant(rt: &impl Print, permitted: u32, first: u32, requested: u32) -> io::Result<()> {
    let mut t = begin(permitted);
    t.take(0, first);
    let before = held(&t);
    let mut answer = [0xaa; 12];
    let outcome = t.right_call(0, 0, requested, &mut answer);
    print!(rt; "P {permitted:#04x}, H {before:#04x}, R {requested:#04x}")?;
    println!(rt;
        ": number {}, G {:#04x}, status {:#04x}, H {:#04x}",
        codes::number(outcome),
        words::read32(&answer, 8),
        words::read32(&answer, 0),
        held(&t)
    )
}

// The place 1/2/3 at an offset.
fn address(rt: &impl Print, offset: u32, width: u32) -> io::Result<()> {
    let asked = Asked {
        bus: 1,
        device: 2,
        function: 3,
        offset,
        width,
    };
    let outcome = begin(0).address(SESSION, BRIDGE, asked);
    println!(rt;
        "base {BASE:#x}, place 1/2/3 offset {offset} width {width}: number {}, address {:#x}",
        codes::number(outcome),
        outcome.unwrap_or(0)
    )
}

// The number of start with this MCFG table and no rows, and its word.
fn judged(e: Entries) -> (u8, &'static str) {
    let (number, _) = fixtures::start(e, fixtures::rows_by_bus(), 0);
    (number, if number == 0 { "sound" } else { "unsound" })
}

// One entry.
fn entry(rt: &impl Print, base: u64, last_bus: u8) -> io::Result<()> {
    let (number, word) = judged(Entries {
        base,
        first_bus: 0,
        last_bus,
        count: 1,
    });
    println!(rt; "entry base {base:#x}, buses 0 to {last_bus}: number {number}, {word}")
}

// Entries of as many segments.
fn entries(rt: &impl Print, count: usize) -> io::Result<()>
    requires { count ≤ 80 }
{
    let (number, word) = judged(Entries {
        base: BASE,
        first_bus: 0,
        last_bus: 255,
        count,
    });
    println!(rt; "{count} MCFG entries: number {number}, {word}")
}

// The formula alone; and register k of a card whose registers all have this value, by the record that fixtures::settings makes, where bits 0 and 4 are held and AER is not.
fn register(rt: &impl Print, words: &str, k: usize, value: u32, and: u32, or: u32) -> io::Result<()>
    requires { k < 8 }
{
    let mut t = begin(0x1f);
    t.take(0, 0x11);
    let block = fixtures::settings(and, or);
    let outcome = t.register_values(SESSION, BRIDGE, b"", &block, &[value; 8]);
    print!(rt; "{words}current {value:#x}, AND {and:#x}, OR {or:#x}")?;
    println!(rt;
        ": formula {:#x}, number {}, new {:#x}",
        hpx::and_or(value, and, or),
        codes::number(outcome),
        outcome.map_or(0, |new| new[k])
    )
}

// The record search in a slot's block, with an empty bridge's block.
fn search(rt: &impl Print, words: &str, slot: &[u8], record_type: u32) -> io::Result<()> {
    let outcome = hpx::search(slot, b"", record_type);
    println!(rt;
        "{words}, type {record_type}: number {}, start {}, length {}",
        codes::number(outcome),
        outcome.map_or(0, |part| part.start),
        outcome.map_or(0, |part| part.size)
    )
}

// An _OSC call with the right UUID and revision, and this many DWORDs of zeros.
fn count(rt: &impl Print, count: u32, caps: &[u8], answer: &mut [u8]) -> io::Result<()> {
    let request = osc::Request {
        revision: 1,
        count,
        uuid: &fixtures::UUID,
        caps,
    };
    let outcome = begin(0x1f).osc(SESSION, BRIDGE, request, answer);
    println!(rt;
        "Count {count}: number {}, answer{}",
        codes::number(outcome),
        Fours(answer)
    )
}

// So many rows, each of one bus.
fn rows(rt: &impl Print, count: usize) -> io::Result<()> {
    let entry = Entries {
        base: BASE,
        first_bus: 0,
        last_bus: 255,
        count: 1,
    };
    let (number, t) = fixtures::start(entry, fixtures::rows_by_bus(), count);
    println!(rt; "{count} rows: number {number}, bridges {}", t.table.count)
}

fn grants(rt: &impl Print) -> io::Result<()> {
    query(rt)?;
    grant(rt, 0x1f, 0, 0x0d)?;
    grant(rt, 0x0f, 0, 0x1f)?;
    grant(rt, 0x1f, 0x10, 0x01)?;
    grant(rt, 0x1f, 0, 0x3f)?;
    grant(rt, 0x1f, 0x1f, 0x02)
}

fn counts(rt: &impl Print) -> io::Result<()> {
    count(rt, 8, &[0; 32], &mut [0xaa; 32])?;
    count(rt, 9, &[0; 36], &mut [0xaa; 36])
}

fn sheet(rt: &impl Print) -> io::Result<()> {
    grants(rt)?;
    address(rt, 0x10, 1)?;
    entry(rt, 0xffff_ffff_f000_0000, 255)?;
    entry(rt, 0xffff_ffff_f010_0000, 255)?;
    entry(rt, 0xffff_ffff_f010_0000, 254)?;
    register(rt, "", 0, 0x2110, 0xffff_fff0, 0x6)?;
    search(rt, "42-byte block", &fixtures::EXAMPLE_BLOCK, 0)?;
    search(rt, "42-byte block", &fixtures::EXAMPLE_BLOCK, 1)?;
    search(rt, "42-byte block", &fixtures::EXAMPLE_BLOCK, 2)?;
    counts(rt)?;
    rows(rt, 64)?;
    rows(rt, 65)?;
    address(rt, 4092, 4)?;
    address(rt, 4094, 4)?;
    search(rt, "empty blocks", b"", 0)?;
    search(rt, "tag 0 length 3", &LENGTH_3, 0)?;
    entries(rt, 64)?;
    entries(rt, 65)?;
    register(rt, "Device Control, ", 4, 0x2810, 0x5020, 0x5020)
}

// Output gives no error.
fn main() {
    let _ = sheet(&Output);
}
