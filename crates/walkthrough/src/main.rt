// The lesson: a class and a plant on one table of host bridges. One line for each call: plain words, then what was asked and what came.
#![tactic(auto)]

ghost use Rattle.std.specs.Prelude.{◌≤◌};

use codes::{Edition, Refusal};
use fixtures::{Entries, SoundTable};
use print::Output;
use rules::constants::{
    KNOWN_CONTROL_3_0, KNOWN_CONTROL_3_3, KNOWN_SUPPORT_3_0, KNOWN_SUPPORT_3_3,
};
use rules::{BridgeNumber, BridgeRow, SessionNumber};
use std::{fmt, io};

// The base of the MCFG entry.
const BASE: u64 = 0xe000_0000;

// What the plant's bridge permits: bits 0, 1, 2 and 4, and 5, Latency Tolerance Reporting; not AER.
const LIVE: u32 = 0x37;

// The current value of every register, and the masks of the type 2 record, which asks for other payload sizes.
const CURRENT: u32 = 0x2810;

const AND: u32 = 0x5020;

const OR: u32 = 0x5020;

// Without bit 5, which OR sets.
const SENSELESS_AND: u32 = 0x5000;

// A session, and the bridge that it calls on.
#[derive(Clone, Copy)]
struct Caller {
    session: SessionNumber,
    bridge: BridgeNumber,
}

// The class at its own bridge and at the plant's, and the plant at its own.
const CLASS: Caller = Caller {
    session: SessionNumber(1),
    bridge: BridgeNumber(0),
};

const CLASS_AT_LIVE: Caller = Caller {
    session: SessionNumber(1),
    bridge: BridgeNumber(1),
};

const PLANT: Caller = Caller {
    session: SessionNumber(2),
    bridge: BridgeNumber(1),
};

impl fmt::Display for Caller {
    fn fmt<W: fmt::Write>(&self, f: &mut fmt::Formatter<W>) -> fmt::Result {
        write!(f, "Session {}, bridge {}", self.session.0, self.bridge.0)
    }
}

// What an _OSC call is for: bit 0 of its status DWORD is the query flag.
#[derive(Clone, Copy)]
enum Negotiation {
    Take = 0,
    Query = 1,
}

impl fmt::Display for Negotiation {
    fn fmt<W: fmt::Write>(&self, f: &mut fmt::Formatter<W>) -> fmt::Result {
        f.write_str(match self {
            Negotiation::Take => "take",
            Negotiation::Query => "query",
        })
    }
}

// The end of a line: the number that came, its words, and, where the call is done, what came beside it.
fn came<R: Print, T: Copy, F: FnOnce(T) -> io::Result<()>>(
    rt: &R,
    outcome: Result<T, Refusal>,
    beside: F,
) -> io::Result<()>
    requires { F.IsAlwaysCallable beside }
{
    match outcome {
        Ok(x) => {
            print!(rt; ": number 0, done")?;
            beside(x)?;
        }
        Err(refusal) => print!(rt; ": number {}, refused: {refusal}", u8::from(refusal))?,
    }
    println!(rt; ".")
}

fn row(rt: &impl Print, words: &str, row: BridgeRow) -> io::Result<()> {
    let edition = match Edition::of_bridge(row.edition) {
        Edition::V3_0 => "3.0",
        Edition::V3_3 => "3.3",
    };
    println!(rt;
        "{words}: owner {}, buses {} to {}, edition {edition}, permits {:#04x}.",
        row.owner.0, row.first_bus, row.last_bus, row.permitted
    )
}

fn begin(rt: &impl Print) -> io::Result<SoundTable> {
    let simulated = fixtures::row(1, 0, 15, KNOWN_CONTROL_3_0);
    let live = BridgeRow {
        edition: Edition::V3_3 as u8,
        ..fixtures::row(2, 16, 31, LIVE)
    };
    println!(rt;
        "Two sessions share one service: the class is session 1, the plant is session 2."
    )?;
    row(rt, "Bridge 0 carries simulated cards", simulated)?;
    row(rt, "Bridge 1 carries the cards of a live pond", live)?;
    let entry = Entries {
        base: BASE,
        first_bus: 0,
        last_bus: 255,
        count: 1,
    };
    let mut rows = [simulated; start_array::LIST_ROWS];
    rows[1] = live;
    let (number, t) = fixtures::start(entry, rows, 2);
    let outcome = if number == 0 { "done" } else { "refused" };
    println!(rt;
        "The table starts. MCFG entry at base {BASE:#010x}, segment 0, buses 0 to 255; 2 rows: number {number}, {outcome}; bridges {}.",
        t.table.count
    )?;
    Ok(t)
}

// An _OSC call, and the bits that it granted.
fn osc(
    rt: &impl Print,
    words: &str,
    t: &mut SoundTable,
    by: Caller,
    what: Negotiation,
    support: u32,
    control: u32,
) -> io::Result<u32> {
    let request = osc::Request {
        revision: 1,
        count: 3,
        uuid: &fixtures::UUID,
        caps: &fixtures::request(what as u32, support, control),
    };
    let mut answer = [0; 12];
    let outcome = t.osc(by.session, by.bridge, request, &mut answer);
    let status = words::read32(&answer, 0);
    let granted = words::read32(&answer, 8);
    print!(rt; "{words} {by}, {what} {control:#04x}")?;
    came(
        rt,
        outcome,
        |()| print!(rt; "; status {status:#04x}, granted {granted:#04x}"),
    )?;
    Ok(granted)
}

fn reset(rt: &impl Print, words: &str, t: &mut SoundTable, by: Caller) -> io::Result<()> {
    print!(rt; "{words} {by}, reset")?;
    came(rt, t.reset(by.session, by.bridge), |()| Ok(()))
}

fn report(rt: &impl Print, words: &str, t: &SoundTable, by: Caller) -> io::Result<()> {
    print!(rt; "{words} {by}, report")?;
    came(rt, t.report(by.session, by.bridge), |h| {
        print!(rt; "; held {:#04x}, supported {:#04x}", h.held, h.supported)
    })
}

// The address of device 2, function 3, offset 0x10 on a bus, for a width of 4; 0 where it is refused.
fn address(rt: &impl Print, words: &str, t: &SoundTable, by: Caller, bus: u32) -> io::Result<u64> {
    let asked = ecam::Asked {
        bus,
        device: 2,
        function: 3,
        offset: 0x10,
        width: 4,
    };
    let outcome = t.address(by.session, by.bridge, asked);
    print!(rt; "{words} {by}, place {bus}/2/3 offset 0x010 width 4")?;
    came(rt, outcome, |a| print!(rt; "; address {a:#010x}"))?;
    Ok(outcome.unwrap_or(0))
}

fn read_back(
    rt: &impl Print,
    words: &str,
    t: &SoundTable,
    s: SessionNumber,
    address: u64,
) -> io::Result<()> {
    print!(rt; "{words} Session {}, address {address:#010x}", s.0)?;
    came(rt, t.locate(s, address), |p| {
        print!(rt;
            "; bridge {}, place {}/{}/{} offset {:#05x}",
            p.bridge.0, p.bus, p.device, p.function, p.offset
        )
    })
}

fn record<'a>(
    rt: &impl Print,
    words: &str,
    slot: &'a [u8],
    block: &'a [u8],
    record_type: u32,
) -> io::Result<()> {
    let deciding = if hpx::deciding(slot, block).len() == slot.len() {
        "slot's"
    } else {
        "bridge's"
    };
    print!(rt;
        "{words} Type {record_type}, slot's block {} bytes, bridge's {}",
        slot.len(),
        block.len()
    )?;
    came(rt, hpx::search(slot, block, record_type), |part| {
        print!(rt;
            "; {deciding} block, start {}, length {}",
            part.start, part.size
        )
    })
}

// The records of the example block with this latency, written into as many bytes.
fn write(rt: &impl Print, words: &str, latency: u32) -> io::Result<[u8; 42]> {
    let mut settings = fixtures::example_settings();
    settings.pci.latency_timer = latency;
    let mut block = [0; 42];
    let outcome = writer::write_records(settings, &mut block);
    print!(rt; "{words} Types 0 and 1, latency {latency}, buffer 42 bytes")?;
    came(rt, outcome, |length| print!(rt; "; length {length}"))?;
    Ok(block)
}

// An image of vendor 0x10ec and device 0x8139, in the first bytes of the two images.
fn image(rt: &impl Print, words: &str, bytes: usize, code_type: u32) -> io::Result<()>
    requires { bytes ≤ 1536 }
{
    let rom = fixtures::two_images();
    let outcome = fixtures::search_rom(&rom[..bytes], 0x10ec, 0x8139, code_type);
    print!(rt; "{words} ROM {bytes} bytes, vendor 0x10ec, device 0x8139, code type {code_type}")?;
    came(
        rt,
        outcome,
        |part| print!(rt; "; start {}, length {}", part.start, part.size),
    )
}

// Register values by a type 2 record in the bridge's block; the slot has no block. Device Control is register 4, Link Control 5, Uncorrectable Error Mask 0.
fn values(rt: &impl Print, words: &str, t: &SoundTable, by: Caller, and: u32) -> io::Result<()> {
    let block = fixtures::settings(and, OR);
    let outcome = t.register_values(by.session, by.bridge, b"", &block, &[CURRENT; 8]);
    print!(rt; "{words} {by}, register values AND {and:#x} OR {OR:#x}")?;
    came(rt, outcome, |new| {
        print!(rt;
            "; Device Control {CURRENT:#x} to {:#x}, Link Control {CURRENT:#x} to {:#x}, Uncorrectable Error Mask {CURRENT:#x} to {:#x}",
            new[4], new[5], new[0]
        )
    })
}

// A query, a query for what it granted, and a taking call for that, with the same support DWORD: the sentences are those of the session.
fn negotiate(
    rt: &impl Print,
    sentences: [&str; 3],
    t: &mut SoundTable,
    by: Caller,
    support: u32,
    control: u32,
) -> io::Result<()> {
    let [ask, again, take] = sentences;
    let granted = osc(rt, ask, t, by, Negotiation::Query, support, control)?;
    let granted = osc(rt, again, t, by, Negotiation::Query, support, granted)?;
    osc(rt, take, t, by, Negotiation::Take, support, granted)?;
    Ok(())
}

fn both_negotiate(rt: &impl Print, t: &mut SoundTable) -> io::Result<()> {
    negotiate(
        rt,
        [
            "The class asks what it may control.",
            "The class asks again for those bits.",
            "The class takes them.",
        ],
        t,
        CLASS,
        KNOWN_SUPPORT_3_0,
        KNOWN_CONTROL_3_0,
    )?;
    negotiate(
        rt,
        [
            "The plant asks what it may control.",
            "The plant asks again for those bits.",
            "The plant takes them.",
        ],
        t,
        PLANT,
        KNOWN_SUPPORT_3_3,
        KNOWN_CONTROL_3_3,
    )
}

// The class at the live bridge, and what both bridges hold after that.
fn class_is_refused(rt: &impl Print, t: &mut SoundTable) -> io::Result<()> {
    osc(
        rt,
        "The class tries to take the live bridge.",
        t,
        CLASS_AT_LIVE,
        Negotiation::Take,
        KNOWN_SUPPORT_3_0,
        KNOWN_CONTROL_3_0,
    )?;
    reset(
        rt,
        "The class tries to reset the live bridge.",
        t,
        CLASS_AT_LIVE,
    )?;
    address(
        rt,
        "The class asks for the address of a live card.",
        t,
        CLASS_AT_LIVE,
        17,
    )?;
    values(
        rt,
        "The class asks for the register values of a live card.",
        t,
        CLASS_AT_LIVE,
        AND,
    )?;
    report(rt, "The plant looks at its bridge.", t, PLANT)?;
    report(rt, "The class looks at its bridge.", t, CLASS)
}

fn addresses(rt: &impl Print, t: &SoundTable) -> io::Result<()> {
    let a = address(
        rt,
        "The class asks for the address of its own card.",
        t,
        CLASS,
        1,
    )?;
    read_back(rt, "The class reads the address back.", t, CLASS.session, a)?;
    read_back(rt, "The plant reads the address back.", t, PLANT.session, a)
}

fn records(rt: &impl Print) -> io::Result<()> {
    let slot = fixtures::EXAMPLE_BLOCK;
    let block = fixtures::settings(AND, OR);
    record(rt, "A record in the slot's block.", &slot, &block, 1)?;
    record(
        rt,
        "A record that only the bridge's block has.",
        &slot,
        &block,
        2,
    )?;
    record(rt, "The slot has no block.", b"", &block, 2)
}

// A teacher's settings, and what was written of them as the slot's block.
fn teacher_writes(rt: &impl Print) -> io::Result<()> {
    write(rt, "A teacher mistypes the latency of a record.", 640)?;
    let block = write(rt, "The teacher writes the block again.", 64)?;
    record(rt, "A record in the teacher's block.", &block, b"", 1)
}

// A ROM with a PC-AT image, code type 0, and a UEFI image, code type 3, of 1024 bytes in all.
fn images(rt: &impl Print) -> io::Result<()> {
    image(rt, "The UEFI image of a replacement card.", 1024, 3)?;
    image(rt, "An image that its ROM has not.", 1024, 1)?;
    image(rt, "The ROM is cut short in its last image.", 1023, 0)
}

// The class's registers, its reset, and what is left to both.
fn class_lets_go(rt: &impl Print, t: &mut SoundTable) -> io::Result<()> {
    values(
        rt,
        "The class asks for the register values of its own card; its payload sizes stay; AER is held, so the error registers stay too.",
        t,
        CLASS,
        AND,
    )?;
    values(
        rt,
        "The class tries a record whose OR mask sets a bit that is clear in its AND mask.",
        t,
        CLASS,
        SENSELESS_AND,
    )?;
    reset(rt, "The class resets its bridge.", t, CLASS)?;
    report(rt, "The class looks at its bridge.", t, CLASS)?;
    values(
        rt,
        "The class asks for the register values again.",
        t,
        CLASS,
        AND,
    )?;
    report(rt, "The plant looks at its bridge.", t, PLANT)
}

fn lesson(rt: &impl Print) -> io::Result<()> {
    let mut t = begin(rt)?;
    both_negotiate(rt, &mut t)?;
    class_is_refused(rt, &mut t)?;
    addresses(rt, &t)?;
    records(rt)?;
    teacher_writes(rt)?;
    images(rt)?;
    class_lets_go(rt, &mut t)
}

// Output gives no error.
fn main() {
    let _ = lesson(&Output);
}
