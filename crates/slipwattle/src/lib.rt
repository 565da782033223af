// The calls of document 01 on a lent table, the record search, and of document 02 the image search (a) and the writer (g): what C and Rust link, through crates/slipwattle_c. Each
// is the call of crates/bridges, or that of the search or the writer, turned into what C reads: its number, and what it hands back beside it.
// Stays: parameters one by one, and a number with values beside it, since C passes and reads them (the signatures and clauses of slipwattle_*).
#![tactic(auto)]

ghost use Rattle.std.specs.Prelude.{◌≡◌, [], ◌∷◌};
ghost use Rattle.rules.specs.Start.{start_number, start_table, Sound};
ghost use Rattle.rules.specs.Calls.{
  osc,
  reset,
  report,
  address,
  register_values,
  on,
  locate,
  nothing,
  reported,
  addressed,
  located,
  values,
  outcome,
  step,
};
ghost use Rattle.rules.specs.Rom.{find_image};
ghost use Rattle.rules.specs.Writer.{write_records, buffer_after};
ghost use Rattle.codes.specs.Numbers.{number, given};
ghost use Rattle.slipwattle.specs.Boundary.{record_at};

use codes::Refusal;
use ecam::Asked;
use osc::Request;
use parts::Part;
use rules::{
    Addressed, BridgeNumber, BridgeRow, FoundAt, Holding, Located, Place, RecordAt, Reported,
    SessionNumber, Settings, Started, Table, Values, Written,
};

// A call's number, and what it hands back beside it: zeros where it is refused.
fn crossing<T: Copy>(done: Result<T, Refusal>, zeros: T) -> (u8, T)
    ensures number { result.0 ≡ number done }
    ensures given { result.1 ≡ given zeros done }
{
    (codes::number(done), done.unwrap_or(zeros))
}

// The table of the rows, of any number, or a refusal and no bridges.
pub fn slipwattle_start(mcfg: &[u8], rows: &[BridgeRow]) -> Started
    ensures { (result.number ≡ start_number (record { mcfg = mcfg.now; rows = rows.now }))
        × (result.table ≡ start_table (record { mcfg = mcfg.now; rows = rows.now })) }
{
    let mut bridges = start::no_bridges();
    let judged = lent_rows::judge(mcfg, rows, &mut bridges);
    let (number, count) = start::settle(judged);
    Started {
        table: Table { bridges, count },
        number,
    }
}

// _OSC: the answer buffer is filled, or left as it was lent.
pub fn slipwattle_osc(
    t: &mut Table,
    s: SessionNumber,
    n: BridgeNumber,
    revision: u32,
    count: u32,
    uuid: &[u8],
    caps: &[u8],
    answer: &mut [u8],
) -> u8
    requires { Sound t.old }
    ensures { (outcome result nothing (uuid.now ∷ caps.now ∷ answer.new ∷ [])
        ≡ (step t.old (on s n (osc revision count uuid.now caps.now answer.old))).outcome)
        × (t.new ≡ (step t.old (on s n (osc revision count uuid.now caps.now answer.old))).table) }
{
    let request = Request {
        revision,
        count,
        uuid,
        caps,
    };
    codes::number(bridges::osc(t, s, n, request, answer))
}

pub fn slipwattle_reset(t: &mut Table, s: SessionNumber, n: BridgeNumber) -> u8
    requires { Sound t.old }
    ensures { (outcome result nothing [] ≡ (step t.old (on s n reset)).outcome) × (t.new ≡ (step t.old (on s n reset)).table) }
{
    codes::number(bridges::reset(t, s, n))
}

// Each answer by itself: by `crossing` the compiler stores the answer in pieces and loads it across them, and a report takes three times as long.
pub fn slipwattle_report(t: &mut Table, s: SessionNumber, n: BridgeNumber) -> Reported
    requires { Sound t.old }
    ensures { (outcome result.number (reported result.holding) [] ≡ (step t.old (on s n report)).outcome)
        × (t.new ≡ (step t.old (on s n report)).table) }
{
    match bridges::report(t, s, n) {
        Ok(holding) => Reported { number: 0, holding },
        Err(refusal) => Reported {
            number: u8::from(refusal),
            holding: Holding::default(),
        },
    }
}

// The numbers of a place are u32, so that device 256 is refused and not taken for device 0.
pub fn slipwattle_address(
    t: &mut Table,
    s: SessionNumber,
    n: BridgeNumber,
    bus: u32,
    device: u32,
    function: u32,
    offset: u32,
    width: u32,
) -> Addressed
    requires { Sound t.old }
    ensures { (outcome result.number (addressed result.address) [] ≡ (step t.old (on s n (address bus device function offset width))).outcome)
        × (t.new ≡ (step t.old (on s n (address bus device function offset width))).table) }
{
    let asked = Asked {
        bus,
        device,
        function,
        offset,
        width,
    };
    let (number, address) = crossing(bridges::address(t, s, n, asked), 0);
    Addressed { number, address }
}

// The bridges are searched where they stand.
pub fn slipwattle_locate(t: &mut Table, s: SessionNumber, address: u64) -> Located
    requires { Sound t.old }
    ensures { (outcome result.number (located result.place) [] ≡ (step t.old (locate s address)).outcome)
        × (t.new ≡ (step t.old (locate s address)).table) }
{
    let (number, place) = crossing(bridges::locate(t, s, address), Place::default());
    Located { number, place }
}

// The record type is u32, so that type 256 is refused and not taken for type 0.
pub fn slipwattle_find_record<'a>(slot: &'a [u8], block: &'a [u8], record_type: u32) -> RecordAt
    ensures { result ≡ record_at slot.now block.now record_type }
{
    match hpx::search(slot, block, record_type) {
        Ok(Part { start, size }) => RecordAt {
            number: 0,
            in_slot: slot.len() != 0,
            start,
            size,
        },
        Err(refusal) => RecordAt {
            number: u8::from(refusal),
            in_slot: false,
            start: 0,
            size: 0,
        },
    }
}

// Where the image lies in the ROM. Vendor, device and code type are u32, so that none is taken for a smaller number.
pub fn slipwattle_find_image(rom: &[u8], vendor: u32, device: u32, code_type: u32) -> FoundAt
    ensures { result ≡ find_image rom.now vendor device code_type }
{
    parts::found_at(rom::search(rom, vendor, device, code_type))
}

// Setting records by value, those present laid down at the start of the buffer by rising type; the rest of it is left untouched.
pub fn slipwattle_write_records(settings: Settings, buffer: &mut [u8]) -> Written
    ensures { (result ≡ write_records settings buffer.old) × (buffer.new ≡ buffer_after settings buffer.old) }
{
    let (number, length) = crossing(writer::write_records(settings, buffer), 0);
    Written { number, length }
}

pub fn slipwattle_register_values<'a>(
    t: &mut Table,
    s: SessionNumber,
    n: BridgeNumber,
    slot: &'a [u8],
    block: &'a [u8],
    current: &[u32],
) -> Values
    requires { Sound t.old }
    ensures { (outcome result.number (values result.values) (slot.now ∷ block.now ∷ current.now ∷ [])
        ≡ (step t.old (on s n (register_values slot.now block.now current.now))).outcome)
        × (t.new ≡ (step t.old (on s n (register_values slot.now block.now current.now))).table) }
{
    let found = bridges::register_values(t, s, n, slot, block, current);
    let (number, values) = crossing(found, [0; 8]);
    Values { number, values }
}
