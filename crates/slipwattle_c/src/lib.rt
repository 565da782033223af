// What C and Rust link: the calls of crates/slipwattle under their names, each with the clauses that it has there.
// Stays: each call once more, its parameters one by one, a number with values beside it; C links and reads these.
#![tactic(auto)]

ghost use Rattle.std.specs.Prelude.{◌≡◌, [], ◌∷◌};
ghost use Rattle.rules.specs.Start.{start_number, start_table, Sound};
ghost use Rattle.rules.specs.Calls.{
  osc,
  reset,
  report,
  address,
  register_values,
  on,
  locate,
  nothing,
  reported,
  addressed,
  located,
  values,
  outcome,
  step,
};
ghost use Rattle.rules.specs.Rom.{find_image};
ghost use Rattle.rules.specs.Writer.{write_records, buffer_after};
ghost use Rattle.slipwattle.specs.Boundary.{record_at};

use rules::{
    Addressed, BridgeNumber, BridgeRow, FoundAt, Located, RecordAt, Reported, SessionNumber,
    Settings, Started, Table, Values, Written,
};

// The table of the rows, of any number, or a refusal and no bridges.
#[unsafe(no_mangle)]
pub extern "C" fn slipwattle_start(mcfg: &[u8], rows: &[BridgeRow]) -> Started
    ensures { (result.number ≡ start_number (record { mcfg = mcfg.now; rows = rows.now }))
        × (result.table ≡ start_table (record { mcfg = mcfg.now; rows = rows.now })) }
{
    slipwattle::slipwattle_start(mcfg, rows)
}

// _OSC: the answer buffer is filled, or left as it was lent.
#[unsafe(no_mangle)]
pub extern "C" fn slipwattle_osc(
    t: &mut Table,
    s: SessionNumber,
    n: BridgeNumber,
    revision: u32,
    count: u32,
    uuid: &[u8],
    caps: &[u8],
    answer: &mut [u8],
) -> u8
    requires { Sound t.old }
    ensures { (outcome result nothing (uuid.now ∷ caps.now ∷ answer.new ∷ [])
        ≡ (step t.old (on s n (osc revision count uuid.now caps.now answer.old))).outcome)
        × (t.new ≡ (step t.old (on s n (osc revision count uuid.now caps.now answer.old))).table) }
{
    slipwattle::slipwattle_osc(t, s, n, revision, count, uuid, caps, answer)
}

#[unsafe(no_mangle)]
pub extern "C" fn slipwattle_reset(t: &mut Table, s: SessionNumber, n: BridgeNumber) -> u8
    requires { Sound t.old }
    ensures { (outcome result nothing [] ≡ (step t.old (on s n reset)).outcome) × (t.new ≡ (step t.old (on s n reset)).table) }
{
    slipwattle::slipwattle_reset(t, s, n)
}

#[unsafe(no_mangle)]
pub extern "C" fn slipwattle_report(t: &mut Table, s: SessionNumber, n: BridgeNumber) -> Reported
    requires { Sound t.old }
    ensures { (outcome result.number (reported result.holding) [] ≡ (step t.old (on s n report)).outcome)
        × (t.new ≡ (step t.old (on s n report)).table) }
{
    slipwattle::slipwattle_report(t, s, n)
}

// The numbers of a place are u32, so that device 256 is refused and not taken for device 0.
#[unsafe(no_mangle)]
pub extern "C" fn slipwattle_address(
    t: &mut Table,
    s: SessionNumber,
    n: BridgeNumber,
    bus: u32,
    device: u32,
    function: u32,
    offset: u32,
    width: u32,
) -> Addressed
    requires { Sound t.old }
    ensures { (outcome result.number (addressed result.address) [] ≡ (step t.old (on s n (address bus device function offset width))).outcome)
        × (t.new ≡ (step t.old (on s n (address bus device function offset width))).table) }
{
    slipwattle::slipwattle_address(t, s, n, bus, device, function, offset, width)
}

// The bridges are searched where they stand.
#[unsafe(no_mangle)]
pub extern "C" fn slipwattle_locate(t: &mut Table, s: SessionNumber, address: u64) -> Located
    requires { Sound t.old }
    ensures { (outcome result.number (located result.place) [] ≡ (step t.old (locate s address)).outcome)
        × (t.new ≡ (step t.old (locate s address)).table) }
{
    slipwattle::slipwattle_locate(t, s, address)
}

// The record type is u32, so that type 256 is refused and not taken for type 0.
#[unsafe(no_mangle)]
pub extern "C" fn slipwattle_find_record<'a>(
    slot: &'a [u8],
    block: &'a [u8],
    record_type: u32,
) -> RecordAt
    ensures { result ≡ record_at slot.now block.now record_type }
{
    slipwattle::slipwattle_find_record(slot, block, record_type)
}

// Where the image lies in the ROM. Vendor, device and code type are u32, so that none is taken for a smaller number.
#[unsafe(no_mangle)]
pub extern "C" fn slipwattle_find_image(
    rom: &[u8],
    vendor: u32,
    device: u32,
    code_type: u32,
) -> FoundAt
    ensures { result ≡ find_image rom.now vendor device code_type }
{
    slipwattle::slipwattle_find_image(rom, vendor, device, code_type)
}

// Setting records by value, those present laid down at the start of the buffer by rising type; the rest of it is left untouched.
#[unsafe(no_mangle)]
pub extern "C" fn slipwattle_write_records(settings: Settings, buffer: &mut [u8]) -> Written
    ensures { (result ≡ write_records settings buffer.old) × (buffer.new ≡ buffer_after settings buffer.old) }
{
    slipwattle::slipwattle_write_records(settings, buffer)
}

#[unsafe(no_mangle)]
pub extern "C" fn slipwattle_register_values<'a>(
    t: &mut Table,
    s: SessionNumber,
    n: BridgeNumber,
    slot: &'a [u8],
    block: &'a [u8],
    current: &[u32],
) -> Values
    requires { Sound t.old }
    ensures { (outcome result.number (values result.values) (slot.now ∷ block.now ∷ current.now ∷ [])
        ≡ (step t.old (on s n (register_values slot.now block.now current.now))).outcome)
        × (t.new ≡ (step t.old (on s n (register_values slot.now block.now current.now))).table) }
{
    slipwattle::slipwattle_register_values(t, s, n, slot, block, current)
}
