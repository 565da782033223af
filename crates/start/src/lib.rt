// The table of a lent MCFG table and the rows of a starting list.
#![tactic(auto)]

ghost use Rattle.std.specs.Prelude.{◌≡◌, true, cond};
ghost use Rattle.rules.specs.Mcfg.{entries};
ghost use Rattle.rules.specs.Tables.{table_with};
ghost use Rattle.rules.specs.Editions.{known_control};
ghost use Rattle.rules.specs.Start.{permissible, rows_apart};
ghost use Rattle.codes.specs.Numbers.{number, given, kind_number, edition_number};
ghost use Rattle.start.specs.Admission.{row_sound_if, admitted, first_refusal, no_bridges};

use codes::{Edition, Kind, Refusal};
use rules::constants::{KNOWN_CONTROL_3_0, KNOWN_CONTROL_3_3, MAX_OWNER};
use rules::{Bridge, BridgeRow, Table};

// Control bit 1.
const SHPC: u32 = 0x02;

// The control bits that an edition knows.
// Stays beside osc's: the edit `bit_10_permitted` is of this one, `bit_5_let_in` and `bit_10_let_in` are of that.
#[tactic(auto, unfolding(rules::specs::Editions::known_control, rules::specs::Editions::control_bits))]
fn known_control(edition: Edition) -> u32
    ensures { result ≡ known_control (edition_number edition) }
{
    match edition {
        Edition::V3_0 => KNOWN_CONTROL_3_0,
        Edition::V3_3 => KNOWN_CONTROL_3_3,
    }
}

// The control bits that a row of this kind may permit, of those that its edition knows.
fn permissible(kind: Kind, edition: Edition) -> u32
    ensures { result ≡ permissible (kind_number kind) (edition_number edition) }
{
    match kind {
        Kind::Express => known_control(edition),
        Kind::Conventional => SHPC,
    }
}

// What is sound of one row that lies inside an entry.
#[tactic(auto, unfolding(rules::specs::Limits::max_owner))]
fn row_sound(row: BridgeRow) -> Result<(), Refusal>
    ensures { result ≡ cond (row_sound_if true row) (Ok tt) (Err Refusal.Rows) }
{
    let kind = Kind::try_from(row.kind)?;
    let edition = Edition::try_from(row.edition)?;
    let mask = permissible(kind, edition);
    if (row.owner.0 <= MAX_OWNER)
        & (row.first_bus <= row.last_bus)
        & (row.permitted & mask == row.permitted)
    {
        return Ok(());
    }
    Err(Refusal::Rows)
}

// Two rows of one segment share no bus.
pub fn rows_apart(q: BridgeRow, row: BridgeRow) -> bool
    ensures { result ≡ rows_apart q row }
{
    if q.segment != row.segment {
        return true;
    }
    (q.last_bus < row.first_bus) | (row.last_bus < q.first_bus)
}

// A row judged against the MCFG entries: its bridge, or 7; `apart` says that it shares no bus with a row before it.
pub fn admit(mcfg: &[u8], row: BridgeRow, apart: bool) -> Result<Bridge, Refusal>
    ensures { result ≡ admitted (entries mcfg.now) row apart }
{
    let entry = mcfg::entry_of(mcfg, row).ok_or(Refusal::Rows)?;
    row_sound(row)?;
    if !apart {
        return Err(Refusal::Rows);
    }
    Ok(Bridge {
        base: entry.base,
        permitted: row.permitted,
        held: 0,
        supported: 0,
        segment: row.segment,
        owner: row.owner,
        first_bus: row.first_bus,
        last_bus: row.last_bus,
        edition: row.edition,
    })
}

// What start refuses before it judges a row: 6, the MCFG table is not sound; 7, more rows than a table holds.
#[tactic(auto, unfolding(rules::specs::Limits::max_rows))]
pub fn first_refusal(mcfg: &[u8], count: usize) -> Result<(), Refusal>
    ensures { result ≡ first_refusal mcfg.now count }
{
    if !mcfg::sound(mcfg) {
        return Err(Refusal::Mcfg);
    }
    if rules::MAX_ROWS < count {
        return Err(Refusal::Rows);
    }
    Ok(())
}

// The array of a table with no bridges.
#[tactic(auto, unfolding(rules::specs::Limits::max_rows))]
pub fn no_bridges() -> [Bridge; rules::MAX_ROWS]
    ensures { result ≡ no_bridges }
{
    [Bridge::default(); rules::MAX_ROWS]
}

// Start's number, and how many bridges its table has: those of the rows judged, none where start is refused.
// Stays a number with a count, since C reads both, and beside slipwattle's `crossing`: the edits `done_when_refused`, `refusal_dropped` and `whole_array_counted` are of it.
pub fn settle(judged: Result<usize, Refusal>) -> (u8, usize)
    ensures { (result.0 ≡ number judged) × (result.1 ≡ given 0 judged) }
{
    (codes::number(judged), judged.unwrap_or(0))
}
