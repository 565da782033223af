// The lent rows of a starting list, judged where they stand.
#![tactic(auto)]

ghost use Rattle.std.specs.Prelude.{◌≡◌};
ghost use Rattle.std.specs.List.{list_all};
ghost use Rattle.rules.specs.Start.{rows_apart};
ghost use Rattle.start.specs.Admission.{Judges};

use codes::Refusal;
use rules::{Bridge, BridgeRow};

// None of the rows before it shares a bus with `row`.
fn apart_before(before: &[BridgeRow], row: BridgeRow) -> bool
    ensures { result ≡ list_all (λ q. rows_apart q row) before.now }
{
    before.iter().all(|q| start::rows_apart(*q, row))
}

// The rows judged one after the other, up to the first that is refused: how many, each with its bridge in its place in the array of a table. It is cleared first, and again where a row is refused.
// Not inlined, so that start makes its array once and copies it once.
#[inline(never)]
#[tactic(auto, unfolding(rules::specs::Limits::max_rows))]
pub fn judge(
    mcfg: &[u8],
    rows: &[BridgeRow],
    bridges: &mut [Bridge; rules::MAX_ROWS],
) -> Result<usize, Refusal>
    ensures { Judges (record { mcfg = mcfg.now; rows = rows.now }) result bridges.new }
{
    *bridges = start::no_bridges();
    start::first_refusal(mcfg, rows.len())?;
    for (i, row) in rows.iter().enumerate() {
        match start::admit(mcfg, *row, apart_before(&rows[..i], *row)) {
            Ok(bridge) => bridges[i] = bridge,
            Err(refusal) => {
                *bridges = start::no_bridges();
                return Err(refusal);
            }
        }
    }
    Ok(rows.len())
}
