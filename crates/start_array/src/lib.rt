// Start with the rows of an array by value, for programs: the array is lent here.
#![tactic(auto)]

ghost use Rattle.std.specs.Prelude.{◌≡◌, take};
ghost use Rattle.rules.specs.Start.{start_number, start_table};

use rules::{BridgeRow, Started};

// The rows of an array: one more than a table holds, so that a list that is too long can be handed in.
pub const LIST_ROWS: usize = rules::MAX_ROWS + 1;

// Start with the first `count` rows of an array by value.
// Stays: an array with a count, which serves the core first by document 01 (docs/REQUIREMENTS, B131); over a slice it is `slipwattle_start`.
pub fn start_array(mcfg: &[u8], rows: [BridgeRow; LIST_ROWS], count: usize) -> Started
    ensures { (result.number ≡ start_number (record { mcfg = mcfg.now; rows = take count rows }))
        × (result.table ≡ start_table (record { mcfg = mcfg.now; rows = take count rows })) }
{
    slipwattle::slipwattle_start(mcfg, &rows[..count.min(LIST_ROWS)])
}
