// Reading an address back: the search among the bridges of a table.
#![tactic(auto)]

ghost use Rattle.std.specs.Prelude.{◌≡◌, ◌≤◌, [], length, position};
ghost use Rattle.rules.specs.Limits.{max_rows};
ghost use Rattle.rules.specs.Place.{no_place, own_window};
ghost use Rattle.rules.specs.Calls.{outcome, located};
ghost use Rattle.codes.specs.Numbers.{number, given};
ghost use Rattle.locate.specs.Back.{read_back};

use codes::Refusal;
use rules::{Bridge, BridgeNumber, Located, Place, SessionNumber};

// A search bridge by bridge: the one to look at next, and what was found so far.
// Stays: the theorem `Seeking` in crates/locate/proofs speaks of it.
#[derive(Clone, Copy)]
pub struct Search {
    pub next: usize,
    pub found: Located,
}

// Where the first bridge of the session stands whose window has the address; windows of one table share no byte.
fn find(bridges: &[Bridge], s: SessionNumber, address: u64) -> Option<usize>
    ensures { result ≡ position (own_window s address) bridges.now }
{
    bridges
        .iter()
        .position(|b| one_bridge::own_window(*b, s, address))
}

// The place of an address in one of the session's bridges.
#[tactic(auto, unfolding(rules::specs::Limits::max_rows))]
pub fn locate(bridges: &[Bridge], s: SessionNumber, address: u64) -> Result<Place, Refusal>
    requires { length bridges.now ≤ max_rows }
    ensures { outcome (number result) (located (given no_place result)) [] ≡ read_back bridges.now s address }
{
    let i = find(bridges, s, address).ok_or(Refusal::NoSuchBus)?;
    Ok(ecam::place_of(BridgeNumber(i as u8), bridges[i], address))
}
