// The calls on a lent table: each is the call on one bridge where it stands, and what that gave is stored in the bridge. The index stays inside the array whatever the bridge
// number is; the call on the bridge refuses a number that the table has not.
// Stays: `Sound` in the clause of each; the table lies in C's memory, and a type that says it could not be lent from there (for programs, SoundTable of crates/fixtures).
#![tactic(auto)]

ghost use Rattle.std.specs.Prelude.{◌≡◌, [], ◌∷◌, replicate};
ghost use Rattle.rules.specs.Place.{no_place};
ghost use Rattle.rules.specs.Tables.{nothing_held};
ghost use Rattle.rules.specs.Start.{Sound, BridgeSound};
ghost use Rattle.rules.specs.Calls.{
  reset,
  report,
  register_values,
  on,
  locate,
  nothing,
  reported,
  addressed,
  located,
  values,
  outcome,
};
ghost use Rattle.codes.specs.Numbers.{number, given};
ghost use Rattle.one_bridge.specs.Answers.{requested, asked_for};
ghost use Rattle.bridges.specs.OnTable.{Steps, call_on, storing};

use codes::Refusal;
use ecam::Asked;
use one_bridge::BridgeCall;
use osc::Request;
use rules::{BridgeNumber, Holding, Place, SessionNumber, Table};

// The call of session s on bridge n.
fn call(t: &Table, s: SessionNumber, n: BridgeNumber) -> BridgeCall
    requires { Sound t.now }
    ensures made { result ≡ call_on t.now s n }
    ensures sound { BridgeSound result.bridges result.number result.bridge }
{
    BridgeCall {
        bridges: t.count,
        bridge: t.bridges[one_bridge::index(n)],
        session: s,
        number: n,
    }
}

// What a call gave is stored in the bridge.
fn store(t: &mut Table, n: BridgeNumber, done: Result<Holding, Refusal>) -> Result<(), Refusal>
    requires { Sound t.old }
    ensures answered { number result ≡ number done }
    ensures stored { t.new ≡ storing t.old n done }
{
    let Holding { held, supported } = done?;
    let i = one_bridge::index(n);
    let mut bridge = t.bridges[i];
    bridge.held = held;
    bridge.supported = supported;
    t.bridges[i] = bridge;
    Ok(())
}

pub fn reset(t: &mut Table, s: SessionNumber, n: BridgeNumber) -> Result<(), Refusal>
    requires { Sound t.old }
    ensures { Steps t.old (on s n reset) (outcome (number result) nothing []) t.new }
{
    let done = call(t, s, n).reset();
    store(t, n, done)
}

pub fn report(t: &Table, s: SessionNumber, n: BridgeNumber) -> Result<Holding, Refusal>
    requires { Sound t.now }
    ensures { Steps t.now (on s n report) (outcome (number result) (reported (given nothing_held result)) []) t.now }
{
    call(t, s, n).report()
}

// _OSC: the answer buffer is filled, or left as it was lent.
pub fn osc(
    t: &mut Table,
    s: SessionNumber,
    n: BridgeNumber,
    request: Request,
    answer: &mut [u8],
) -> Result<(), Refusal>
    requires { Sound t.old }
    ensures { Steps t.old (on s n (requested request.entry answer.old)) (outcome (number result) nothing (request.entry.uuid.now ∷ request.entry.caps.now ∷ answer.new ∷ [])) t.new }
{
    let done = call(t, s, n).osc(request, answer);
    store(t, n, done)
}

pub fn address(t: &Table, s: SessionNumber, n: BridgeNumber, asked: Asked) -> Result<u64, Refusal>
    requires { Sound t.now }
    ensures { Steps t.now (on s n (asked_for asked)) (outcome (number result) (addressed (given 0 result)) []) t.now }
{
    call(t, s, n).address(asked)
}

// The place of an address in one of the session's bridges.
#[tactic(auto, unfolding(rules::specs::Limits::max_rows))]
pub fn locate(t: &Table, s: SessionNumber, address: u64) -> Result<Place, Refusal>
    requires { Sound t.now }
    ensures { Steps t.now (locate s address) (outcome (number result) (located (given no_place result)) []) t.now }
{
    locate::locate(&t.bridges[..t.count], s, address)
}

pub fn register_values(
    t: &Table,
    s: SessionNumber,
    n: BridgeNumber,
    slot: &[u8],
    block: &[u8],
    current: &[u32],
) -> Result<[u32; 8], Refusal>
    requires { Sound t.now }
    ensures { Steps t.now (on s n (register_values slot.now block.now current.now)) (outcome (number result) (values (given (replicate 8 0) result)) (slot.now ∷ block.now ∷ current.now ∷ [])) t.now }
{
    call(t, s, n).register_values(slot, block, current)
}
