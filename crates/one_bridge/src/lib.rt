// Each call on one bridge of the table, by value: the bridge named and the number of bridges go in, the answer or the refusal comes out, and of a call that changes the
// bridge what it then holds. Every refusal of a call is given by its function here; 8, 9 and 10 are found by hpx.
#![tactic(auto)]

ghost use Rattle.std.specs.Prelude.{◌≡◌, ◌<◌, ◌%◌, [], ◌∷◌, replicate};
ghost use Rattle.rules.specs.Numbers.{bit};
ghost use Rattle.rules.specs.Limits.{max_rows};
ghost use Rattle.rules.specs.Place.{own_window};
ghost use Rattle.rules.specs.Start.{BridgeSound};
ghost use Rattle.rules.specs.Tables.{nothing_held};
ghost use Rattle.rules.specs.Calls.{
  reset,
  report,
  register_values,
  nothing,
  reported,
  addressed,
  values,
  outcome,
  absent,
  foreign,
  number_at,
};
ghost use Rattle.codes.specs.Numbers.{number, given};
ghost use Rattle.one_bridge.specs.Answers.{requested, asked_for, outcome_of, after, keeping};

use codes::Refusal;
use ecam::Asked;
use osc::Request;
use rules::{Bridge, BridgeNumber, Holding, MAX_ROWS, SessionNumber};

// The control bits by which register values go: Express hot plug, and AER.
const HOT_PLUG: u32 = 0;

const AER: u32 = 3;

// A number, and the bridge after the call.
// Stays: the theorems in crates/lent (`bridge_stored`, `kept`) and `as_done` in crates/slipwattle/proofs/Done speak of it.
#[repr(C)]
#[derive(Clone, Copy)]
pub struct BridgeDone {
    pub number: u8,
    pub bridge: Bridge,
}

// A session's call on a bridge number: how many bridges the table has, and the one at the number's index.
#[derive(Clone, Copy)]
pub struct BridgeCall {
    pub bridges: usize,
    pub bridge: Bridge,
    pub session: SessionNumber,
    pub number: BridgeNumber,
}

// Where a bridge stands in the table's array. It is inside the array whatever the number is; the calls refuse a number that the table has not.
#[tactic(auto, unfolding(rules::specs::Limits::max_rows))]
pub fn index(n: BridgeNumber) -> usize
    ensures { result ≡ n.0 % max_rows }
{
    usize::from(n.0) % MAX_ROWS
}

impl BridgeCall {
    // Refusal 1.
    fn absent(self) -> bool
        ensures { result ≡ absent self.bridges self.number }
    {
        self.bridges <= usize::from(self.number.0)
    }

    // Refusal 2.
    fn foreign(self) -> bool
        ensures { result ≡ foreign self.session self.bridge }
    {
        self.bridge.owner != self.session
    }

    // Refusals 1 and 2, which are those of reset and of report.
    fn allowed(self) -> Result<(), Refusal>
        ensures { number result ≡ number_at self.bridges self.session self.number self.bridge reset }
    {
        if self.absent() {
            return Err(Refusal::NoSuchBridge);
        }
        if self.foreign() {
            return Err(Refusal::NotOwner);
        }
        Ok(())
    }

    // Stays: the two tests written out; by `allowed` and `?` a reset takes 26 instructions in place of 17.
    pub fn reset(self) -> Result<Holding, Refusal>
        ensures { (outcome (number result) nothing [] ≡ outcome_of self reset) × (keeping self.bridge result ≡ after self reset) }
    {
        if self.absent() {
            return Err(Refusal::NoSuchBridge);
        }
        if self.foreign() {
            return Err(Refusal::NotOwner);
        }
        Ok(Holding::default())
    }

    // Stays: the two tests written out; by `allowed` and `?` a report takes 30 instructions in place of 25.
    pub fn report(self) -> Result<Holding, Refusal>
        ensures { outcome (number result) (reported (given nothing_held result)) [] ≡ outcome_of self report }
    {
        if self.absent() {
            return Err(Refusal::NoSuchBridge);
        }
        if self.foreign() {
            return Err(Refusal::NotOwner);
        }
        Ok(Holding {
            held: self.bridge.held,
            supported: self.bridge.supported,
        })
    }

    // _OSC: the answer buffer is filled, or left as it was lent.
    pub fn osc(self, request: Request, answer: &mut [u8]) -> Result<Holding, Refusal>
        ensures { (outcome (number result) nothing (request.entry.uuid.now ∷ request.entry.caps.now ∷ answer.new ∷ [])
            ≡ outcome_of self (requested request.entry answer.old))
            × (keeping self.bridge result ≡ after self (requested request.entry answer.old)) }
    {
        self.allowed()?;
        if request.framing_bad(answer) {
            return Err(Refusal::Framing);
        }
        Ok(request.respond(self.bridge, answer))
    }

    // Refusals 1, 2, 5 and 4 stand before the address.
    pub fn address(self, asked: Asked) -> Result<u64, Refusal>
        requires { BridgeSound self.bridges self.number self.bridge }
        ensures { outcome (number result) (addressed (given 0 result)) [] ≡ outcome_of self (asked_for asked) }
    {
        self.allowed()?;
        if asked.place_bad() {
            return Err(Refusal::BadPlace);
        }
        if asked.bus_outside(self.bridge) {
            return Err(Refusal::NoSuchBus);
        }
        Ok(asked.address_of(self.bridge))
    }

    // Whether the bridge holds this control bit.
    #[tactic(auto, unfolding(rules::specs::Numbers::bit))]
    fn holds(self, control: u32) -> bool
        requires { control < 32 }
        ensures { result ≡ bit self.bridge.held control }
    {
        self.bridge.held >> control & 1 == 1
    }

    // Refusals 1, 2, 11 and 10 stand before 8, 9 and the values.
    pub fn register_values(
        self,
        slot: &[u8],
        block: &[u8],
        current: &[u32],
    ) -> Result<[u32; 8], Refusal>
        ensures { outcome (number result) (values (given (replicate 8 0) result)) (slot.now ∷ block.now ∷ current.now ∷ [])
            ≡ outcome_of self (register_values slot.now block.now current.now) }
    {
        self.allowed()?;
        if !self.holds(HOT_PLUG) {
            return Err(Refusal::NoHotPlug);
        }
        let current = hpx::registers(current)?;
        hpx::register_values(slot, block, current, self.holds(AER))
    }
}

// Whether an address lies in the bridge, which is of the session.
pub fn own_window(bridge: Bridge, s: SessionNumber, address: u64) -> bool
    ensures { result ≡ own_window s address bridge }
{
    (bridge.owner == s) && ecam::in_window(bridge, address)
}
