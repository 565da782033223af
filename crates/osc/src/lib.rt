// _OSC: framing, the granting rule by masks, the answer buffer, what a taking call adds.
#![tactic(auto)]

ghost use Rattle.std.specs.Prelude.{◌≡◌, true, false, cond, ◌++◌, ℕ, ◌*◌, ◌-◌, ◌%◌, ◌≤◌, length, replicate, MatchResult};
ghost use Rattle.codes.specs.Numbers.{edition_number};
ghost use Rattle.osc.specs.Capabilities.{dwords_of, bytes_of, answered, after};
ghost use Rattle.osc.specs.Needs.{controls, needs_met, supports_met};
ghost use Rattle.osc.specs.Statuses.{status_number};
ghost use Rattle.rules.specs.Numbers.{le32, same_bytes, bit, within};
ghost use Rattle.rules.specs.Tables.{holding};
ghost use Rattle.rules.specs.Granting.{granted_by};
ghost use Rattle.rules.specs.Editions.{known_control, known_support};
ghost use Rattle.rules.specs.Osc.{
  declared,
  granted as granted_of,
  grant_status,
  uuid_bytes,
  framing_bad,
  recognised,
  error_status,
  osc_answer,
  osc_after,
};

use codes::Edition;
use rules::constants::{
    KNOWN_CONTROL_3_0, KNOWN_CONTROL_3_3, KNOWN_SUPPORT_3_0, KNOWN_SUPPORT_3_3,
};
use rules::{Bridge, Holding};

// The UUID as it stands in the buffer.
const UUID: [u8; 16] = *b"\x5b\x4d\xdb\x33\xf7\x1f\x1c\x40\x96\x57\x74\x41\xc0\x3d\xd7\x66";

// Control bits 3, 4 and 7, and support bit 7.
const AER: u32 = 0x08;

const EXPRESS_CAPABILITY: u32 = 0x10;

const PORT_CONTAINMENT: u32 = 0x80;

const ERROR_DISCONNECT_RECOVER: u32 = 0x80;

// The control bits that need no other: 1 and 4; 4, 6 and 9 in edition 3.3. Those that need bit 4 alone: 0, 2 and 3. Those that need it at most: all but 3 and 7 in edition 3.3.
const FREE_3_0: u32 = 0x12;

const FREE_3_3: u32 = 0x250;

const DEPENDENT_3_0: u32 = 0x0d;

const CAPABLE_3_3: u32 = 0x377;

// The control bits that need no support: all; all but 7 in edition 3.3.
const UNSUPPORTED_3_0: u32 = 0x1f;

const UNSUPPORTED_3_3: u32 = 0x37f;

// The flag in the status DWORD.
const QUERY: u32 = 0x01;

// The status of a call with requested bits that are not granted.
const MASKED: u32 = 0x10;

// An _OSC call as a session makes it, but for the bridge and the answer buffer.
#[derive(Clone, Copy)]
pub struct Request<'a> {
    pub revision: u32,
    pub count: u32,
    pub uuid: &'a [u8],
    pub caps: &'a [u8],
}

// What a framed call that is not recognised has wrong, by the status that answers it.
#[derive(Clone, Copy)]
enum ErrorStatus {
    Count = 0x02,
    Uuid = 0x04,
    Revision = 0x08,
}

impl From<ErrorStatus> for u32 {
    ghost from_gives = { λ status n. n ≡ status_number status };

    fn from(status: ErrorStatus) -> u32 {
        status as u32
    }
}

// The three DWORDs of a recognised call, as they come and as they are answered.
#[derive(Clone, Copy)]
struct Capabilities {
    status: u32,
    support: u32,
    control: u32,
}

// The control bits that an edition knows.
// Stays beside start's: the edits `bit_5_let_in` and `bit_10_let_in` are of this one, `bit_10_permitted` is of that.
#[tactic(auto, unfolding(rules::specs::Editions::known_control, rules::specs::Editions::control_bits))]
fn known_control(edition: Edition) -> u32
    ensures { result ≡ known_control (edition_number edition) }
{
    match edition {
        Edition::V3_0 => KNOWN_CONTROL_3_0,
        Edition::V3_3 => KNOWN_CONTROL_3_3,
    }
}

// The support bits that an edition knows.
#[tactic(auto, unfolding(rules::specs::Editions::known_support))]
fn known_support(edition: Edition) -> u32
    ensures { result ≡ known_support (edition_number edition) }
{
    match edition {
        Edition::V3_0 => KNOWN_SUPPORT_3_0,
        Edition::V3_3 => KNOWN_SUPPORT_3_3,
    }
}

// These bits, where the set has all that they need.
#[tactic(auto, using(std::proofs::lemmas::Nat::and_comm))]
fn met(set: u32, needs: u32, bits: u32) -> u32
    ensures { result ≡ cond (within needs set) bits 0 }
{
    if set & needs == needs { bits } else { 0 }
}

// The control bits whose needed control bits are available. Edition 3.0: 0, 2 and 3 need bit 4. Edition 3.3: 0, 1, 2, 5 and 8 need bit 4; 3 needs 4 and 7; 7 needs 3 and 4.
#[tactic(auto, using(crate::proofs::Masks::needs))]
fn needs_met(edition: Edition, available: u32) -> u32
    ensures { result ≡ needs_met (controls edition) available }
{
    match edition {
        Edition::V3_0 => FREE_3_0 | met(available, EXPRESS_CAPABILITY, DEPENDENT_3_0),
        Edition::V3_3 => {
            if available & EXPRESS_CAPABILITY == EXPRESS_CAPABILITY {
                CAPABLE_3_3
                    | met(available, PORT_CONTAINMENT, AER)
                    | met(available, AER, PORT_CONTAINMENT)
            } else {
                FREE_3_3
            }
        }
    }
}

// The control bits whose needed support bits are declared. Edition 3.0: all. Edition 3.3: bit 7 needs support bit 7.
#[tactic(auto, using(crate::proofs::Masks::supports))]
fn supports_met(edition: Edition, declared: u32) -> u32
    ensures { result ≡ supports_met (controls edition) declared }
{
    match edition {
        Edition::V3_0 => UNSUPPORTED_3_0,
        Edition::V3_3 => UNSUPPORTED_3_3
            | met(declared, ERROR_DISCONNECT_RECOVER, PORT_CONTAINMENT),
    }
}

// The granted bits by the masks of an edition. What the bits that a bit needs need in turn is needed by it too, or is itself, so one look at the available bits is enough.
#[tactic(auto, using(crate::proofs::Masks::granted_lem))]
fn granted(edition: Edition, permitted: u32, held: u32, declared: u32, requested: u32) -> u32
    ensures { result ≡ granted_by (controls edition) permitted held declared requested }
{
    let grantable = permitted & supports_met(edition, declared);
    let available = requested & known_control(edition) & (held | grantable);
    available & (held | needs_met(edition, available))
}

// The support bits declared to a bridge: by earlier calls, and the known ones of this one.
#[tactic(auto, using(crate::proofs::Masks::support_of))]
fn declared(b: Bridge, support: u32) -> u32
    ensures { result ≡ declared b support }
{
    b.supported | (support & known_support(Edition::of_bridge(b.edition)))
}

// The control bits granted of those requested, by the bridge's edition.
// Stays: two calls; tried one, `granted(edition, ..)`; the compiler then picks each mask apart, and a call takes 15 instructions more.
pub fn granted_bits(b: Bridge, support: u32, requested: u32) -> u32
    ensures { result ≡ granted_of b support requested }
{
    let declared = declared(b, support);
    match Edition::of_bridge(b.edition) {
        Edition::V3_0 => granted(Edition::V3_0, b.permitted, b.held, declared, requested),
        Edition::V3_3 => granted(Edition::V3_3, b.permitted, b.held, declared, requested),
    }
}

// Whether any requested bit is not granted, as a status. What is granted was requested, so that to compare the two is enough.
fn grant_status(requested: u32, granted: u32) -> u32
    requires { within granted requested ≡ true }
    ensures { result ≡ grant_status requested granted }
{
    if granted == requested { 0 } else { MASKED }
}

// What a bridge holds.
fn holding(b: Bridge) -> Holding
    ensures { result ≡ holding b }
{
    Holding {
        held: b.held,
        supported: b.supported,
    }
}

impl Capabilities {
    // The DWORDs in a buffer.
    fn read(caps: &[u8; 12]) -> Capabilities
        ensures { result ≡ dwords_of caps.now }
    {
        Capabilities {
            status: words::read32(caps, 0),
            support: words::read32(caps, 4),
            control: words::read32(caps, 8),
        }
    }

    // The DWORDs as the whole buffer.
    fn write(self, answer: &mut [u8])
        requires { length answer.old ≡ 12 }
        ensures { answer.new ≡ bytes_of self }
    {
        words::write32(answer, 0, self.status);
        words::write32(answer, 4, self.support);
        words::write32(answer, 8, self.control);
    }

    // Whether the query flag is set.

    #[tactic(auto, using(crate::proofs::Masks::query_test))]
    fn is_query(self) -> bool
        ensures { result ≡ bit self.status 0 }
    {
        self.status & QUERY != 0
    }

    // The answer: the status, the support DWORD as it came, the granted bits.
    #[tactic(auto, using(rules::proofs::Granting::granted_within))]
    fn answered(self, b: Bridge) -> Capabilities
        ensures { result ≡ answered b self }
    {
        let granted = granted_bits(b, self.support, self.control);
        Capabilities {
            status: grant_status(self.control, granted),
            support: self.support,
            control: granted,
        }
    }

    // What the bridge holds after the call: a query adds nothing.
    fn after(self, b: Bridge, granted: u32) -> Holding
        requires { granted ≡ granted_of b self.support self.control }
        ensures { result ≡ after b self }
    {
        if self.is_query() {
            holding(b)
        } else {
            Holding {
                held: b.held | granted,
                supported: declared(b, self.support),
            }
        }
    }
}

// The status of an error, and zeros to the end.
// Stays: tried `answer[4..].fill(0)`; like a loop over `chunks_exact_mut(4)` it calls memset, and an error with Count 3 takes 29 instructions more.
fn write_error(answer: &mut [u8], error: ErrorStatus)
    requires { (4 ≤ length answer.old) × (length answer.old ≤ 32) × (length answer.old % 4 ≡ 0) }
    ensures { answer.new ≡ le32 (status_number error) ++ replicate (length answer.old - 4) 0 }
{
    words::write32(answer, 0, u32::from(error));
    for dword in 1..8 {
        let at = 4 * dword;
        if at < answer.len() {
            words::write32(answer, at, 0);
        }
    }
}

impl Request<'_> {
    // Refusal 3.
    #[tactic(auto, unfolding(rules::specs::Osc::framing_bad))]
    pub fn framing_bad(self, answer: &[u8]) -> bool
        ensures { result ≡ framing_bad self.entry.count self.entry.uuid.now self.entry.caps.now answer.now }
    {
        let bytes = 4 * (self.count as usize);
        self.uuid.len() != 16
            || self.count == 0
            || 8 < self.count
            || self.caps.len() != bytes
            || answer.len() != bytes
    }

    // The DWORDs of a call with the right UUID, revision and Count, else the error. Count is 3 where there are three DWORDs.
    #[tactic(auto, unfolding(rules::specs::Osc::recognised))]
    fn recognised(self) -> Result<Capabilities, ErrorStatus>
        requires { length self.caps.now ≡ 4 * self.count }
        ensures { MatchResult result
            (λ caps. (recognised self.entry.revision self.entry.count self.entry.uuid.now ≡ true) × (caps ≡ dwords_of self.entry.caps.now))
            (λ e. (recognised self.entry.revision self.entry.count self.entry.uuid.now ≡ false)
            × (status_number e ≡ error_status self.entry.revision self.entry.uuid.now)) }
    {
        if !words::same(self.uuid, &UUID) {
            return Err(ErrorStatus::Uuid);
        }
        if self.revision != 1 {
            return Err(ErrorStatus::Revision);
        }
        let caps = self.caps.as_array().ok_or(ErrorStatus::Count)?;
        Ok(Capabilities::read(caps))
    }

    // An _OSC call that none of 1, 2 and 3 refuses: the answer buffer is filled; what the bridge holds after it is handed back.
    #[tactic(auto, using(crate::proofs::Framing::framing), unfolding(rules::specs::Osc::osc_answer, rules::specs::Osc::osc_after))]
    pub fn respond(self, b: Bridge, answer: &mut [u8]) -> Holding
        requires { framing_bad self.count self.uuid.now self.caps.now answer.old ≡ false }
        ensures { (answer.new ≡ osc_answer b self.entry.revision self.entry.count self.entry.uuid.now self.entry.caps.now)
            × (result ≡ osc_after b self.entry.revision self.entry.count self.entry.uuid.now self.entry.caps.now) }
    {
        match self.recognised() {
            Ok(caps) => {
                let answered = caps.answered(b);
                answered.write(answer);
                caps.after(b, answered.control)
            }
            Err(error) => {
                write_error(answer, error);
                holding(b)
            }
        }
    }
}
