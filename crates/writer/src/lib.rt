// The writer of record blocks: setting records checked against their ranges and laid down by rising type.
#![tactic(auto)]

ghost use Rattle.std.specs.Prelude.{◌≡◌, ◌++◌, ◌+◌, ◌*◌, ◌≤◌, cond, eqb, length, drop};
ghost use Rattle.rules.specs.Numbers.{dwords};
ghost use Rattle.rules.specs.Writer.{present_in, record_bytes, laid_down, write_records, buffer_after};
ghost use Rattle.writer.specs.Splices.{splice};
ghost use Rattle.writer.specs.Measures.{if_some, records, measured, written};

use codes::Refusal;
use ranges::SettingRecord;
use rules::{ExpressSetting, PciSetting, PciXSetting, Settings};

// The records that are present.
#[derive(Clone, Copy)]
struct Present {
    pci: Option<PciSetting>,
    pci_x: Option<PciXSetting>,
    express: Option<ExpressSetting>,
}

// A record that is present, as any flag but 0 says.
// Stays: with `then_some`, or `None` in a branch of its own, the writer takes 5 to 9 instructions more.
fn if_flag<S: Copy>(flag: u8, r: S) -> Option<S>
    ensures { result ≡ cond (eqb flag 0) None (Some r) }
{
    let mut present = Some(r);
    if flag == 0 {
        present = None;
    }
    present
}

impl From<Settings> for Present {
    ghost from_gives = { λ s present. records present ≡ present_in s };

    fn from(s: Settings) -> Present {
        Present {
            pci: if_flag(s.has_pci, s.pci),
            pci_x: if_flag(s.has_pci_x, s.pci_x),
            express: if_flag(s.has_express, s.express),
        }
    }
}

// The bytes of a record that may be absent, header included; 14 where a value is out of its range.
fn measure<const N: usize, S: SettingRecord<N>>(r: Option<S>) -> Result<usize, Refusal>
    ensures { result ≡ measured (if_some S.TYPE S.numbers r) }
{
    match r {
        None => Ok(0),
        Some(r) if r.in_ranges() => Ok(3 + 4 * N),
        Some(_) => Err(Refusal::RecordValue),
    }
}

// Numbers, little-endian, from `at` on.
fn write_numbers<const N: usize>(b: &mut [u8], at: usize, v: &[u32; N])
    requires { 4 * N + at ≤ length b.old }
    ensures { b.new ≡ splice at (dwords v.now) b.old }
{
    for (k, x) in v.iter().enumerate() {
        words::write32(b, 4 * k + at, *x);
    }
}

// A record from `at` on: tag, length, numbers.
fn write_record<const N: usize, S: SettingRecord<N>>(b: &mut [u8], at: usize, r: S)
    requires { 3 + 4 * N + at ≤ length b.old }
    ensures { b.new ≡ splice at (record_bytes (record { type = S.TYPE; numbers = S.numbers r })) b.old }
{
    b[at] = S::TYPE;
    words::write16(b, 1 + at, (4 * N) as u16);
    let numbers = r.numbers();
    write_numbers(b, 3 + at, &numbers);
}

// A record that may be absent, from `at` on; where the next one goes is handed back.
fn write_if<const N: usize, S: SettingRecord<N>>(b: &mut [u8], at: usize, r: Option<S>) -> usize
    requires { length (laid_down (if_some S.TYPE S.numbers r)) + at ≤ length b.old }
    ensures { (result ≡ length (laid_down (if_some S.TYPE S.numbers r)) + at)
        × (b.new ≡ splice at (laid_down (if_some S.TYPE S.numbers r)) b.old) }
{
    let Some(r) = r else {
        return at;
    };
    write_record(b, at, r);
    3 + 4 * N + at
}

impl Present {
    // The bytes of all of them.
    fn measure(self) -> Result<usize, Refusal>
        ensures { result ≡ measured (records self) }
    {
        Ok(measure(self.pci)? + measure(self.pci_x)? + measure(self.express)?)
    }

    // All of them by rising type, at the start of the buffer.
    fn lay_down(self, buffer: &mut [u8])
        requires { length (laid_down (records self)) ≤ length buffer.old }
        ensures { buffer.new ≡ laid_down (records self) ++ drop (length (laid_down (records self))) buffer.old }
    {
        let second = write_if(buffer, 0, self.pci);
        let third = write_if(buffer, second, self.pci_x);
        write_if(buffer, third, self.express);
    }
}

// 14, 15, else the present records are laid down and their length is handed back.
pub fn write_records(s: Settings, buffer: &mut [u8]) -> Result<usize, Refusal>
    ensures { (written result ≡ write_records s buffer.old) × (buffer.new ≡ buffer_after s buffer.old) }
{
    let present = Present::from(s);
    let length = present.measure()?;
    if buffer.len() < length {
        return Err(Refusal::ShortBuffer);
    }
    present.lay_down(buffer);
    Ok(length)
}
