// Record blocks: their fields, and the search of one block for a record.
#![tactic(auto)]

ghost use Rattle.std.specs.Prelude.{◌≡◌, ◌&&◌, [], ◌+◌, ◌*◌, ◌<◌, ◌≤◌, eqb, length, MatchOption};
ghost use Rattle.rules.specs.Records.{value, is_record, record_size, in_ranges, field_at, field_sound, find_record};
ghost use Rattle.rules.specs.Writer.{numbers_from};
ghost use Rattle.parts.specs.Found.{found_at};
ghost use Rattle.records.specs.Fields.{bytes_of, field_of, IsSplit, judged};

use codes::Refusal;
use parts::Part;
use ranges::SettingRecord;
use rules::constants::MAX_BLOCK;
use rules::{ExpressSetting, PciSetting, PciXSetting};

// A field of a block: its tag, the record type, and the bytes of its value.
#[derive(Clone, Copy)]
struct Tagged<'a> {
    tag: u8,
    value: &'a [u8],
}

// The field that stands first, and the bytes after it; none where it does not end within them.
fn split_field<'a>(b: &'a [u8]) -> Option<(Tagged<'a>, &'a [u8])>
    ensures { MatchOption result (length b.now < 3 + (field_at b.now 0).size) (λ p. IsSplit b.now p.0 p.1.now) }
{
    let (header, rest) = b.split_first_chunk::<3>()?;
    let size = usize::from(words::read16(header, 1));
    let (value, rest) = rest.split_at_checked(size)?;
    Some((
        Tagged {
            tag: header[0],
            value,
        },
        rest,
    ))
}

impl<'a> Tagged<'a> {
    // The numbers of the value, the first being the revision.
    fn numbers<const N: usize>(self) -> [u32; N]
        requires { 4 * N ≤ length self.value.now }
        ensures { result ≡ numbers_from N 0 (bytes_of self.entry) (field_of self.entry) }
    {
        std::array::from_fn(|k| words::read32(self.value, 4 * k))
    }

    // The length and the values of a record of one type.
    fn sound<const N: usize, S: SettingRecord<N>>(self) -> bool
        ensures { result ≡ (eqb (length self.entry.value.now) (record_size S.TYPE) && in_ranges S.TYPE (value (bytes_of self.entry) (field_of self.entry))) }
    {
        if self.value.len() != 4 * N {
            return false;
        }
        S::from_numbers(&self.numbers::<N>()).in_ranges()
    }

    // The same by the record's type.
    fn sound_by_type(self) -> bool
        ensures { result ≡ (eqb (length self.entry.value.now) (record_size self.entry.tag) && in_ranges self.entry.tag (value (bytes_of self.entry) (field_of self.entry))) }
    {
        match self.tag {
            0 => self.sound::<5, PciSetting>(),
            1 => self.sound::<4, PciXSetting>(),
            _ => self.sound::<17, ExpressSetting>(),
        }
    }

    // Whether the field is a revision 1 record, or is skipped; refusal 8 where it breaks a rule.
    fn is_record(self) -> Result<bool, Refusal>
        ensures { result ≡ judged (field_sound (bytes_of self.entry) (field_of self.entry)) (is_record (bytes_of self.entry) (field_of self.entry)) }
    {
        if 2 < self.tag {
            return Ok(false);
        }
        if self.value.len() < 4 || self.value.len() % 4 != 0 {
            return Err(Refusal::RecordBlock);
        }
        if words::read32(self.value, 0) != 1 {
            return Ok(false);
        }
        if !self.sound_by_type() {
            return Err(Refusal::RecordBlock);
        }
        Ok(true)
    }
}

// One pass over a block: sound or not, and where the asked record lies.
#[tactic(auto, using(crate::proofs::Walking::too_long, crate::proofs::Walking::starts), unfolding(rules::specs::Limits::max_block))]
pub fn search_block(b: &[u8], record_type: u32) -> Result<Part, Refusal>
    ensures { found_at result ≡ find_record [] b.now record_type }
{
    if MAX_BLOCK < b.len() {
        return Err(Refusal::RecordBlock);
    }
    let mut rest = b;
    let mut seen = [false; 3];
    let mut found = None;
    while !rest.is_empty() {
        let Some((field, after)) = split_field(rest) else {
            return Err(Refusal::RecordBlock);
        };
        if field.is_record()? {
            if seen[field.tag as usize] {
                return Err(Refusal::RecordBlock);
            }
            seen[field.tag as usize] = true;
            if u32::from(field.tag) == record_type {
                found = Some(Part {
                    start: b.len() - rest.len(),
                    size: 3 + field.value.len(),
                });
            }
        }
        rest = after;
    }
    found.ok_or(Refusal::NoRecord)
}
