// _HPX setting records: which block decides, the record search, the new register values.
#![tactic(auto)]

ghost use Rattle.std.specs.Prelude.{◌≡◌, cond, ◌+◌, ◌<◌, ◌≤◌, length, get_or, replicate, IfOk};
ghost use Rattle.rules.specs.Records.{field_at, deciding, record_in, record_refusals, find_record, deciding_at, registers_bad, and_or, sizes_kept, new_value, new_values};
ghost use Rattle.rules.specs.Parts.{part, part_at};
ghost use Rattle.rules.specs.Refusals.{first_of};
ghost use Rattle.codes.specs.Numbers.{number, given};
ghost use Rattle.parts.specs.Found.{found_at};
ghost use Rattle.hpx.specs.Answers.{values_at};

use codes::Refusal;
use parts::Part;
use rules::Found;

// If the slot's block is not empty it alone decides.
// Stays: two slices, slot and block, as slipwattle_find_record and its clauses name them; a struct of the two would be made for one call and taken apart in it.
pub fn deciding<'a>(slot: &'a [u8], block: &'a [u8]) -> &'a [u8]
    ensures { (result.now ≡ deciding slot.now block.now)
        × (result.ref_ptr ≡ deciding_at slot.now slot.entry.ref_ptr block.entry.ref_ptr) }
{
    if slot.is_empty() { block } else { slot }
}

// The record search: where the record lies in the deciding block.
pub fn search<'a>(slot: &'a [u8], block: &'a [u8], record_type: u32) -> Result<Part, Refusal>
    ensures { found_at result ≡ find_record slot.now block.now record_type }
{
    records::search_block(deciding(slot, block), record_type)
}

// The record search, in one pass over the block: the record as a part of the deciding block, or beside a refusal the empty part, where that block begins.
pub fn find_record<'a>(slot: &'a [u8], block: &'a [u8], record_type: u32) -> Found<'a>
    ensures { (result.number ≡ (find_record slot.now block.now record_type).number)
        × (result.part.now ≡ part (find_record slot.now block.now record_type) (deciding slot.now block.now))
        × (result.part.ref_ptr ≡ part_at (find_record slot.now block.now record_type)
        (deciding_at slot.now slot.entry.ref_ptr block.entry.ref_ptr)) }
{
    parts::found(deciding(slot, block), search(slot, block, record_type))
}

// The record itself, as a part of the deciding block; nothing of it where the search is refused.
pub fn try_find_record<'a>(
    slot: &'a [u8],
    block: &'a [u8],
    record_type: u32,
) -> Result<&'a [u8], Refusal>
    ensures number { number result ≡ (find_record slot.now block.now record_type).number }
    ensures part { IfOk result (λ found. (found.now ≡ part (find_record slot.now block.now record_type) (deciding slot.now block.now))
        × (found.ref_ptr ≡ part_at (find_record slot.now block.now record_type)
        (deciding_at slot.now slot.entry.ref_ptr block.entry.ref_ptr))) }
{
    let at = search(slot, block, record_type)?;
    Ok(parts::cut(deciding(slot, block), at))
}

// The register list, or refusal 10: not 8 numbers, or Device Control or Link Control above 65535.
pub fn registers(current: &[u32]) -> Result<&[u32; 8], Refusal>
    ensures number { number result ≡ cond (registers_bad current.now) 10 0 }
    ensures same { IfOk result (λ eight. eight.now ≡ current.now) }
{
    let registers: &[u32; 8] = current.try_into().map_err(|_| Refusal::Registers)?;
    if 65535 < registers[4] || 65535 < registers[5] {
        return Err(Refusal::Registers);
    }
    Ok(registers)
}

// The current value AND a mask, OR a mask.
pub fn and_or(current: u32, and: u32, or: u32) -> u32
    ensures { result ≡ and_or current and or }
{
    (current & and) | or
}

// Device Control: bits 5 to 7 and 12 to 14 keep their current value, the rest are those computed.
fn sizes_kept(current: u32, computed: u32) -> u32
    ensures { result ≡ sizes_kept current computed }
{
    (computed & 0xffff_8f1f) | (current & 0x70e0)
}

// The bytes of a type 2 record, header included.
pub const SETTINGS: usize = 71;

// The new value of register k by its AND/OR pair in the type 2 record. Device Control and Link Control are 4 and 5.
fn register(setting: &[u8; SETTINGS], k: usize, current: u32, aer: bool) -> u32
    requires { k < 8 }
    ensures { result ≡ new_value aer setting.now (field_at setting.now 0) k current }
{
    if aer & (k != 4) & (k != 5) {
        return current;
    }
    let and = words::read32(setting, 3 + 4 * (1 + 2 * k));
    let or = words::read32(setting, 3 + 4 * (2 + 2 * k));
    let computed = and_or(current, and, or);
    if k == 4 {
        return sizes_kept(current, computed);
    }
    computed
}

// The eight new values by the bytes of a type 2 record, header included, sound or not.
pub fn new_values(setting: &[u8; SETTINGS], current: &[u32; 8], aer: bool) -> [u32; 8]
    ensures { result ≡ new_values aer setting.now (field_at setting.now 0) 0 current.now }
{
    std::array::from_fn(|k| register(setting, k, current[k], aer))
}

// 8, 9, else the new values.
pub fn register_values<'a>(
    slot: &'a [u8],
    block: &'a [u8],
    current: &[u32; 8],
    aer: bool,
) -> Result<[u32; 8], Refusal>
    ensures number { number result ≡ first_of (record_refusals slot.now block.now 2) }
    ensures values { given (replicate 8 0) result ≡ values_at (first_of (record_refusals slot.now block.now 2)) aer
        (deciding slot.now block.now) current.now
        (record_in (deciding slot.now block.now) 2) }
{
    let setting = try_find_record(slot, block, 2)?;
    Ok(new_values(setting.first_chunk().unwrap(), current, aer))
}
