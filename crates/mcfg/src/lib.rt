// The MCFG table: whether it is sound, its entries, and the entry that a row of the starting list lies inside.
#![tactic(auto)]

ghost use Rattle.std.specs.Prelude.{◌≡◌, ◌&&◌, ◌+◌, ◌*◌, ◌%◌, ◌^◌, map};
ghost use Rattle.rules.specs.Lists.{every, pairwise};
ghost use Rattle.rules.specs.Mcfg.{entries, bus_start, bus_end, entry_sound, share_no_bus, mcfg_sound};
ghost use Rattle.rules.specs.Start.{inside, entry_of};
ghost use Rattle.mcfg.specs.Found.{answer_of};
ghost use Rattle.mcfg.specs.Rest.{header_sound, entry_in, first_mib, last_mib, windows_apart, seen_apart, seen_below, rising};

use rules::constants::{BUS_BYTES, MAX_ENTRIES};
use rules::{BridgeRow, Entry};

const SIGNATURE: [u8; 4] = *b"MCFG";

// The last of the 2^44 multiples of 2^20 below 2^64, where a bus may start.
const LAST_START: u64 = 0xFFF_FFFF_FFFF;

// The header, and the number of entries; the sum is taken last, of a table whose length is right.
fn header_sound(m: &[u8]) -> bool
    ensures { result ≡ header_sound m.now }
{
    if m.len() < 44 {
        return false;
    }
    if !words::same(&m[..4], &SIGNATURE) {
        return false;
    }
    if words::read32(m, 4) as usize != m.len() {
        return false;
    }
    if m[8] != 1 {
        return false;
    }
    if (m.len() - 44) % 16 != 0 {
        return false;
    }
    if MAX_ENTRIES < (m.len() - 44) / 16 {
        return false;
    }
    words::byte_sum(m) == 0
}

// The records of the entries, 16 bytes each.
fn records(m: &[u8]) -> &[[u8; 16]]
    ensures { map entry_in result.now ≡ entries m.now }
{
    m[m.len().min(44)..].as_chunks().0
}

// The entry of a record.
fn entry_in(bytes: &[u8; 16]) -> Entry
    ensures { result ≡ entry_in bytes.now }
{
    Entry {
        base: words::read64(bytes, 0),
        segment: words::read16(bytes, 8),
        start_bus: bytes[10],
        end_bus: bytes[11],
    }
}

// Its buses in order, its base a multiple of 2^20, its window's end at most 2^64.
fn entry_sound(e: Entry) -> bool
    ensures { result ≡ entry_sound e }
{
    (e.start_bus <= e.end_bus)
        & (e.base % BUS_BYTES == 0)
        & (e.base <= (LAST_START - u64::from(e.end_bus)) * BUS_BYTES)
}

// Entries of one segment share no bus.
fn share_no_bus(e: Entry, f: Entry) -> bool
    ensures { result ≡ share_no_bus e f }
{
    if e.segment != f.segment {
        return true;
    }
    (e.end_bus < f.start_bus) | (f.end_bus < e.start_bus)
}

// The first MiB of its window, counted from address 0: each bus has a MiB, where the base is a multiple of 2^20. No sum of a base and a bus wraps so.
fn first_mib(e: Entry) -> u64
    ensures { result ≡ first_mib e }
{
    e.base / BUS_BYTES + u64::from(e.start_bus)
}

// The last MiB of its window.
fn last_mib(e: Entry) -> u64
    ensures { result ≡ last_mib e }
{
    e.base / BUS_BYTES + u64::from(e.end_bus)
}

// The windows of two entries share no byte: being of whole MiB, no MiB.
fn share_no_byte(e: Entry, f: Entry) -> bool
    ensures { result ≡ windows_apart e f }
{
    (last_mib(e) < first_mib(f)) | (last_mib(f) < first_mib(e))
}

// Neither a bus nor a byte.
fn apart(e: Entry, f: Entry) -> bool
    ensures { result ≡ seen_apart e f }
{
    share_no_bus(e, f) && share_no_byte(e, f)
}

// A bus among the buses of all segments, in their order.
fn bus_number(segment: u16, bus: u8) -> u32
    ensures { result ≡ segment * 256 + bus }
{
    u32::from(segment) * 256 + u32::from(bus)
}

// The buses and the window of one entry come before those of another.
fn below(e: Entry, f: Entry) -> bool
    ensures { result ≡ seen_below e f }
{
    (bus_number(e.segment, e.end_bus) < bus_number(f.segment, f.start_bus))
        & (last_mib(e) < first_mib(f))
}

// Every entry is sound.
fn entries_sound(records: &[[u8; 16]]) -> bool
    ensures { result ≡ every entry_sound (map entry_in records.now) }
{
    records.iter().all(|record| entry_sound(entry_in(record)))
}

// An entry is apart from each of the rest.
fn apart_from_rest(e: Entry, rest: &[[u8; 16]]) -> bool
    ensures { result ≡ every (seen_apart e) (map entry_in rest.now) }
{
    for other in rest {
        if !apart(e, entry_in(other)) {
            return false;
        }
    }
    true
}

// Each entry is apart from each later one.
fn entries_apart(records: &[[u8; 16]]) -> bool
    ensures { result ≡ pairwise seen_apart (map entry_in records.now) }
{
    let mut rest = records;
    while let Some((first, later)) = rest.split_first() {
        if !apart_from_rest(entry_in(first), later) {
            return false;
        }
        rest = later;
    }
    true
}

// Each entry is below the next.
fn entries_rising(records: &[[u8; 16]]) -> bool
    ensures { result ≡ rising seen_below (map entry_in records.now) }
{
    let Some((_, later)) = records.split_first() else {
        return true;
    };
    records
        .iter()
        .zip(later)
        .all(|(record, next)| below(entry_in(record), entry_in(next)))
}

// Whether a lent MCFG table is sound. Where each entry is below the next, each is below all later ones, and no more is compared.
pub fn sound(m: &[u8]) -> bool
    ensures { result ≡ mcfg_sound m.now }
{
    if !header_sound(m) {
        return false;
    }
    let records = records(m);
    if !entries_sound(records) {
        return false;
    }
    if entries_rising(records) {
        return true;
    }
    entries_apart(records)
}

// The row's buses lie inside this entry, of its segment.
fn lies_inside(row: BridgeRow, e: Entry) -> bool
    ensures { result ≡ inside row e }
{
    (row.segment == e.segment) & (e.start_bus <= row.first_bus) & (row.last_bus <= e.end_bus)
}

// The first entry that a row lies inside.
pub fn entry_of(m: &[u8], row: BridgeRow) -> Option<Entry>
    ensures { result ≡ answer_of (entry_of (entries m.now) row) }
{
    records(m)
        .iter()
        .map(entry_in)
        .find(|e| lies_inside(row, *e))
}
