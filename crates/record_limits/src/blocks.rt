// Record blocks, and the record search in them.
ghost use Rattle.std.specs.Prelude.{◌<◌, ◌≤◌};

use std::io;

// A record of each type, 23, 19 and 71 bytes, with every value at its limit.
pub const LIMITS: [u8; 113] =
    *b"\x00\x14\x00\x01\x00\x00\x00\xff\x00\x00\x00\xff\x00\x00\x00\x01\x00\x00\x00\x01\x00\x00\x00\x01\x10\x00\x01\x00\x00\x00\x03\x00\x00\x00\x07\x00\x00\x00\x07\x00\x00\x00\x02\x44\x00\x01\x00\x00\x00\xff\xff\xff\xff\xff\xff\xff\xff\xff\xff\xff\xff\xff\xff\xff\xff\xff\xff\xff\xff\xff\xff\xff\xff\xff\xff\xff\xff\xff\xff\xff\xff\xff\xff\x00\x00\xff\xff\x00\x00\xff\xff\x00\x00\xff\xff\x00\x00\xff\xff\xff\xff\xff\xff\xff\xff\xff\xff\xff\xff\xff\xff\xff\xff";

// The end of a line: the number, and where the record lies in the deciding block.
fn search<'a>(
    rt: &impl Print,
    slot: &'a [u8],
    block: &'a [u8],
    record_type: u32,
) -> io::Result<()> {
    let outcome = hpx::search(slot, block, record_type);
    let start = outcome.map_or(0, |part| part.start);
    let size = outcome.map_or(0, |part| part.size);
    println!(rt; ": {}, part {start} {size}", codes::number(outcome))
}

// The DWORD at a byte of LIMITS is this; the record of this type is looked for.
fn dword(rt: &impl Print, at: usize, value: u32, record_type: u32) -> io::Result<()>
    requires { at ≤ 109 }
{
    let mut b = LIMITS;
    words::write32(&mut b, at, value);
    print!(rt; "dword {at} {value} {record_type}")?;
    search(rt, b"", &b, record_type)
}

// LIMITS with these masks of register k, from 0, in its type 2 record, of this revision.
fn with_masks(k: usize, and: u32, or: u32, revision: u32) -> [u8; 113]
    requires { k < 8 }
{
    let mut b = LIMITS;
    words::write32(&mut b, 45, revision);
    words::write32(&mut b, 49 + 8 * k, and);
    words::write32(&mut b, 53 + 8 * k, or);
    b
}

fn masks(
    rt: &impl Print,
    k: usize,
    and: u32,
    or: u32,
    revision: u32,
    record_type: u32,
) -> io::Result<()>
    requires { k < 8 }
{
    print!(rt; "masks {k} {and:#x} {or:#x} {revision} {record_type}")?;
    search(rt, b"", &with_masks(k, and, or, revision), record_type)
}

// Each register in turn; the type 2 record is looked for.
fn each(rt: &impl Print, and: u32, or: u32, revision: u32) -> io::Result<()> {
    for k in 0..8 {
        masks(rt, k, and, or, revision, 2)?;
    }
    Ok(())
}

// Two fields with this tag and length, of these revisions, and zeros.
fn fields(tag: u8, length: u8, first: u8, second: u8) -> [u8; 160]
    requires { length ≤ 72 }
{
    let next = 3 + usize::from(length);
    let mut b = [0; 160];
    b[0] = tag;
    b[1] = length;
    b[3] = first;
    b[next] = tag;
    b[next + 1] = length;
    b[next + 3] = second;
    b
}

// The first of them, and both.
fn field(rt: &impl Print, tag: u8, length: u8, revision: u8) -> io::Result<()>
    requires { length ≤ 72 }
{
    let b = fields(tag, length, revision, 0);
    let end = 3 + usize::from(length);
    print!(rt; "field {tag} {length} {revision}")?;
    search(rt, b"", &b[..end], u32::from(tag))
}

fn twice(
    rt: &impl Print,
    tag: u8,
    length: u8,
    first: u8,
    second: u8,
    record_type: u32,
) -> io::Result<()>
    requires { length ≤ 72 }
{
    let b = fields(tag, length, first, second);
    let end = 6 + 2 * usize::from(length);
    print!(rt; "twice {tag} {first} {second} {record_type}")?;
    search(rt, b"", &b[..end], record_type)
}

// One field with tag 3 and length 3840 + `low`, which fills a block of 3 bytes more.
fn filled(rt: &impl Print, low: u8) -> io::Result<()>
    requires { low ≤ 254 }
{
    let bytes = 3843 + usize::from(low);
    let mut b = [0; 4097];
    b[0] = 3;
    b[1] = low;
    b[2] = 15;
    print!(rt; "filled {bytes}")?;
    search(rt, b"", &b[..bytes], 0)
}

// These blocks, and the type 1 record.
fn blocks<'a>(rt: &impl Print, words: &str, slot: &'a [u8], block: &'a [u8]) -> io::Result<()> {
    print!(rt; "{words}")?;
    search(rt, slot, block, 1)
}

// "Tags above 2 are skipped whatever their value. Tags 0 to 2 need a length of at least 4, a multiple of 4"
fn tags(rt: &impl Print) -> io::Result<()> {
    println!(rt; "(field: tag, length, revision; its type is looked for)")?;
    field(rt, 2, 3, 2)?;
    field(rt, 3, 3, 2)?;
    field(rt, 3, 4, 1)?;
    field(rt, 255, 3, 2)?;
    field(rt, 0, 0, 0)?;
    field(rt, 0, 4, 2)?;
    field(rt, 1, 5, 2)?;
    field(rt, 1, 6, 2)?;
    field(rt, 1, 8, 2)?;
    Ok(())
}

// "Revision 1 has length 20, 16 or 68 for types 0, 1, 2"
fn sizes(rt: &impl Print) -> io::Result<()> {
    field(rt, 0, 16, 1)?;
    field(rt, 0, 20, 1)?;
    field(rt, 0, 24, 1)?;
    field(rt, 1, 12, 1)?;
    field(rt, 1, 16, 1)?;
    field(rt, 1, 20, 1)?;
    field(rt, 2, 64, 1)?;
    field(rt, 2, 68, 1)?;
    field(rt, 2, 72, 1)?;
    Ok(())
}

// "at most once each"
fn repeated(rt: &impl Print) -> io::Result<()> {
    println!(rt; "(twice: tag, revisions of the first and of the second; type looked for)")?;
    twice(rt, 0, 20, 1, 1, 0)?;
    twice(rt, 0, 20, 1, 1, 1)?;
    twice(rt, 0, 20, 2, 1, 0)?;
    twice(rt, 0, 20, 1, 2, 0)?;
    twice(rt, 1, 16, 1, 1, 1)?;
    twice(rt, 1, 16, 2, 1, 1)?;
    twice(rt, 2, 68, 1, 1, 2)?;
    twice(rt, 2, 68, 2, 1, 2)?;
    Ok(())
}

// "a revision other than 1 is skipped"; "a type above 2 is never found"
fn types(rt: &impl Print) -> io::Result<()> {
    println!(rt;
        "(dword of a block with a record of each type and every value at its limit: where, what; type looked for)"
    )?;
    dword(rt, 3, 1, 0)?;
    dword(rt, 3, 1, 1)?;
    dword(rt, 3, 1, 2)?;
    dword(rt, 3, 1, 3)?;
    dword(rt, 3, 1, 65536)?;
    dword(rt, 3, 0, 0)?;
    dword(rt, 3, 65537, 0)?;
    dword(rt, 26, 2, 1)?;
    dword(rt, 45, 2, 2)?;
    Ok(())
}

// "type 0 cache line and latency at most 255, SERR and PERR 0 or 1"
fn type_0(rt: &impl Print) -> io::Result<()> {
    dword(rt, 7, 256, 0)?;
    dword(rt, 7, 65536, 0)?;
    dword(rt, 11, 256, 0)?;
    dword(rt, 11, 65536, 0)?;
    dword(rt, 15, 2, 0)?;
    dword(rt, 15, 256, 0)?;
    dword(rt, 15, 0, 0)?;
    dword(rt, 19, 2, 0)?;
    dword(rt, 19, 256, 0)?;
    dword(rt, 19, 0, 0)?;
    Ok(())
}

// "type 1 read count at most 3, both split counts at most 7"
fn type_1(rt: &impl Print) -> io::Result<()> {
    dword(rt, 30, 4, 0)?;
    dword(rt, 30, 256, 0)?;
    dword(rt, 34, 8, 0)?;
    dword(rt, 34, 256, 0)?;
    dword(rt, 38, 8, 0)?;
    dword(rt, 38, 256, 0)?;
    dword(rt, 15, 2, 3)?;
    Ok(())
}

// "type 2 eight AND/OR pairs, those of Device Control and Link Control at most 65535"
fn type_2(rt: &impl Print) -> io::Result<()> {
    println!(rt;
        "(masks of the type 2 record of that block: register, from 0, Device Control 4, Link Control 5; AND mask, OR mask, revision; type looked for)"
    )?;
    masks(rt, 4, 0xffff, 0xffff, 1, 0)?;
    masks(rt, 4, 0x1_0000, 0, 1, 0)?;
    masks(rt, 4, 0xffff, 0x1_0000, 1, 0)?;
    masks(rt, 4, 0x1_0000, 0x1_0000, 1, 0)?;
    masks(rt, 5, 0xffff, 0xffff, 1, 0)?;
    masks(rt, 5, 0x1_0000, 0, 1, 0)?;
    masks(rt, 5, 0xffff, 0x1_0000, 1, 0)?;
    masks(rt, 5, 0x1_0000, 0x1_0000, 1, 0)?;
    masks(rt, 3, 0x1_0000, 0x1_0000, 1, 0)?;
    masks(rt, 6, 0x1_0000, 0x1_0000, 1, 0)?;
    Ok(())
}

// Document 02, h: "a bit clear in the AND mask and set in the OR mask". Bits 1 to 3 are set, 4 to 7 kept, the rest cleared; bit 0 is set, then senseless.
fn pairs(rt: &impl Print) -> io::Result<()> {
    each(rt, 0xff, 0xf, 1)?;
    each(rt, 0xfe, 0xf, 1)?;
    each(rt, 0xfe, 0xf, 2)?;
    Ok(())
}

// "such a type 2 record makes the block unsound", whatever type is looked for; of another revision it is skipped.
fn types_beside(rt: &impl Print) -> io::Result<()> {
    masks(rt, 0, 0xfe, 0xf, 1, 0)?;
    masks(rt, 7, 0xfe, 0xf, 1, 0)?;
    masks(rt, 7, 0xfe, 0xf, 1, 1)?;
    masks(rt, 7, 0xfe, 0xf, 1, 3)?;
    masks(rt, 7, 0xfe, 0xf, 2, 0)?;
    masks(rt, 7, 0xfe, 0xf, 0, 1)?;
    masks(rt, 7, 0xfe, 0xf, 257, 1)?;
    masks(rt, 7, 0xfe, 0xf, 2, 3)?;
    Ok(())
}

// One bit, the lowest and the highest: cleared, kept, set, senseless.
fn one_bit(rt: &impl Print) -> io::Result<()> {
    masks(rt, 0, 0xffff_fffe, 0, 1, 2)?;
    masks(rt, 0, 0xffff_ffff, 0, 1, 2)?;
    masks(rt, 0, 0xffff_ffff, 1, 1, 2)?;
    masks(rt, 0, 0xffff_fffe, 1, 1, 2)?;
    masks(rt, 7, 0x7fff_ffff, 0, 1, 2)?;
    masks(rt, 7, 0xffff_ffff, 0, 1, 2)?;
    masks(rt, 7, 0xffff_ffff, 0x8000_0000, 1, 2)?;
    masks(rt, 7, 0x7fff_ffff, 0x8000_0000, 1, 2)?;
    masks(rt, 4, 0x7fff, 0x8000, 1, 2)?;
    masks(rt, 5, 0x7fff, 0x8000, 1, 2)?;
    Ok(())
}

// An AND mask of 0, single and alternate bits, and the pair of the bench sheet.
fn many_bits(rt: &impl Print) -> io::Result<()> {
    masks(rt, 3, 0, 0, 1, 2)?;
    masks(rt, 3, 0, 1, 1, 2)?;
    masks(rt, 3, 0, 0xffff_ffff, 1, 2)?;
    masks(rt, 3, 2, 1, 1, 2)?;
    masks(rt, 3, 0x5555_5555, 0x5555_5555, 1, 2)?;
    masks(rt, 3, 0x5555_5555, 0xaaaa_aaaa, 1, 2)?;
    masks(rt, 0, 0xffff_fff0, 0x6, 1, 2)?;
    masks(rt, 0, 0xffff_fff6, 0x6, 1, 2)?;
    Ok(())
}

// "A length running past the end, one or two bytes left over", or a block above 4096 bytes (document 02, e) "is unsound"
fn ends(rt: &impl Print) -> io::Result<()> {
    blocks(rt, "a byte, length 1", b"", b"\x03\x01\x00\xff")?;
    blocks(rt, "no byte, length 1", b"", b"\x03\x01\x00")?;
    blocks(rt, "1 byte left over", b"", b"\x03\x00\x00\x03")?;
    blocks(rt, "2 bytes left over", b"", b"\x03\x00\x00\x03\x00")?;
    blocks(rt, "a second field", b"", b"\x03\x00\x00\x03\x00\x00")?;
    blocks(
        rt,
        "a record",
        b"",
        b"\x01\x10\x00\x01\x00\x00\x00\x00\x00\x00\x00\x00\x00\x00\x00\x00\x00\x00\x00",
    )?;
    blocks(
        rt,
        "a record, 1 byte left over",
        b"",
        b"\x01\x10\x00\x01\x00\x00\x00\x00\x00\x00\x00\x00\x00\x00\x00\x00\x00\x00\x00\x03",
    )?;
    filled(rt, 253)?;
    filled(rt, 254)?;
    Ok(())
}

// "If the slot's is not empty it alone decides"
fn deciding(rt: &impl Print) -> io::Result<()> {
    blocks(rt, "slot's empty, bridge's has the record", b"", &LIMITS)?;
    blocks(
        rt,
        "slot's has no record, bridge's has it",
        b"\x03\x00\x00",
        &LIMITS,
    )?;
    blocks(
        rt,
        "slot's has the record, bridge's not sound",
        &LIMITS,
        b"\x03",
    )?;
    blocks(
        rt,
        "slot's not sound, bridge's has the record",
        b"\x03",
        &LIMITS,
    )?;
    blocks(rt, "both empty", b"", b"")?;
    blocks(
        rt,
        "slot's has a senseless pair, bridge's has the record",
        &with_masks(7, 0xfe, 0xf, 1),
        &LIMITS,
    )?;
    blocks(
        rt,
        "slot's has the record, bridge's has a senseless pair",
        &LIMITS,
        &with_masks(7, 0xfe, 0xf, 1),
    )?;
    Ok(())
}

pub fn lines(rt: &impl Print) -> io::Result<()> {
    println!(rt; "Record blocks")?;
    tags(rt)?;
    sizes(rt)?;
    repeated(rt)?;
    types(rt)?;
    type_0(rt)?;
    type_1(rt)?;
    type_2(rt)?;
    pairs(rt)?;
    types_beside(rt)?;
    one_bit(rt)?;
    many_bits(rt)?;
    ends(rt)?;
    deciding(rt)?;
    Ok(())
}
