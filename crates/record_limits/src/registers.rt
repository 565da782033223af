// Register values. Session 1 calls on bridge 0, which permits every bit. Register k, from 0, has the current value 0x80000fff + k x 0x1000; its AND mask is
// 0xffffff00 + (k + 1) x 0x11, its OR mask 0x10000 + k + 1; of Device Control and Link Control, registers 4 and 5, the low halves.
ghost use Rattle.std.specs.Prelude.{◌<◌, ◌≤◌};

use crate::blocks::LIMITS;
use codes::Refusal;
use fixtures::{SETTINGS, SoundTable};
use print::Hexes;
use rules::{BridgeNumber, SessionNumber};
use std::io;

fn block() -> [u8; SETTINGS] {
    let mut b = fixtures::settings(0, 0);
    fixtures::put_pair(&mut b, 0, 0xffff_ff11, 0x1_0001);
    fixtures::put_pair(&mut b, 1, 0xffff_ff22, 0x1_0002);
    fixtures::put_pair(&mut b, 2, 0xffff_ff33, 0x1_0003);
    fixtures::put_pair(&mut b, 3, 0xffff_ff44, 0x1_0004);
    fixtures::put_pair(&mut b, 4, 0xff55, 0x5);
    fixtures::put_pair(&mut b, 5, 0xff66, 0x6);
    fixtures::put_pair(&mut b, 6, 0xffff_ff77, 0x1_0007);
    fixtures::put_pair(&mut b, 7, 0xffff_ff88, 0x1_0008);
    b
}

// The same but for register k, with bit 0 clear in its AND mask and set in its OR mask.
fn senseless_block(k: usize) -> [u8; SETTINGS]
    requires { k < 8 }
{
    let mut b = block();
    fixtures::put_pair(&mut b, k, 0xfe, 0xf);
    b
}

// The current values, and one more, but for register k.
fn current(k: usize, value: u32) -> [u32; 9]
    requires { k < 9 }
{
    let mut c = [
        0x8000_0fff,
        0x8000_1fff,
        0x8000_2fff,
        0x8000_3fff,
        0x4fff,
        0x5fff,
        0x8000_6fff,
        0x8000_7fff,
        0,
    ];
    c[k] = value;
    c
}

// Bridge 0 of session 1 holds these bits.
fn holding(control: u32) -> SoundTable {
    let mut t = fixtures::three_bridges(0x1f);
    t.take(0, control);
    t
}

// The end of a line: the number, and the eight new values, which are zeros where the call is refused.
fn came(rt: &impl Print, outcome: Result<[u32; 8], Refusal>) -> io::Result<()> {
    println!(rt;
        ": {},{}",
        codes::number(outcome),
        Hexes(&outcome.unwrap_or([0; 8]))
    )
}

// Session 1's call on bridge 0, which holds these bits.
fn asked<'a>(
    rt: &impl Print,
    control: u32,
    slot: &'a [u8],
    block: &'a [u8],
    current: &[u32],
) -> io::Result<()> {
    came(
        rt,
        holding(control).register_values(SessionNumber(1), BridgeNumber(0), slot, block, current),
    )
}

// A session's call on a bridge, of which 0 alone holds bits 0 and 4; registers of 0.
fn by(rt: &impl Print, session: u8, bridge: u8, current: &[u32], block: &[u8]) -> io::Result<()> {
    let outcome = holding(0x11).register_values(
        SessionNumber(session),
        BridgeNumber(bridge),
        b"",
        block,
        current,
    );
    print!(rt;
        "values {session} {bridge} {} {}",
        current.len(),
        block.len()
    )?;
    came(rt, outcome)
}

fn held(rt: &impl Print, control: u32) -> io::Result<()> {
    print!(rt; "held {control:#x}")?;
    asked(rt, control, b"", &block(), current(8, 0).split_at(8).0)
}

// So many registers.
fn registers(rt: &impl Print, count: usize) -> io::Result<()>
    requires { count ≤ 9 }
{
    print!(rt; "registers {count}")?;
    asked(rt, 0x11, b"", &block(), &current(8, 0)[..count])
}

// Register k has this value.
fn register(rt: &impl Print, k: usize, value: u32) -> io::Result<()>
    requires { k < 8 }
{
    print!(rt; "register {k} {value:#x}")?;
    asked(rt, 0x11, b"", &block(), current(k, value).split_at(8).0)
}

// Register k has a senseless pair; bridge 0 holds these bits.
fn senseless(rt: &impl Print, k: usize, control: u32) -> io::Result<()>
    requires { k < 8 }
{
    print!(rt; "senseless {k} {control:#x}")?;
    asked(
        rt,
        control,
        b"",
        &senseless_block(k),
        current(8, 0).split_at(8).0,
    )
}

// Each register in turn.
fn each_senseless(rt: &impl Print, control: u32) -> io::Result<()> {
    for k in 0..8 {
        senseless(rt, k, control)?;
    }
    Ok(())
}

// These blocks.
fn blocks<'a>(rt: &impl Print, words: &str, slot: &'a [u8], block: &'a [u8]) -> io::Result<()> {
    print!(rt; "{words}")?;
    asked(rt, 0x11, slot, block, current(8, 0).split_at(8).0)
}

// Every register has this value, and the record the same pair for each; bridge 0 holds these bits.
fn every(rt: &impl Print, control: u32, value: u32, and: u32, or: u32) -> io::Result<()> {
    print!(rt; "every {control:#x} {value:#x} {and:#x} {or:#x}")?;
    asked(rt, control, b"", &fixtures::settings(and, or), &[value; 8])
}

// "Register values 1, 2, 11, 10, 8, 9." A block of 1 byte is not sound, the one of 3 has a field that is skipped, the one of 71 a senseless pair.
fn orders(rt: &impl Print) -> io::Result<()> {
    println!(rt; "(values: session, bridge, number of registers, bytes of the block)")?;
    by(rt, 1, 0, &[0; 8], b"\x03\x00\x00")?;
    by(rt, 1, 0, &[0; 8], b"\x03")?;
    by(rt, 1, 0, &[0; 7], b"\x03\x00\x00")?;
    by(rt, 1, 0, &[0; 7], b"\x03")?;
    by(rt, 2, 1, &[0; 7], b"\x03\x00\x00")?;
    by(rt, 2, 1, &[0; 7], b"\x03")?;
    by(rt, 1, 1, &[0; 7], b"\x03")?;
    by(rt, 1, 3, &[0; 7], b"\x03")?;
    by(rt, 2, 0, &[0; 7], b"\x03")?;
    by(rt, 0, 3, &[0; 7], b"\x03")?;
    by(rt, 1, 64, &[0; 7], b"\x03")?;
    Ok(())
}

fn by_senseless(rt: &impl Print, session: u8, bridge: u8, current: &[u32]) -> io::Result<()> {
    by(rt, session, bridge, current, &senseless_block(7))?;
    Ok(())
}

fn senseless_orders(rt: &impl Print) -> io::Result<()> {
    by_senseless(rt, 1, 0, &[0; 8])?;
    by_senseless(rt, 1, 0, &[0; 7])?;
    by_senseless(rt, 1, 0, &[0; 9])?;
    by_senseless(rt, 1, 2, &[0; 8])?;
    by_senseless(rt, 2, 1, &[0; 7])?;
    by_senseless(rt, 1, 1, &[0; 8])?;
    by_senseless(rt, 2, 0, &[0; 8])?;
    by_senseless(rt, 1, 3, &[0; 8])?;
    Ok(())
}

// "the bridge does not hold control bit 0"; "for the six error registers too, unless AER (bit 3) is held, when they stay"
fn control(rt: &impl Print) -> io::Result<()> {
    held(rt, 0)?;
    held(rt, 0x1e)?;
    held(rt, 0x11)?;
    held(rt, 0x15)?;
    held(rt, 0x19)?;
    held(rt, 0x1f)?;
    Ok(())
}

// "the register list is not 8 numbers, or its Device Control or Link Control is above 65535"
fn lists(rt: &impl Print) -> io::Result<()> {
    registers(rt, 7)?;
    registers(rt, 8)?;
    registers(rt, 9)?;
    register(rt, 4, 65535)?;
    register(rt, 4, 65536)?;
    register(rt, 5, 65535)?;
    register(rt, 5, 65536)?;
    register(rt, 3, 0xffff_ffff)?;
    register(rt, 6, 0xffff_ffff)?;
    Ok(())
}

// "The type 2 record is used", that of the deciding block
fn deciding(rt: &impl Print) -> io::Result<()> {
    blocks(rt, "slot's has the record", &block(), b"")?;
    blocks(
        rt,
        "slot's has no record, bridge's has it",
        b"\x03\x00\x00",
        &block(),
    )?;
    blocks(rt, "record behind others", b"", &LIMITS)?;
    blocks(
        rt,
        "slot's has a senseless pair, bridge's has the record",
        &senseless_block(7),
        &block(),
    )?;
    blocks(
        rt,
        "slot's has the record, bridge's has a senseless pair",
        &block(),
        &senseless_block(7),
    )?;
    Ok(())
}

// Document 02, f: in Device Control "bits 5 to 7 and 12 to 14 keep their current value whatever the record says"
fn sizes(rt: &impl Print) -> io::Result<()> {
    every(rt, 0x11, 0x2810, 0x5020, 0x5020)?;
    every(rt, 0x19, 0x2810, 0x5020, 0x5020)?;
    every(rt, 0x11, 0, 0xffff, 0xffff)?;
    every(rt, 0x11, 0x70e0, 0, 0)?;
    every(rt, 0x11, 0x8f1f, 0, 0)?;
    every(rt, 0x11, 0xffff, 0, 0)?;
    every(rt, 0x19, 0xffff, 0, 0)?;
    every(rt, 0x11, 0x2810, 0xffff, 0)?;
    Ok(())
}

// Document 02, h: bits are set, kept and cleared; the two masks exchanged; the pair of the bench sheet, and with OR's bits in AND; an AND mask of 0
fn cases(rt: &impl Print) -> io::Result<()> {
    every(rt, 0x11, 0x5a5a, 0xfff, 0xf00)?;
    every(rt, 0x19, 0x5a5a, 0xfff, 0xf00)?;
    every(rt, 0x11, 0xa5a5, 0xfff0, 0xf0)?;
    every(rt, 0x11, 0x5a5a, 0xf00, 0xfff)?;
    every(rt, 0x19, 0x5a5a, 0xf00, 0xfff)?;
    every(rt, 0x11, 0x2110, 0xffff_fff0, 0x6)?;
    every(rt, 0x11, 0x2110, 0xffff_fff6, 0x6)?;
    every(rt, 0x11, 0xffff, 0, 0x1)?;
    Ok(())
}

// A pair counts where it is not used too: those of the error registers, with AER held. 11 comes first.
fn senseless_pairs(rt: &impl Print) -> io::Result<()> {
    each_senseless(rt, 0x11)?;
    each_senseless(rt, 0x19)?;
    senseless(rt, 7, 0)?;
    senseless(rt, 7, 0x1e)?;
    Ok(())
}

pub fn lines(rt: &impl Print) -> io::Result<()> {
    println!(rt; "Register values")?;
    orders(rt)?;
    senseless_orders(rt)?;
    println!(rt; "(held: control bits; registers: their number; register: which, what)")?;
    control(rt)?;
    lists(rt)?;
    deciding(rt)?;
    println!(rt; "(every: control bits, every register's value, its AND mask, its OR mask)")?;
    sizes(rt)?;
    cases(rt)?;
    println!(rt; "(senseless: register whose pair it is; control bits)")?;
    senseless_pairs(rt)?;
    Ok(())
}
