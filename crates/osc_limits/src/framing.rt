// _OSC: framing, and the answers with an error status. Every bit is permitted; bridge 0 holds control bit 1 and support bit 4.
ghost use Rattle.std.specs.Prelude.{◌≤◌};

use crate::held;
use osc::Request;
use print::Fours;
use rules::{BridgeNumber, SessionNumber};
use std::io;

// The UUID, and a byte more.
const LONG: [u8; 17] = *b"\x5b\x4d\xdb\x33\xf7\x1f\x1c\x40\x96\x57\x74\x41\xc0\x3d\xd7\x66\x00";

// The UUID as it is printed.
const PRINTED: [u8; 16] = *b"\x33\xdb\x4d\x5b\x1f\xf7\x40\x1c\x96\x57\x74\x41\xc0\x3d\xd7\x66";

// Nine DWORDs: a taking call for every bit, with every support bit, and more such DWORDs.
const CAPABILITIES: [u8; 36] =
    *b"\x00\x00\x00\x00\x1f\x00\x00\x00\x1f\x00\x00\x00\x1f\x00\x00\x00\x1f\x00\x00\x00\x1f\x00\x00\x00\x1f\x00\x00\x00\x1f\x00\x00\x00\x1f\x00\x00\x00";

// The end of a line: the number, the answer buffer, which was lent full of 0xaa, and what bridge 0 holds.
fn answered(
    rt: &impl Print,
    session: u8,
    bridge: u8,
    request: Request,
    answer: &mut [u8],
) -> io::Result<()> {
    let mut t = fixtures::three_bridges(0x1f);
    t.take(0x10, 0x02);
    let outcome = t.osc(
        SessionNumber(session),
        BridgeNumber(bridge),
        request,
        answer,
    );
    let h = held(&t);
    print!(rt; ": {}, answer{}", codes::number(outcome), Fours(answer))?;
    println!(rt; ", holds {:#x} {:#x}", h.held, h.supported)
}

// So many bytes of a UUID, of the capabilities and of the answer buffer are lent.
fn framed(rt: &impl Print, uuid: usize, count: u32, caps: usize, answer: usize) -> io::Result<()>
    requires { (uuid ≤ 17) × (caps ≤ 36) × (answer ≤ 36) }
{
    let request = Request {
        revision: 1,
        count,
        uuid: &LONG[..uuid],
        caps: &CAPABILITIES[..caps],
    };
    print!(rt; "framed {uuid} {count} {caps} {answer}")?;
    answered(rt, 1, 0, request, &mut [0xaa; 36][..answer])
}

// A session's call on a bridge, with this UUID.
fn by(rt: &impl Print, session: u8, bridge: u8, uuid: &[u8]) -> io::Result<()> {
    let request = Request {
        revision: 1,
        count: 3,
        uuid,
        caps: CAPABILITIES.split_at(12).0,
    };
    print!(rt; "by {session} {bridge} {}", uuid.len())?;
    answered(rt, session, bridge, request, &mut [0xaa; 12])
}

// A call of right framing.
fn called(
    rt: &impl Print,
    words: &str,
    uuid: &[u8; 16],
    revision: u32,
    count: u32,
) -> io::Result<()>
    requires { count ≤ 9 }
{
    let bytes = 4 * (count as usize);
    let request = Request {
        revision,
        count,
        uuid,
        caps: &CAPABILITIES[..bytes],
    };
    print!(rt; "{words} {revision} {count}")?;
    answered(rt, 1, 0, request, &mut [0xaa; 36][..bytes])
}

// The UUID with one more in this byte.
fn uuid_but(at: usize) -> [u8; 16]
    requires { at ≤ 15 }
{
    let mut uuid = fixtures::UUID;
    uuid[at] = uuid[at].wrapping_add(1);
    uuid
}

// "_OSC 1, 2, 3."
fn callers(rt: &impl Print) -> io::Result<()> {
    println!(rt; "(by: session, bridge, length of the UUID)")?;
    by(rt, 1, 0, &fixtures::UUID)?;
    by(rt, 1, 2, &fixtures::UUID)?;
    by(rt, 2, 0, &fixtures::UUID)?;
    by(rt, 0, 3, &fixtures::UUID)?;
    by(rt, 1, 64, &fixtures::UUID)?;
    by(rt, 1, 0, b"")?;
    by(rt, 2, 0, b"")?;
    by(rt, 1, 3, b"")?;
    Ok(())
}

// "UUID not 16 bytes, Count 0 or above 8, capability length or answer length not 4 x Count"
fn framings(rt: &impl Print) -> io::Result<()> {
    println!(rt; "(framed: length of the UUID, Count, length of the capabilities, of the answer)")?;
    framed(rt, 16, 3, 12, 12)?;
    framed(rt, 15, 3, 12, 12)?;
    framed(rt, 17, 3, 12, 12)?;
    framed(rt, 16, 0, 0, 0)?;
    framed(rt, 16, 1, 4, 4)?;
    framed(rt, 16, 8, 32, 32)?;
    framed(rt, 16, 9, 36, 36)?;
    Ok(())
}

fn lengths(rt: &impl Print) -> io::Result<()> {
    framed(rt, 16, 3, 11, 12)?;
    framed(rt, 16, 3, 13, 12)?;
    framed(rt, 16, 3, 12, 11)?;
    framed(rt, 16, 3, 12, 13)?;
    framed(rt, 16, 3, 16, 12)?;
    framed(rt, 16, 3, 12, 16)?;
    framed(rt, 16, 3, 16, 16)?;
    framed(rt, 16, 0x4000_0003, 12, 12)?;
    framed(rt, 15, 4, 16, 16)?;
    Ok(())
}

// "UUID differs, status 0x04; revision not 1, status 0x08; Count not 3, status 0x02"
fn errors(rt: &impl Print) -> io::Result<()> {
    println!(rt; "(UUID right, wrong: revision, Count)")?;
    called(rt, "UUID in printed order", &PRINTED, 1, 3)?;
    called(rt, "UUID wrong at byte 0", &uuid_but(0), 1, 3)?;
    called(rt, "UUID wrong at byte 4", &uuid_but(4), 1, 3)?;
    called(rt, "UUID wrong at byte 8", &uuid_but(8), 1, 3)?;
    called(rt, "UUID wrong at byte 15", &uuid_but(15), 1, 3)?;
    called(rt, "UUID right", &fixtures::UUID, 0, 3)?;
    called(rt, "UUID right", &fixtures::UUID, 2, 3)?;
    called(rt, "UUID right", &fixtures::UUID, 65537, 3)?;
    called(rt, "UUID right", &fixtures::UUID, 1, 2)?;
    called(rt, "UUID right", &fixtures::UUID, 1, 4)?;
    Ok(())
}

// "The first rule that fits decides"
fn orders(rt: &impl Print) -> io::Result<()> {
    called(rt, "UUID wrong at byte 7", &uuid_but(7), 2, 3)?;
    called(rt, "UUID wrong at byte 7", &uuid_but(7), 1, 4)?;
    called(rt, "UUID right", &fixtures::UUID, 2, 4)?;
    Ok(())
}

pub fn lines(rt: &impl Print) -> io::Result<()> {
    println!(rt; "_OSC framing and error answers")?;
    callers(rt)?;
    framings(rt)?;
    lengths(rt)?;
    errors(rt)?;
    orders(rt)?;
    Ok(())
}
