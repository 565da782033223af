// Little-endian numbers in lent buffers, byte strings compared, the byte sum.
#![tactic(auto)]

ghost use Rattle.std.specs.Prelude.{◌≡◌, ◌+◌, ◌%◌, ◌≤◌, ◌++◌, length, take, drop};
ghost use Rattle.std.specs.List.{sum_by};
ghost use Rattle.rules.specs.Numbers.{word, dword, qword, le16, le32, sum, same_bytes};
ghost use Rattle.words.specs.Sums.{lanes_sum};

use std::simd::prelude::*;

// Stays: a function for each size; a trait over u16, u32 and u64 for from_le_bytes and to_le_bytes would be longer than these.

// The 2 bytes from `at` on.
pub fn read16(b: &[u8], at: usize) -> u16
    requires { 2 + at ≤ length b.now }
    ensures { result ≡ word b.now at }
{
    u16::from_le_bytes([b[at], b[1 + at]])
}

// The 4 bytes from `at` on.
pub fn read32(b: &[u8], at: usize) -> u32
    requires { 4 + at ≤ length b.now }
    ensures { result ≡ dword b.now at }
{
    u32::from_le_bytes([b[at], b[1 + at], b[2 + at], b[3 + at]])
}

// The 8 bytes from `at` on.
pub fn read64(b: &[u8], at: usize) -> u64
    requires { 8 + at ≤ length b.now }
    ensures { result ≡ qword b.now at }
{
    let (low, high) = (read32(b, at), read32(b, 4 + at));
    u64::from(low) + (u64::from(high) << 32)
}

// A WORD's bytes from `at` on; the rest stays.
pub fn write16(b: &mut [u8], at: usize, x: u16)
    requires { 2 + at ≤ length b.old }
    ensures { b.new ≡ take at b.old ++ le16 x ++ drop (2 + at) b.old }
{
    b[at..2 + at].copy_from_slice(&x.to_le_bytes());
}

// A DWORD's bytes from `at` on; the rest stays.
pub fn write32(b: &mut [u8], at: usize, v: u32)
    requires { 4 + at ≤ length b.old }
    ensures { b.new ≡ take at b.old ++ le32 v ++ drop (4 + at) b.old }
{
    b[at..4 + at].copy_from_slice(&v.to_le_bytes());
}

// Whether two byte strings are the same. Every byte is compared, so that a string of known length costs one comparison of words.
// Stays: not `a == b`, which takes 35 instructions for 4 known bytes where this takes 13, and 52 for 16 where this takes 16.
pub fn same(a: &[u8], b: &[u8]) -> bool
    ensures { result ≡ same_bytes a.now b.now }
{
    a.len() == b.len()
        && a.iter()
            .zip(b)
            .fold(true, |equal, (x, y)| equal & (*x == *y))
}

// The bytes added one at a time, modulo 256.
pub fn sum_of_bytes(b: &[u8]) -> u8
    ensures { result ≡ sum b.now % 256 }
{
    b.iter().fold(0, |total: u8, x| total.wrapping_add(*x))
}

// A step: each of eight bytes is added to a lane of its own, modulo 256.
fn add_eight(lanes: u8x8, eight: &[u8; 8]) -> u8x8
    ensures { lanes_sum result % 256 ≡ (lanes_sum lanes + sum eight.now) % 256 }
{
    lanes + u8x8::from_array(*eight)
}

// Eights of bytes added, modulo 256.
fn sum_of_eights(eights: &[[u8; 8]]) -> u8
    ensures { result ≡ sum_by sum eights.now % 256 }
{
    eights.iter().fold(u8x8::splat(0), add_eight).reduce_sum()
}

// All bytes added, modulo 256: eight to a step, the last few apart.
#[tactic(auto, using(crate::proofs::Sums::sum_eights))]
pub fn byte_sum(b: &[u8]) -> u8
    ensures { result ≡ sum b.now % 256 }
{
    let (eights, rest) = b.as_chunks::<8>();
    sum_of_eights(eights).wrapping_add(sum_of_bytes(rest))
}
