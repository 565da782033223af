// Expansion ROMs: an image taken apart, the search of the chain of images, the image as a part of the ROM.
#![tactic(auto)]

ghost use Rattle.std.specs.Prelude.{◌≡◌, ◌||◌, ◌+◌, ◌≤◌, ltb, length, IfOk};
ghost use Rattle.codes.specs.Numbers.{number};
ghost use Rattle.parts.specs.Found.{placed, found_at};
ghost use Rattle.rules.specs.Limits.{max_rom};
ghost use Rattle.rules.specs.Parts.{part, part_at};
ghost use Rattle.rules.specs.Rom.{is_last, is_asked, image_part, find_image};
ghost use Rattle.rom.specs.Images.{image_read, chain_sound, chosen_if};

use codes::Refusal;
use parts::Part;
use rules::constants::MAX_ROM;
use rules::{Found, Image};

// 0x55 0xAA as a number, and the letters of a structure.
const SIGNATURE: u16 = 0xaa55;

const STRUCTURE: [u8; 4] = *b"PCIR";

// The image at a byte, where its header is whole, or a broken chain, which is refusal 12; the structure's 24 bytes are there before the length is read.
fn read_image(rom: &[u8], at: usize) -> Result<Image, Refusal>
    requires { 26 + at ≤ length rom.now }
    ensures { result ≡ image_read rom.now at }
{
    if words::read16(rom, at) != SIGNATURE {
        return Err(Refusal::Rom);
    }
    let pointer = usize::from(words::read16(rom, 24 + at));
    if rom.len() - at < 24 + pointer {
        return Err(Refusal::Rom);
    }
    let structure = pointer + at;
    if !words::same(&rom[structure..4 + structure], &STRUCTURE) {
        return Err(Refusal::Rom);
    }
    let size = 512 * usize::from(words::read16(rom, 16 + structure));
    if size == 0 {
        return Err(Refusal::Rom);
    }
    if rom.len() - at < size {
        return Err(Refusal::Rom);
    }
    Ok(Image {
        start: at,
        structure,
        size,
    })
}

// Whether an image is the last: bit 7 of its indicator.
#[tactic(auto, unfolding(rules::specs::Numbers::bit))]
fn is_last(rom: &[u8], m: Image) -> bool
    requires { 24 + m.structure ≤ length rom.now }
    ensures { result ≡ is_last rom.now m }
{
    rom[21 + m.structure] / 128 % 2 == 1
}

// Whether an image is the one asked for, by its structure's own fields, in the order in which the compiler tests them: the images of one card differ in the code type.
fn is_asked(rom: &[u8], m: Image, vendor: u32, device: u32, code_type: u32) -> bool
    requires { 24 + m.structure ≤ length rom.now }
    ensures { result ≡ is_asked rom.now vendor device code_type m }
{
    (u32::from(rom[20 + m.structure]) == code_type)
        & (u32::from(words::read16(rom, 4 + m.structure)) == vendor)
        & (u32::from(words::read16(rom, 6 + m.structure)) == device)
}

// Whether the chain from a byte on leads to a last image, each image sound.
fn chain_sound(rom: &[u8], from: usize) -> bool
    requires { from ≤ length rom.now }
    ensures { result ≡ chain_sound rom.now from }
{
    // Stays: a walk of its own; of one function for both, with a closure for where to stop, each caller has to ask again what stopped it.
    let mut at = from;
    while 26 <= rom.len() - at {
        let Ok(m) = read_image(rom, at) else {
            return false;
        };
        if is_last(rom, m) {
            return true;
        }
        at = m.size + at;
    }
    false
}

// The image, header included.
fn whole(m: Image) -> Part
    ensures { placed result ≡ image_part m }
{
    Part {
        start: m.start,
        size: m.size,
    }
}

// An image that was asked for, where it is the last or the chain behind it is sound; else 12.
fn chosen(rom: &[u8], m: Image) -> Result<Part, Refusal>
    requires { (24 + m.structure ≤ length rom.now) × (m.size + m.start ≤ length rom.now) }
    ensures { found_at result ≡ chosen_if (is_last rom.now m || chain_sound rom.now (m.size + m.start)) m }
{
    if is_last(rom, m) {
        return Ok(whole(m));
    }
    if !chain_sound(rom, m.size + m.start) {
        return Err(Refusal::Rom);
    }
    Ok(whole(m))
}

// Whether a ROM is too large to be sound.
#[tactic(auto, unfolding(rules::specs::Limits::max_rom))]
fn too_large(rom: &[u8]) -> bool
    ensures { result ≡ ltb max_rom (length rom.now) }
{
    MAX_ROM < rom.len()
}

// One pass over the chain: to the first image asked for, then on to the last. Numbers are u32, so that none is taken for a smaller one.
pub fn search<'a>(rom: &'a [u8], vendor: u32, device: u32, code_type: u32) -> Result<Part, Refusal>
    ensures { found_at result ≡ find_image rom.now vendor device code_type }
{
    if too_large(rom) {
        return Err(Refusal::Rom);
    }
    // Stays: by an index, which goes on by a length that the ROM says; by the bytes left, each start would be a difference of two lengths.
    let mut at = 0;
    while 26 <= rom.len() - at {
        let m = read_image(rom, at)?;
        if is_asked(rom, m, vendor, device, code_type) {
            return chosen(rom, m);
        }
        if is_last(rom, m) {
            return Err(Refusal::NoImage);
        }
        at = m.size + at;
    }
    Err(Refusal::Rom)
}

// The image search: the image as a part of the ROM, or beside a refusal the empty part, where the ROM begins.
pub fn find_image<'a>(rom: &'a [u8], vendor: u32, device: u32, code_type: u32) -> Found<'a>
    ensures { (result.number ≡ (find_image rom.now vendor device code_type).number)
        × (result.part.now ≡ part (find_image rom.now vendor device code_type) rom.now)
        × (result.part.ref_ptr ≡ part_at (find_image rom.now vendor device code_type) rom.entry.ref_ptr) }
{
    parts::found(rom, search(rom, vendor, device, code_type))
}

// The image itself, as a part of the ROM; nothing of it where the search is refused.
pub fn try_find_image<'a>(
    rom: &'a [u8],
    vendor: u32,
    device: u32,
    code_type: u32,
) -> Result<&'a [u8], Refusal>
    ensures number { number result ≡ (find_image rom.now vendor device code_type).number }
    ensures part { IfOk result (λ found. (found.now ≡ part (find_image rom.now vendor device code_type) rom.now)
        × (found.ref_ptr ≡ part_at (find_image rom.now vendor device code_type) rom.entry.ref_ptr)) }
{
    let at = search(rom, vendor, device, code_type)?;
    Ok(parts::cut(rom, at))
}
