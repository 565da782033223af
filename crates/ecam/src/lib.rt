// ECAM configuration addresses of one host bridge: a place to its address and back.
#![tactic(auto)]

ghost use Rattle.std.specs.Prelude.{◌≡◌, ◌%◌, true, not, ◌||◌, ◌==◌};
ghost use Rattle.ecam.specs.Fits.{PlaceFits};
ghost use Rattle.rules.specs.Place.{address_of, place_bad, bus_outside, in_window, place_of};

use rules::constants::{BUS_BYTES, DEVICE_BYTES, FUNCTION_BYTES};
use rules::{Bridge, BridgeNumber, Place};

// A place of a bridge, as a call asks for it: by u32 numbers, so that one that is too large is refused and never cut. The width is that of the access.
#[derive(Clone, Copy)]
pub struct Asked {
    pub bus: u32,
    pub device: u32,
    pub function: u32,
    pub offset: u32,
    pub width: u32,
}

impl Asked {
    // Whether the width is not 1, 2 or 4, or the offset no multiple of it. By a mask, since one test serves the three widths.
    fn misaligned(self) -> bool
        ensures { result ≡ not (self.width == 1 || self.width == 2 || self.width == 4) || not (self.offset % self.width == 0) }
    {
        match self.width {
            1 | 2 | 4 => self.offset & (self.width - 1) != 0,
            _ => true,
        }
    }

    // Refusal 5.
    pub fn place_bad(self) -> bool
        ensures { result ≡ place_bad self.device self.function self.offset self.width }
    {
        (31 < self.device) | (7 < self.function) | (4095 < self.offset) | self.misaligned()
    }

    // Refusal 4 of an address.
    pub fn bus_outside(self, b: Bridge) -> bool
        ensures { result ≡ bus_outside b self.bus }
    {
        (self.bus < u32::from(b.first_bus)) | (u32::from(b.last_bus) < self.bus)
    }

    // The address of a place that neither refuses, in a window that ends at 2^64 at most.
    pub fn address_of(self, b: Bridge) -> u64
        requires { PlaceFits b self.bus self.device self.function self.offset }
        ensures { result ≡ address_of b self.bus self.device self.function self.offset }
    {
        b.base
            + u64::from(self.bus) * BUS_BYTES
            + u64::from(self.device) * DEVICE_BYTES
            + u64::from(self.function) * FUNCTION_BYTES
            + u64::from(self.offset)
    }
}

// Whether an address lies in the window of the bridge's buses. Below the base the distance wraps and does not count; nothing is added to an address.
pub fn in_window(b: Bridge, address: u64) -> bool
    ensures { result ≡ in_window address b }
{
    let bus = address.wrapping_sub(b.base) / BUS_BYTES;
    (b.base <= address) & (u64::from(b.first_bus) <= bus) & (bus <= u64::from(b.last_bus))
}

// The place of an address in the window of bridge n.
pub fn place_of(n: BridgeNumber, b: Bridge, address: u64) -> Place
    requires { in_window address b ≡ true }
    ensures { result ≡ place_of n.0 b address }
{
    let inside = address - b.base;
    Place {
        bridge: n,
        bus: (inside / BUS_BYTES) as u8,
        device: (inside / DEVICE_BYTES % 32) as u8,
        function: (inside / FUNCTION_BYTES % 8) as u8,
        offset: (inside % FUNCTION_BYTES) as u16,
    }
}
