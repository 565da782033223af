// Constants of the code that mirror definitions. Contracts say what the code does with them, so none need be believed.

// The other limits of specs/Limits.
pub const MAX_ENTRIES: usize = 64;

pub const MAX_OWNER: u8 = 63;

pub const MAX_BLOCK: usize = 4096;

pub const MAX_ROM: usize = 16777216;

// The known bits of the editions of specs/Editions.
pub const KNOWN_CONTROL_3_0: u32 = 0x1f;

pub const KNOWN_CONTROL_3_3: u32 = 0x3ff;

pub const KNOWN_SUPPORT_3_0: u32 = 0x1f;

pub const KNOWN_SUPPORT_3_3: u32 = 0x1ff;

// The bytes of a bus, a device and a function in a window of specs/Place.
pub const BUS_BYTES: u64 = 0x10_0000;

pub const DEVICE_BYTES: u64 = 0x8000;

pub const FUNCTION_BYTES: u64 = 0x1000;
