// The declared types. What the calls mean is in specs/, what follows from it in proofs/.
#![tactic(auto)]

pub mod constants;

// The most bridges that a table holds; `max_rows` in specs/Limits.
pub const MAX_ROWS: usize = 64;

#[repr(C)]
#[derive(Clone, Copy, Debug, Default, PartialEq, Eq)]
pub struct SessionNumber(pub u8);

#[repr(C)]
#[derive(Clone, Copy, Debug, Default, PartialEq, Eq)]
pub struct BridgeNumber(pub u8);

// A row of the starting list; its kind is 0, Express, or 1, conventional; its edition of the control field 0, the old one, or 1, 3.3.
// Stays with numbers: C writes the rows, with any byte for the kind and the edition.
#[repr(C)]
#[derive(Clone, Copy, Debug, PartialEq, Eq)]
pub struct BridgeRow {
    pub permitted: u32,
    pub segment: u16,
    pub owner: SessionNumber,
    pub first_bus: u8,
    pub last_bus: u8,
    pub kind: u8,
    pub edition: u8,
}

// What the table keeps of a host bridge.
// Stays with the edition's number: the table lies in C's memory.
#[repr(C)]
#[derive(Clone, Copy, Debug, Default, PartialEq, Eq)]
pub struct Bridge {
    pub base: u64,
    pub permitted: u32,
    pub held: u32,
    pub supported: u32,
    pub segment: u16,
    pub owner: SessionNumber,
    pub first_bus: u8,
    pub last_bus: u8,
    pub edition: u8,
}

// Bridges 0 to count - 1 stand first; the rest of the array is unused.
// Stays an array with a count: the table lies in C's memory, which is fixed; there is no heap.
#[repr(C)]
#[derive(Clone, Copy)]
pub struct Table {
    pub bridges: [Bridge; MAX_ROWS],
    pub count: usize,
}

// "What a bridge holds is its held and its supported bits in the table."
#[repr(C)]
#[derive(Clone, Copy, Debug, Default, PartialEq, Eq)]
pub struct Holding {
    pub held: u32,
    pub supported: u32,
}

// An entry of the MCFG table: its base belongs to bus 0.
#[derive(Clone, Copy, Debug, PartialEq, Eq)]
pub struct Entry {
    pub base: u64,
    pub segment: u16,
    pub start_bus: u8,
    pub end_bus: u8,
}

// A place: "bridge, bus, device, function and offset".
#[repr(C)]
#[derive(Clone, Copy, Debug, Default, PartialEq, Eq)]
pub struct Place {
    pub bridge: BridgeNumber,
    pub bus: u8,
    pub device: u8,
    pub function: u8,
    pub offset: u16,
}

// A field of a record block: where it starts, its tag (the record type) and the length of its value.
#[derive(Clone, Copy, Debug, PartialEq, Eq)]
pub struct Field {
    pub start: usize,
    pub tag: u8,
    pub size: usize,
}

// An image of an expansion ROM: where it starts, where its PCI Data Structure does, and its length.
#[derive(Clone, Copy, Debug, PartialEq, Eq)]
pub struct Image {
    pub start: usize,
    pub structure: usize,
    pub size: usize,
}

// ---- document 02, g: setting records as values, with no revision, in the field order of document 002

// Type 0, a PCI setting record (002, table 6-7).
#[repr(C)]
#[derive(Clone, Copy)]
pub struct PciSetting {
    pub cache_line_size: u32,
    pub latency_timer: u32,
    pub enable_serr: u32,
    pub enable_perr: u32,
}

// Type 1, a PCI-X setting record (002, table 6-8).
#[repr(C)]
#[derive(Clone, Copy)]
pub struct PciXSetting {
    pub maximum_memory_read_byte_count: u32,
    pub average_maximum_outstanding_split_transactions: u32,
    pub total_maximum_outstanding_split_transactions: u32,
}

// A register's AND mask and OR mask.
#[repr(C)]
#[derive(Clone, Copy)]
pub struct Masks {
    pub and: u32,
    pub or: u32,
}

// Type 2, a PCI Express setting record (002, table 6-9).
#[repr(C)]
#[derive(Clone, Copy)]
pub struct ExpressSetting {
    pub uncorrectable_error_mask: Masks,
    pub uncorrectable_error_severity: Masks,
    pub correctable_error_mask: Masks,
    pub advanced_error_capabilities_and_control: Masks,
    pub device_control: Masks,
    pub link_control: Masks,
    pub secondary_uncorrectable_error_severity: Masks,
    pub secondary_uncorrectable_error_mask: Masks,
}

// At most one record of each known type: any number but 0 says that it is present; the values of one that is not count for nothing.
// Stays with flags: C hands the settings over.
#[repr(C)]
#[derive(Clone, Copy)]
pub struct Settings {
    pub express: ExpressSetting,
    pub pci: PciSetting,
    pub pci_x: PciXSetting,
    pub has_pci: u8,
    pub has_pci_x: u8,
    pub has_express: u8,
}

// What a search of lent bytes gives, the record search and the image search: its number, and where the part of them starts and its length, header included.
// Stays a number with values beside it: C reads it. Inside, a search gives a `Result` (crates/parts).
#[repr(C)]
#[derive(Clone, Copy)]
pub struct FoundAt {
    pub number: u8,
    pub start: usize,
    pub size: usize,
}

// ---- the answers of the public calls: the number, and what is handed back beside it
// Each stays a number with values beside it: C reads it. Inside, the calls give a `Result` (crates/codes).

// Start's: the table stands first, so that nothing but its bridges is copied when it is handed back.
#[repr(C)]
#[derive(Clone, Copy)]
pub struct Started {
    pub table: Table,
    pub number: u8,
}

#[repr(C)]
#[derive(Clone, Copy)]
pub struct Reported {
    pub number: u8,
    pub holding: Holding,
}

#[repr(C)]
#[derive(Clone, Copy)]
pub struct Addressed {
    pub number: u8,
    pub address: u64,
}

// Locate's, the place of an address.
#[repr(C)]
#[derive(Clone, Copy)]
pub struct Located {
    pub number: u8,
    pub place: Place,
}

// A search's, with the part of the deciding block or of the ROM, which is empty when refused.
// Stays for the theorem on it, `found` in crates/parts/proofs/Handing; the searches give a `Result`.
#[derive(Clone, Copy)]
pub struct Found<'a> {
    pub number: u8,
    pub part: &'a [u8],
}

// The record search's as it crosses to C: whether the record lies in the slot's block, where it starts there and its length, header included.
#[repr(C)]
#[derive(Clone, Copy)]
pub struct RecordAt {
    pub number: u8,
    pub in_slot: bool,
    pub start: usize,
    pub size: usize,
}

// The eight new register values.
#[repr(C)]
#[derive(Clone, Copy)]
pub struct Values {
    pub number: u8,
    pub values: [u32; 8],
}

// The writer's: how many bytes at the start of the buffer are the block.
#[repr(C)]
#[derive(Clone, Copy)]
pub struct Written {
    pub number: u8,
    pub length: usize,
}
