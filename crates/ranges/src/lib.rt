// The setting records as values, once for the record search and for the writer: their numbers, their ranges and their AND/OR pairs.
#![tactic(auto)]

ghost use Rattle.std.specs.Prelude.{◌≡◌, ℕ, ◌*◌, ◌<◌, ◌≤◌, List, length, get_or, refl};
ghost use Rattle.std.proofs.Common.{lit≤};
ghost use Rattle.rules.specs.Records.{value, meaningful, in_ranges, record_size};
ghost use Rattle.rules.specs.Writer.{
  numbers_from,
  pci_numbers,
  pci_of,
  pci_x_numbers,
  pci_x_of,
  express_numbers,
  express_of,
  masks_of,
};
ghost use Rattle.rules.specs.declared.Field.{Field};

use rules::{ExpressSetting, Masks, PciSetting, PciXSetting};

// The revision of every record, its number 0.
const REVISION: u32 = 1;

// What numbers are at most: cache line and latency; SERR and PERR; the read count; both split counts; the masks of Device Control and Link Control.
const BYTE: u32 = 255;

const FLAG: u32 = 1;

const READ_COUNT: u32 = 3;

const SPLITS: u32 = 7;

const WORD: u32 = 65535;

// A record of N numbers, the first being the revision.
pub trait SettingRecord<const N: usize>: Copy {
    ghost TYPE: { ℕ };

    ghost numbers: { Self → List ℕ };

    ghost from_numbers: { List ℕ → Self };

    // Its type, which is its tag.
    const TYPE: u8;

    // Its numbers, in the field order of the document.
    fn numbers(self) -> [u32; N]
        ensures { result ≡ numbers self };

    // The record of these numbers, whatever revision stands first.
    fn from_numbers(v: &[u32; N]) -> Self
        ensures { result ≡ from_numbers v.now };

    // Whether its values keep their ranges and its AND/OR pairs are meaningful.
    fn in_ranges(self) -> bool
        ensures { result ≡ in_ranges TYPE (λ k. get_or (numbers self) k 0) };

    ghost count: { (r : Self) → length (numbers r) ≡ N };

    ghost few: { N ≤ 17 };

    ghost size: { 4 * N ≡ record_size TYPE };

    ghost back: { (r : Self) → from_numbers (numbers r) ≡ r };

    ghost read: { (l : List ℕ) (f : Field) → in_ranges TYPE (λ k. get_or (numbers (from_numbers (numbers_from N 0 l f))) k 0) ≡ in_ranges TYPE (value l f) };
}

// Type 0.
impl SettingRecord<5> for PciSetting {
    ghost TYPE = { 0 };

    ghost numbers = { pci_numbers };

    ghost from_numbers = { pci_of };

    ghost count = { λ r. refl };

    ghost few = { lit≤ tt };

    ghost size = { refl };

    ghost back = { λ r. refl };

    ghost read = { λ l f. refl };

    const TYPE: u8 = 0;

    fn numbers(self) -> [u32; 5] {
        [
            REVISION,
            self.cache_line_size,
            self.latency_timer,
            self.enable_serr,
            self.enable_perr,
        ]
    }

    fn from_numbers(v: &[u32; 5]) -> Self {
        PciSetting {
            cache_line_size: v[1],
            latency_timer: v[2],
            enable_serr: v[3],
            enable_perr: v[4],
        }
    }

    fn in_ranges(self) -> bool {
        (self.cache_line_size <= BYTE)
            & (self.latency_timer <= BYTE)
            & (self.enable_serr <= FLAG)
            & (self.enable_perr <= FLAG)
    }
}

// Type 1.
impl SettingRecord<4> for PciXSetting {
    ghost TYPE = { 1 };

    ghost numbers = { pci_x_numbers };

    ghost from_numbers = { pci_x_of };

    ghost count = { λ r. refl };

    ghost few = { lit≤ tt };

    ghost size = { refl };

    ghost back = { λ r. refl };

    ghost read = { λ l f. refl };

    const TYPE: u8 = 1;

    fn numbers(self) -> [u32; 4] {
        [
            REVISION,
            self.maximum_memory_read_byte_count,
            self.average_maximum_outstanding_split_transactions,
            self.total_maximum_outstanding_split_transactions,
        ]
    }

    fn from_numbers(v: &[u32; 4]) -> Self {
        PciXSetting {
            maximum_memory_read_byte_count: v[1],
            average_maximum_outstanding_split_transactions: v[2],
            total_maximum_outstanding_split_transactions: v[3],
        }
    }

    fn in_ranges(self) -> bool {
        (self.maximum_memory_read_byte_count <= READ_COUNT)
            & (self.average_maximum_outstanding_split_transactions <= SPLITS)
            & (self.total_maximum_outstanding_split_transactions <= SPLITS)
    }
}

// Each bit of the OR mask is one of the AND mask.
fn meaningful(m: Masks) -> bool
    ensures { result ≡ meaningful m.and m.or }
{
    (m.or & m.and) == m.or
}

// The AND/OR pair of register k.
fn masks(v: &[u32; 17], k: usize) -> Masks
    requires { k < 8 }
    ensures { result ≡ masks_of v.now k }
{
    Masks {
        and: v[1 + 2 * k],
        or: v[2 + 2 * k],
    }
}

// Type 2.
impl SettingRecord<17> for ExpressSetting {
    ghost TYPE = { 2 };

    ghost numbers = { express_numbers };

    ghost from_numbers = { express_of };

    ghost count = { λ r. refl };

    ghost few = { lit≤ tt };

    ghost size = { refl };

    ghost back = { λ r. refl };

    ghost read = { λ l f. refl };

    const TYPE: u8 = 2;

    fn numbers(self) -> [u32; 17] {
        [
            REVISION,
            self.uncorrectable_error_mask.and,
            self.uncorrectable_error_mask.or,
            self.uncorrectable_error_severity.and,
            self.uncorrectable_error_severity.or,
            self.correctable_error_mask.and,
            self.correctable_error_mask.or,
            self.advanced_error_capabilities_and_control.and,
            self.advanced_error_capabilities_and_control.or,
            self.device_control.and,
            self.device_control.or,
            self.link_control.and,
            self.link_control.or,
            self.secondary_uncorrectable_error_severity.and,
            self.secondary_uncorrectable_error_severity.or,
            self.secondary_uncorrectable_error_mask.and,
            self.secondary_uncorrectable_error_mask.or,
        ]
    }

    fn from_numbers(v: &[u32; 17]) -> Self {
        ExpressSetting {
            uncorrectable_error_mask: masks(v, 0),
            uncorrectable_error_severity: masks(v, 1),
            correctable_error_mask: masks(v, 2),
            advanced_error_capabilities_and_control: masks(v, 3),
            device_control: masks(v, 4),
            link_control: masks(v, 5),
            secondary_uncorrectable_error_severity: masks(v, 6),
            secondary_uncorrectable_error_mask: masks(v, 7),
        }
    }

    fn in_ranges(self) -> bool {
        (self.device_control.and <= WORD)
            & (self.device_control.or <= WORD)
            & (self.link_control.and <= WORD)
            & (self.link_control.or <= WORD)
            & meaningful(self.uncorrectable_error_mask)
            & meaningful(self.uncorrectable_error_severity)
            & meaningful(self.correctable_error_mask)
            & meaningful(self.advanced_error_capabilities_and_control)
            & meaningful(self.device_control)
            & meaningful(self.link_control)
            & meaningful(self.secondary_uncorrectable_error_severity)
            & meaningful(self.secondary_uncorrectable_error_mask)
    }
}
