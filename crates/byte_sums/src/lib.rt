// The byte sums by themselves, for Rust to call: the trials compare them, the timings time them. No part of the service's boundary.
#![tactic(auto)]

ghost use Rattle.std.specs.Prelude.{◌≡◌, ◌%◌};
ghost use Rattle.rules.specs.Numbers.{sum};

// The sum that start takes of an MCFG table: eight bytes to a step.
#[unsafe(no_mangle)]
pub extern "C" fn byte_sums_eight_to_a_step(b: &[u8]) -> u8
    ensures { result ≡ sum b.now % 256 }
{
    words::byte_sum(b)
}

// The same sum, one byte to a step.
#[unsafe(no_mangle)]
pub extern "C" fn byte_sums_one_to_a_step(b: &[u8]) -> u8
    ensures { result ≡ sum b.now % 256 }
{
    words::sum_of_bytes(b)
}
