// Compressed numbers: Partition II, 23.2.
ghost use Rattle.std.specs.Prelude.{◌≡◌, ◌++◌, ◌^◌, ◌<◌, OnErr, OnOk};
ghost use Rattle.px_asm_heaps.specs.Numbers.{number_bytes};

use std::alloc::AllocError;

// Appends a number, in as few bytes as it needs.
#[tactic(auto, unfolding(crate::specs::Numbers::number_bytes))]
fn push_number(out: &mut Vec<u8>, number: u32) -> Result<(), AllocError>
    requires { number < 2 ^ 29 }
    ensures ok { OnOk result (out.new.items ≡ out.old.items ++ number_bytes number) }
    ensures err { OnErr result (out.new.items ≡ out.old.items) }
{
    let [a, b, c, d] = number.to_be_bytes();
    if number < 0x80 {
        out.extend_from_slice(&[d])
    } else if number < 0x4000 {
        out.extend_from_slice(&[0x80 + c, d])
    } else {
        out.extend_from_slice(&[0xC0 + a, b, c, d])
    }
}

/// Appends a count. One of 2^29 or more has no compressed form, and is answered as want of memory.
pub fn push_count(out: &mut Vec<u8>, count: usize) -> Result<(), AllocError>
    ensures ok { OnOk result (out.new.items ≡ out.old.items ++ number_bytes count) }
    ensures few { OnOk result (count < 2 ^ 29) }
    ensures err { OnErr result (out.new.items ≡ out.old.items) }
{
    if count >= 1 << 29 {
        return Err(AllocError);
    }
    push_number(out, count as u32)
}
