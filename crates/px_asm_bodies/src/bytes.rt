// Numbers in bytes, behind what is there.
ghost use Rattle.std.specs.Prelude.{◌≡◌, ◌≤◌, ◌++◌, OnOk, length};
ghost use Rattle.px_asm_bodies.specs.Bytes.{little_bytes, zeros_behind};

use std::alloc::AllocError;

/// So many low bytes of a number, the lowest first.
pub fn push_number(out: &mut Vec<u8>, size: usize, number: u64) -> Result<(), AllocError>
    requires { size ≤ 8 }
    ensures { OnOk result (out.new.items ≡ out.old.items ++ little_bytes size number) }
{
    out.extend_from_slice(&number.to_le_bytes()[..size])
}

/// Zeros up to a multiple of 4.
pub fn push_zeros(out: &mut Vec<u8>) -> Result<(), AllocError>
    ensures { OnOk result (out.new.items ≡ out.old.items ++ zeros_behind (length out.old.items)) }
{
    let over = out.len() % 4;
    out.extend_from_slice(&[0; 4][..(4 - over) % 4])
}
