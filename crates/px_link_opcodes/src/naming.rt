// The name of an instruction that isn't run.
ghost use Rattle.std.specs.Prelude.{◌≡◌, ◌<◌, ◌++◌, IfOk, OnOk};
ghost use Rattle.px_link_opcodes.specs.Opcodes.{hex_byte, hex_digit, opcode_name, outside};

use px_program::{Code, Name};
use sqlite_items::Items;
use std::alloc::{AllocError, Global};

// A capital hexadecimal digit.
fn hex_digit(n: u8) -> u8
    requires { n < 16 }
    ensures { result ≡ hex_digit n }
{
    if n < 10 { b'0' + n } else { b'A' + (n - 10) }
}

fn push_hex(name: &mut Vec<u8>, byte: u8) -> Result<(), AllocError>
    ensures { OnOk result (name.new.items ≡ name.old.items ++ hex_byte byte) }
{
    name.extend_from_slice(&[hex_digit(byte / 16), hex_digit(byte % 16)])
}

/// The name of an instruction that isn't run: `opcode-28`, and behind 0xFE `opcode-FE-1C`.
pub fn opcode_name(alloc: Global, opcode: u16) -> Result<Name, AllocError>
    ensures { IfOk result (λ name. name ≡ opcode_name opcode) }
{
    let mut name = Vec::from_slice(alloc, b"opcode-")?;
    if opcode >= 0x100 {
        push_hex(&mut name, (opcode / 0x100) as u8)?;
        name.push(b'-')?;
    }
    push_hex(&mut name, (opcode % 0x100) as u8)?;
    Ok(Items::from_vec(name))
}

/// An instruction that isn't run, of this opcode.
pub fn outside(alloc: Global, opcode: u16) -> Result<Code, AllocError>
    ensures { IfOk result (λ code. code ≡ outside opcode) }
{
    Ok(Code::Outside(opcode_name(alloc, opcode)?, opcode))
}
