// Types: Partition II, 23.2.12.
ghost use Rattle.std.specs.Prelude.{◌≡◌, ◌++◌, true, OnOk};
ghost use Rattle.std.specs.List.{flat_map, list_all};
ghost use Rattle.px_asm_heaps.specs.Spelling.{is_leaf_spelled, is_spelled};
ghost use Rattle.px_asm_heaps.specs.Types.{index_of, integer_code, leaf_bytes, type_bytes};

use crate::compressed::push_count;
use px_sig::{Integer, SigLeaf, SigType};
use std::alloc::AllocError;

// The byte of an integer type.
fn integer_code(integer: Integer) -> u8
    ensures { result ≡ integer_code integer }
{
    match integer {
        Integer::Bool => 0x02,
        Integer::Char => 0x03,
        Integer::I1 => 0x04,
        Integer::U1 => 0x05,
        Integer::I2 => 0x06,
        Integer::U2 => 0x07,
        Integer::I4 => 0x08,
        Integer::U4 => 0x09,
        Integer::I8 => 0x0A,
        Integer::U8 => 0x0B,
        Integer::N => 0x18,
        Integer::UN => 0x19,
    }
}

// The token of a class as a coded index.
#[tactic(auto, unfolding(crate::specs::Types::index_of))]
fn index_of(token: u32) -> u32
    ensures { result ≡ index_of token }
{
    let tag = match token >> 24 {
        0x02 => 0,
        0x01 => 1,
        _ => 2,
    };
    token % (1 << 24) * 4 + tag
}

// Appends the bytes of a type that is no array.
fn push_leaf(out: &mut Vec<u8>, leaf: SigLeaf) -> Result<(), AllocError>
    requires { is_leaf_spelled leaf ≡ true }
    ensures { OnOk result (out.new.items ≡ out.old.items ++ leaf_bytes leaf) }
{
    match leaf {
        SigLeaf::Void => out.push(0x01)?,
        SigLeaf::Int(integer) => out.push(integer_code(integer))?,
        SigLeaf::Str => out.push(0x0E)?,
        SigLeaf::Object => out.push(0x1C)?,
        SigLeaf::Class(token) => {
            out.push(0x12)?;
            push_count(out, index_of(token) as usize)?;
        }
        SigLeaf::Other => unreachable!(),
    }
    Ok(())
}

/// Appends the bytes of a type.
pub fn push_type(out: &mut Vec<u8>, item: &SigType) -> Result<(), AllocError>
    requires { is_spelled item.now ≡ true }
    ensures { OnOk result (out.new.items ≡ out.old.items ++ type_bytes item.now) }
{
    for _ in 0..item.depth {
        out.push(0x1D)?;
    }
    push_leaf(out, item.leaf)
}

/// Appends the bytes of types, one after the other.
pub fn push_types(out: &mut Vec<u8>, items: &[SigType]) -> Result<(), AllocError>
    requires { list_all is_spelled items.now ≡ true }
    ensures { OnOk result (out.new.items ≡ out.old.items ++ flat_map type_bytes items.now) }
{
    for item in items {
        push_type(out, item)?;
    }
    Ok(())
}
