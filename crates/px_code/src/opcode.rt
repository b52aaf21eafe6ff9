// The opcodes: Partition III.
ghost use Rattle.std.specs.Prelude.{◌≡◌, IfSome};
ghost use Rattle.px_code.specs.Body.{operand_of};
ghost use Rattle.px_code.specs.Parts.{IsShort};

use crate::body::Operand;

/// The operand that follows an opcode; none where there is no such opcode. One behind 0xFE is 0xFE00 plus its second byte.
#[tactic(auto, using(crate::proofs::Opcodes::operands), unfolding(crate::specs::Body::operand_of))]
pub fn operand_of(opcode: u16) -> Option<Operand>
    ensures operand { result ≡ operand_of opcode }
    ensures short { IfSome result IsShort }
{
    match opcode {
        0x00..=0x0D
        | 0x14..=0x1E
        | 0x25..=0x26
        | 0x2A
        | 0x46..=0x6E
        | 0x76
        | 0x7A
        | 0x82..=0x8B
        | 0x8E
        | 0x90..=0xA2
        | 0xB3..=0xBA
        | 0xC3
        | 0xD1..=0xDC
        | 0xDF..=0xE0
        | 0xFE00..=0xFE05
        | 0xFE0F
        | 0xFE11
        | 0xFE13..=0xFE14
        | 0xFE17..=0xFE18
        | 0xFE1A
        | 0xFE1D..=0xFE1E => { Some(Operand::Number(0)) }
        0x0E..=0x13 | 0x1F | 0xFE12 | 0xFE19 => Some(Operand::Number(1)),
        0xFE09..=0xFE0E => Some(Operand::Number(2)),
        0x20
        | 0x22
        | 0x27..=0x29
        | 0x6F..=0x75
        | 0x79
        | 0x7B..=0x81
        | 0x8C..=0x8D
        | 0x8F
        | 0xA3..=0xA5
        | 0xC2
        | 0xC6
        | 0xD0
        | 0xFE06..=0xFE07
        | 0xFE15..=0xFE16
        | 0xFE1C => { Some(Operand::Number(4)) }
        0x21 | 0x23 => Some(Operand::Number(8)),
        0x2B..=0x37 | 0xDE => Some(Operand::Target(1)),
        0x38..=0x44 | 0xDD => Some(Operand::Target(4)),
        0x45 => Some(Operand::Switch),
        _ => None,
    }
}
