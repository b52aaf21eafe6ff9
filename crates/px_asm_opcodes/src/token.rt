// Instructions with a token.
ghost use Rattle.std.specs.Prelude.{◌≡◌};
ghost use Rattle.px_asm_opcodes.specs.Recoding.{token_opcode};

use px_program::{Code, ElementForm, Move};

/// The opcode of an instruction that has a token.
pub fn token_opcode(code: &Code) -> Option<u16>
    ensures { result ≡ token_opcode code.now }
{
    Some(match code {
        Code::Move(Move::Text(_)) => 0x72,
        Code::NewArray(_) => 0x8D,
        Code::Element {
            store,
            form: ElementForm::Typed(_),
        } => if *store { 0xA4 } else { 0xA3 },
        Code::Cast { throws, .. } => if *throws { 0x74 } else { 0x75 },
        Code::Field { store, .. } => if *store { 0x7D } else { 0x7B },
        Code::Static { store, .. } => if *store { 0x80 } else { 0x7E },
        Code::Call(_) | Code::Check(_) => 0x28,
        Code::CallVirtual(_) => 0x6F,
        Code::NewObject(_) => 0x73,
        _ => return None,
    })
}
