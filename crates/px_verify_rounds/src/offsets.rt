// What starts at an offset of a method's code.
ghost use Rattle.std.specs.Prelude.{◌≡◌};
ghost use Rattle.std.specs.Option.{option_copied};
ghost use Rattle.px_program.specs.Formed.{Follow, end_of, instr_at};

use px_program::{Instr, Method};

/// The instruction of a method that starts at an offset, where one does.
pub fn instr_at(method: &Method, at: u32) -> Option<&Instr>
    requires { Follow 0 method.now.code }
    ensures { option_copied result ≡ instr_at method.now.code at }
{
    let code = method.code.as_slice();
    match code.binary_search_by_key(&at, |instr| instr.offset) {
        Ok(index) => method.code.get(index),
        Err(_) => None,
    }
}

/// The offset behind the last instruction.
pub fn end_of(code: &[Instr]) -> u32
    ensures { result ≡ end_of code.now }
{
    match code.last() {
        Some(instr) => instr.next,
        None => 0,
    }
}
