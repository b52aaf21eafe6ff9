// What each instruction makes of a stack.
ghost use Rattle.std.specs.Prelude.{◌≡◌, false};
ghost use Rattle.px_program.specs.Formed.{AreTypes};
ghost use Rattle.px_program.specs.declared.program.Method.{Method};
ghost use Rattle.px_verify_flow.specs.Families.{is_simple};
ghost use Rattle.px_verify_flow.specs.Outcome.{Gives};
ghost use Rattle.px_verify_flow.specs.Rows.{effect};
ghost use Rattle.px_verify_kinds.specs.Stacks.{Extends, IsStack, kinds_of};

use crate::Stop;
use crate::rows::{arrays, calls, comparisons, fields, moves, numbers, references, steps};
use px_program::{Code, Method, Program};
use px_verify_kinds::{Stack, Stacks};

// That of an instruction on objects, or of one that neither takes anything nor leaves anything.
fn effect_on_objects(
    program: &Program,
    code: &Code,
    stacks: &mut Stacks,
    stack: Stack,
) -> Result<Stack, Stop>
    requires types { AreTypes program.now.types }
    requires stack { IsStack stacks.old stack }
    requires others { is_simple code.now ≡ false }
    ensures gives { (method : Method) → Gives stacks.new result (effect program.now method code.now (kinds_of stacks.old stack)) }
    ensures kept { Extends stacks.old stacks.new }
{
    match code {
        Code::NewArray(number) => arrays::new_array_row(stacks, *number, stack),
        Code::Length => arrays::length_row(stacks, program, stack),
        Code::Element { store, form } => {
            arrays::element_row(stacks, program, *store, *form, stack)
        }
        Code::Field { store, field } => fields::field_row(stacks, program, *store, *field, stack),
        Code::Static { store, field } => fields::static_row(stacks, program, *store, *field, stack),
        Code::Call(callee) => calls::callee_row(stacks, program, callee, stack),
        Code::CallVirtual(number) => calls::call_method_row(stacks, program, *number, stack),
        Code::NewObject(callee) => calls::make_row(stacks, program, callee, stack),
        Code::Cast { class, .. } => references::cast_row(stacks, *class, stack),
        Code::Throw { again } => references::throw_or_again_row(stacks, program, *again, stack),
        _ => Ok(stack),
    }
}

/// The stack behind an instruction, or that it finds too little or something else than it takes.
pub fn effect(
    program: &Program,
    method: &Method,
    code: &Code,
    stacks: &mut Stacks,
    stack: Stack,
) -> Result<Stack, Stop>
    requires types { AreTypes program.now.types }
    requires stack { IsStack stacks.old stack }
    ensures gives { Gives stacks.new result (effect program.now method.now code.now (kinds_of stacks.old stack)) }
    ensures kept { Extends stacks.old stacks.new }
{
    match code {
        Code::Move(action) => moves::move_row(stacks, program, method, action, stack),
        Code::Arithmetic(_) | Code::Divide(_) | Code::DivideUnsigned(_) | Code::Checked { .. } =>
            numbers::binary_row(stacks, stack),
        Code::Shift(_) => numbers::shift_row(stacks, stack),
        Code::Unary(_) => numbers::unary_row(stacks, stack),
        Code::Convert(to) | Code::ConvertChecked { to, .. } => {
            numbers::convert_row(stacks, *to, stack)
        }
        Code::Compare { test, signed } => comparisons::compare_row(stacks, *test, *signed, stack),
        Code::BranchTruth { .. } => comparisons::drop_row(stacks, stack),
        Code::BranchCompare { test, .. } => {
            comparisons::branch_compare_row(stacks, *test, stack)
        }
        Code::Switch(_) | Code::Check(_) => comparisons::int32_row(stacks, stack),
        Code::Leave(_) | Code::EndFinally => steps::nothing(stacks),
        _ => effect_on_objects(program, code, stacks, stack),
    }
}
