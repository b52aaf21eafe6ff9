// The words of instructions.
use px_program::{Arithmetic, Check, Checked, Code, Division, Move, Shift, Test, Unary};

fn arithmetic_word(operation: Arithmetic) -> &'static str {
    match operation {
        Arithmetic::Add => "add",
        Arithmetic::Sub => "sub",
        Arithmetic::Mul => "mul",
        Arithmetic::And => "and",
        Arithmetic::Or => "or",
        Arithmetic::Xor => "xor",
    }
}

fn division_word(part: Division) -> &'static str {
    match part {
        Division::Quotient => "div",
        Division::Remainder => "rem",
    }
}

fn checked_word(operation: Checked) -> &'static str {
    match operation {
        Checked::Add => "add.ovf",
        Checked::Sub => "sub.ovf",
        Checked::Mul => "mul.ovf",
    }
}

fn shift_word(way: Shift) -> &'static str {
    match way {
        Shift::Left => "shl",
        Shift::Right => "shr",
        Shift::RightUnsigned => "shr.un",
    }
}

fn unary_word(operation: Unary) -> &'static str {
    match operation {
        Unary::Negate => "neg",
        Unary::Complement => "not",
    }
}

fn compare_word(test: Test) -> &'static str {
    match test {
        Test::Eq => "ceq",
        Test::Ne => "cne",
        Test::Gt => "cgt",
        Test::Ge => "cge",
        Test::Lt => "clt",
        Test::Le => "cle",
    }
}

fn branch_word(test: Test) -> &'static str {
    match test {
        Test::Eq => "beq",
        Test::Ne => "bne",
        Test::Gt => "bgt",
        Test::Ge => "bge",
        Test::Lt => "blt",
        Test::Le => "ble",
    }
}

fn move_word(step: &Move) -> &'static str {
    match step {
        Move::Argument(_) => "ldarg",
        Move::SetArgument(_) => "starg",
        Move::Local(_) => "ldloc",
        Move::SetLocal(_) => "stloc",
        Move::Constant32(_) => "ldc.i4",
        Move::Constant64(_) => "ldc.i8",
        Move::Null => "ldnull",
        Move::Text(_) => "ldstr",
        Move::Duplicate => "dup",
        Move::Pop => "pop",
    }
}

// The word of what reckons with numbers.
fn number_word(code: &Code) -> Option<&'static str> {
    Some(match code {
        Code::Arithmetic(operation) => arithmetic_word(*operation),
        Code::Divide(part) | Code::DivideUnsigned(part) => division_word(*part),
        Code::Checked { operation, .. } => checked_word(*operation),
        Code::Shift(way) => shift_word(*way),
        Code::Unary(operation) => unary_word(*operation),
        Code::Convert(_) => "conv",
        Code::ConvertChecked { .. } => "conv.ovf",
        Code::Compare { test, .. } => compare_word(*test),
        _ => return None,
    })
}

// The word of what leads away, or to the end of a block.
fn flow_word(code: &Code) -> Option<&'static str> {
    Some(match code {
        Code::Branch(_) => "br",
        Code::BranchTruth { when: true, .. } => "brtrue",
        Code::BranchTruth { when: false, .. } => "brfalse",
        Code::BranchCompare { test, .. } => branch_word(*test),
        Code::Switch(_) => "switch",
        Code::Leave(_) => "leave",
        Code::Return => "ret",
        Code::Throw { again: true } => "rethrow",
        Code::Throw { again: false } => "throw",
        Code::EndFinally => "endfinally",
        _ => return None,
    })
}

// The word of what reaches objects and arrays.
fn object_word(code: &Code) -> Option<&'static str> {
    Some(match code {
        Code::NewArray(_) => "newarr",
        Code::Length => "ldlen",
        Code::Element { store: true, .. } => "stelem",
        Code::Element { store: false, .. } => "ldelem",
        Code::Field { store: true, .. } => "stfld",
        Code::Field { store: false, .. } => "ldfld",
        Code::Static { store: true, .. } => "stsfld",
        Code::Static { store: false, .. } => "ldsfld",
        Code::Cast { throws: true, .. } => "castclass",
        Code::Cast { throws: false, .. } => "isinst",
        _ => return None,
    })
}

// The word of what belongs to no other family.
fn other_word(code: &Code) -> &'static str {
    match code {
        Code::Nop { is_break: true } => "break",
        Code::Nop { is_break: false } => "nop",
        Code::Move(step) => move_word(step),
        Code::Call(_) => "call",
        Code::CallVirtual(_) => "callvirt",
        Code::NewObject(_) => "newobj",
        Code::Check(Check::Assume) => "assume",
        Code::Check(Check::Assert) => "assert",
        _ => "outside",
    }
}

/// The word of what an instruction does.
pub fn word_of(code: &Code) -> &'static str {
    if let Some(word) = number_word(code) {
        return word;
    }
    if let Some(word) = flow_word(code) {
        return word;
    }
    object_word(code).unwrap_or(other_word(code))
}

/// Whether an instruction reads its numbers unsigned, where there is another that reads them signed.
pub fn is_unsigned(code: &Code) -> bool {
    matches!(
        code,
        Code::DivideUnsigned(_)
            | Code::Checked { signed: false, .. }
            | Code::ConvertChecked { signed: false, .. }
            | Code::Compare { signed: false, .. }
            | Code::BranchCompare { signed: false, .. }
    )
}
