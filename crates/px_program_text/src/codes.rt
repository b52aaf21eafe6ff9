// What instructions do, as text.
use crate::mnemonics::{is_unsigned, word_of};
use crate::out::Out;
use crate::words::{put_form, put_places, type_word};
use px_program::{Callee, Code, Field, Instr, Move};

// A text by its code units.
fn put_units(out: &mut Out, units: &[u16]) {
    for unit in units {
        out.hex(u64::from(*unit), 4);
    }
}

// What is moved: a slot by its number, the pattern of a constant, or a text.
fn put_moved(out: &mut Out, step: &Move) {
    match step {
        Move::Argument(number)
        | Move::SetArgument(number)
        | Move::Local(number)
        | Move::SetLocal(number) => out.number(u64::from(*number)),
        Move::Constant32(pattern) => out.number(u64::from(*pattern)),
        Move::Constant64(pattern) => out.number(*pattern),
        Move::Text(units) => put_units(out, units.as_slice()),
        Move::Null | Move::Duplicate | Move::Pop => {}
    }
}

// The targets of a switch.
fn put_targets(out: &mut Out, targets: &[u32]) {
    for target in targets {
        out.number(u64::from(*target));
    }
}

// A field of a type.
fn put_field(out: &mut Out, field: Field) {
    out.number(u64::from(field.index));
    out.typed("of", field.owner);
}

// What is called.
fn put_callee(out: &mut Out, callee: &Callee) {
    match callee {
        Callee::Method(number) => out.number(u64::from(*number)),
        Callee::Constructor { class, params } => {
            out.typed("constructor", *class);
            put_places(out, "takes", params.as_slice());
        }
    }
}

// What an instruction would need that isn't run.
fn put_outside(out: &mut Out, name: &[u8], opcode: u16) {
    out.name(name);
    out.word("opcode");
    out.hex(u64::from(opcode), 2);
}

// What an instruction names.
fn put_named(out: &mut Out, code: &Code) {
    match code {
        Code::Move(step) => put_moved(out, step),
        Code::Convert(to) | Code::ConvertChecked { to, signed: _ } => out.word(type_word(*to)),
        Code::Branch(number)
        | Code::BranchTruth {
            when: _,
            target: number,
        }
        | Code::BranchCompare {
            test: _,
            signed: _,
            target: number,
        }
        | Code::Leave(number)
        | Code::CallVirtual(number) => out.number(u64::from(*number)),
        Code::Switch(targets) => put_targets(out, targets.as_slice()),
        Code::NewArray(class) | Code::Cast { throws: _, class } => out.class(*class),
        Code::Element { store: _, form } => put_form(out, *form),
        Code::Field { store: _, field } | Code::Static { store: _, field } => {
            put_field(out, *field)
        }
        Code::Call(callee) | Code::NewObject(callee) => put_callee(out, callee),
        Code::Outside(name, opcode) => put_outside(out, name.as_slice(), *opcode),
        _ => {}
    }
}

// The line of an instruction: where it begins and ends, and what it does.
fn put_instr(out: &mut Out, instr: &Instr) {
    out.range("", instr.offset, instr.next);
    out.word(word_of(&instr.code));
    out.text(if is_unsigned(&instr.code) { ".un" } else { "" });
    put_named(out, &instr.code);
    out.text("\n");
}

/// The lines of instructions.
pub fn put_instrs(out: &mut Out, instrs: &[Instr]) {
    for instr in instrs {
        put_instr(out, instr);
    }
}
