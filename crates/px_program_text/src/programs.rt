// Programs as text.
use crate::codes::put_instrs;
use crate::out::Out;
use crate::words::{put_places, put_places_on, put_some_place};
use px_program::{Clause, ClauseKind, Layout, Method, Program, Slot, TypeInfo};
use std::alloc::{AllocError, Global};

// How many types the library has, the same in every program.
const LIBRARY: usize = 18;

// Methods with those that take their places.
fn put_overrides(out: &mut Out, pairs: &[(u32, u32)]) {
    if !pairs.is_empty() {
        out.word("overrides");
    }
    for (first, second) in pairs {
        out.number(u64::from(*first));
        out.text(":");
        out.digits(u64::from(*second));
    }
}

// The number of a type behind a word, where there is one.
fn put_some_type(out: &mut Out, word: &str, class: Option<u32>) {
    if let Some(class) = class {
        out.typed(word, class);
    }
}

// What a type is, after its number.
fn put_type(out: &mut Out, info: &TypeInfo) {
    out.name(info.name.as_slice());
    put_some_type(out, "on", info.base);
    put_some_place(out, "of", info.element);
    put_places(out, "fields", info.fields.as_slice());
    put_places(out, "statics", info.statics.as_slice());
    put_overrides(out, info.overrides.as_slice());
    out.text("\n");
}

// The lines of types from a number on.
fn put_types(out: &mut Out, types: &[TypeInfo], first: usize) {
    for (number, info) in types.iter().enumerate() {
        if number >= first {
            out.text("type");
            out.number(number as u64);
            put_type(out, info);
        }
    }
}

fn clause_word(kind: ClauseKind) -> &'static str {
    match kind {
        ClauseKind::Catch => "catch",
        ClauseKind::Filter => "filter",
        ClauseKind::Finally => "finally",
        ClauseKind::Fault => "fault",
    }
}

// The lines of clauses.
fn put_clauses(out: &mut Out, clauses: &[Clause]) {
    for clause in clauses {
        out.text(" ");
        out.range(clause_word(clause.kind), clause.from, clause.to);
        out.range("by", clause.start, clause.stop);
        put_some_type(out, "of", clause.class);
        out.text("\n");
    }
}

// What a method takes: its receiver first, where it has one, and its parameters.
fn put_params(out: &mut Out, method: &Method) {
    if method.is_static {
        put_places(out, "takes", method.params.as_slice());
    } else {
        out.typed("takes", method.owner);
        put_places_on(out, method.params.as_slice());
    }
}

// What a method is, after its number.
fn put_signature(out: &mut Out, method: &Method) {
    out.name(method.name.as_slice());
    out.typed("of", method.owner);
    out.word(if method.is_static {
        "static"
    } else {
        "instance"
    });
    put_params(out, method);
    put_some_place(out, "returns", method.ret);
    put_places(out, "locals", method.locals.as_slice());
    out.counted("stack", u32::from(method.max_stack));
    out.text("\n");
}

// The lines of methods, each with its instructions and clauses.
fn put_methods(out: &mut Out, methods: &[Method]) {
    for (number, method) in methods.iter().enumerate() {
        out.text("method");
        out.number(number as u64);
        put_signature(out, method);
        put_instrs(out, method.code.as_slice());
        put_clauses(out, method.clauses.as_slice());
    }
}

/// A line of numbers behind words.
pub fn put_numbers(out: &mut Out, words: &str, numbers: &[u32]) {
    out.text(words);
    for number in numbers {
        out.number(u64::from(*number));
    }
    out.text("\n");
}

// What a method is in overriding.
fn put_slot(out: &mut Out, slot: Slot) {
    out.word(if slot.is_virtual { "virtual" } else { "plain" });
    if let Some(other) = slot.overridden {
        out.text(":");
        out.digits(u64::from(other));
    }
}

// The line of what methods are in overriding.
fn put_slots(out: &mut Out, slots: &[Slot]) {
    out.text("layout slots");
    for slot in slots {
        put_slot(out, *slot);
    }
    out.text("\n");
}

// The lines of a layout.
fn put_layout(out: &mut Out, layout: &Layout) {
    put_numbers(out, "layout types", layout.types.as_slice());
    put_numbers(out, "layout methods", layout.methods.as_slice());
    put_slots(out, layout.slots.as_slice());
}

// The line of what a run begins with.
fn put_start(out: &mut Out, entry: u32, maker: Option<u32>) {
    out.text("entry");
    out.number(u64::from(entry));
    if let Some(maker) = maker {
        out.counted("maker", maker);
    }
    out.text("\n");
}

/// The lines of a program: one for each type, those of the library only where all are asked for, for each method, instruction and clause, for what a run
/// begins with, and for how an assembly has it.
pub fn put_program(out: &mut Out, program: &Program, all: bool) {
    put_types(out, program.types.as_slice(), if all { 0 } else { LIBRARY });
    put_methods(out, program.methods.as_slice());
    put_start(out, program.entry, program.maker);
    put_layout(out, &program.layout);
}

/// A program as text, with all of its types.
pub fn text_of(alloc: Global, program: &Program) -> Result<String, AllocError> {
    let mut out = Out::new(alloc);
    put_program(&mut out, program, true);
    out.finish()
}
