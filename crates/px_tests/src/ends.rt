// The ends of runs as text.
ghost use Rattle.std.specs.Prelude.{◌≡◌, ◌%◌, ◌^◌, ◌++◌, codes, decimal};
ghost use Rattle.px_domain.specs.Place.{word_bits};
ghost use Rattle.px_io.specs.Puts.{Puts};
ghost use Rattle.px_program.specs.Formed.{entry_of, instr_at};
ghost use Rattle.std.specs.Option.{option_copied};
ghost use Rattle.px_tests.specs.Ends.{end_text, outside_in, outside_name, outside_of, return_in, returned_by, type_name, value_text};

use px_domain::number_of;
use px_io::Piece::{Name, Number, Signed, Text};
use px_io::{Sink, Stopped, put_pieces};
use px_program::{Code, End, Instr, Method, Place, Program, Value};

// The name of the type of a number.
fn type_name(program: &Program, class: u32) -> &[u8]
    ensures { result.now ≡ type_name program.now class }
{
    match program.types.get(class as usize) {
        Some(info) => info.name.as_slice(),
        None => &[],
    }
}

// The instruction at an offset: a plain scan, since nothing is known of the program's order here, and a test has one end.
fn instr_at(method: &Method, at: u32) -> Option<&Instr>
    ensures { option_copied result ≡ instr_at method.now.code at }
{
    method
        .code
        .as_slice()
        .iter()
        .find(|instr| instr.offset == at)
}

// The name of what the instruction would need, where it isn't run.
fn outside_of(code: &Code) -> &[u8]
    ensures { result.now ≡ outside_of code.now }
{
    match code {
        Code::Outside(name, _) => name.as_slice(),
        _ => &[],
    }
}

fn outside_in(method: &Method, at: u32) -> &[u8]
    ensures { result.now ≡ outside_in (instr_at method.now.code at) }
{
    match instr_at(method, at) {
        Some(instr) => outside_of(&instr.code),
        None => &[],
    }
}

// The name of what the instruction at an offset of a method would need.
fn outside_name(program: &Program, method: u32, at: u32) -> &[u8]
    ensures { result.now ≡ outside_name program.now method at }
{
    match program.methods.get(method as usize) {
        Some(method) => outside_in(method, at),
        None => &[],
    }
}

// The return type of the entry.
fn return_of(program: &Program) -> Option<Place>
    ensures { result ≡ return_in (entry_of program.now) }
{
    match program.methods.get(program.entry as usize) {
        Some(method) => method.ret,
        None => None,
    }
}

fn put_value<O: Sink>(out: &mut O, ret: Option<Place>, value: Value) -> Result<(), Stopped>
    ensures { Puts O.written O.faults out.old (value_text ret value) out.new result }
{
    match value {
        Value::Nothing => put_pieces(out, &[Text("returned")]),
        Value::Number(n) => put_pieces(out, &[Text("returned "), Signed(returned_by(ret, n))]),
        Value::Null => put_pieces(out, &[Text("returned null")]),
        Value::Object => put_pieces(out, &[Text("returned object")]),
    }
}

// The number that a pattern is, by the return type.
fn returned_by(ret: Option<Place>, n: u64) -> i128
    ensures { result ≡ returned_by ret n }
{
    match ret {
        Some(place) => number_of(place, low_bits(place, n)),
        None => i128::from(n),
    }
}

// The low bits of a pattern, as many as a word of the place has.
fn low_bits(place: Place, n: u64) -> u64
    ensures { result ≡ n % 2 ^ word_bits place }
{
    match place {
        Place::I8 | Place::U8 | Place::N | Place::UN => n,
        _ => n % 4294967296,
    }
}

/// Writes how a run of the program ended.
pub fn put_end<O: Sink>(out: &mut O, program: &Program, end: End) -> Result<(), Stopped>
    ensures { Puts O.written O.faults out.old (end_text program.now end) out.new result }
{
    match end {
        End::Returned(value) => put_value(out, return_of(program), value),
        End::Threw(class) => put_pieces(out, &[Text("threw "), Name(type_name(program, class))]),
        End::AssertFailed => put_pieces(out, &[Text("assert-failed")]),
        End::Assumed => put_pieces(out, &[Text("assumed")]),
        End::StepBound => put_pieces(out, &[Text("step-bound")]),
        End::DepthBound => put_pieces(out, &[Text("depth-bound")]),
        End::HeapBound => put_pieces(out, &[Text("heap-bound")]),
        End::Outside(method, at) => put_pieces(
            out,
            &[
                Text("outside "),
                Number(method),
                Text(":"),
                Number(at),
                Text(" "),
                Name(outside_name(program, method, at)),
            ],
        ),
    }
}
