// Writes what the typing refuses.
ghost use Rattle.std.specs.Prelude.{◌≡◌, ◌++◌, codes};
ghost use Rattle.std.specs.List.{flat_map};
ghost use Rattle.px_io.specs.Puts.{Puts};
ghost use Rattle.px_command.specs.Lines.{kind_text, other_text, stack_text, verify_front, verify_kind_text, verify_line};

use px_io::Piece::{Number, Text};
use px_io::{Sink, Stopped, put_pieces};
use px_verify_flow::VerifyKind;
use px_verify_kinds::Kind;

fn kind_text(kind: Kind) -> &'static str
    ensures { result.now ≡ kind_text kind }
{
    match kind {
        Kind::I => "i",
        Kind::L => "l",
        Kind::N => "n",
        Kind::Ref(_) => "r",
        Kind::Null => "null",
    }
}

fn put_kind<O: Sink>(out: &mut O, kind: &Kind) -> Result<(), Stopped>
    ensures { Puts O.written O.faults out.old (kind_text kind.now) out.new result }
{
    put_pieces(out, &[Text(kind_text(*kind))])
}

fn put_other<O: Sink>(out: &mut O, kind: &Kind) -> Result<(), Stopped>
    ensures { Puts O.written O.faults out.old (other_text kind.now) out.new result }
{
    put_pieces(out, &[Text(","), Text(kind_text(*kind))])
}

fn put_others<O: Sink>(out: &mut O, kinds: &[Kind]) -> Result<(), Stopped>
    ensures { Puts O.written O.faults out.old (flat_map other_text kinds.now) out.new result }
{
    for kind in kinds {
        put_other(out, kind)?;
    }
    Ok(())
}

// Writes the kinds of a stack, with the bottom first.
#[tactic(auto, using(px_io::proofs::Putting::writing))]
fn put_stack<O: Sink>(out: &mut O, kinds: &[Kind]) -> Result<(), Stopped>
    ensures { Puts O.written O.faults out.old (stack_text kinds.now) out.new result }
{
    match kinds {
        [] => put_pieces(out, &[Text("-")]),
        [first, others @ ..] => {
            put_kind(out, first)?;
            put_others(out, others)
        }
    }
}

fn verify_kind_text(kind: VerifyKind) -> &'static str
    ensures { result.now ≡ verify_kind_text kind }
{
    match kind {
        VerifyKind::Underflow => "Underflow",
        VerifyKind::Mismatch => "Mismatch",
        VerifyKind::BadRet => "BadRet",
        VerifyKind::BadLeave => "BadLeave",
        VerifyKind::Depth => "Depth",
        VerifyKind::FallsOff => "FallsOff",
        VerifyKind::BadMerge => "BadMerge",
    }
}

#[tactic(auto, unfolding(crate::specs::Lines::verify_front))]
fn put_front<O: Sink>(
    out: &mut O,
    kind: VerifyKind,
    method: u32,
    offset: u32,
) -> Result<(), Stopped>
    ensures { Puts O.written O.faults out.old (verify_front kind method offset) out.new result }
{
    put_pieces(
        out,
        &[
            Text("refused verify "),
            Text(verify_kind_text(kind)),
            Text(" method "),
            Number(method),
            Text(" offset "),
            Number(offset),
            Text(" stack "),
        ],
    )
}

fn put_line_end<O: Sink>(out: &mut O) -> Result<(), Stopped>
    ensures { Puts O.written O.faults out.old (codes "\n") out.new result }
{
    put_pieces(out, &[Text("\n")])
}

#[tactic(auto, using(px_io::proofs::Putting::writing))]
fn put_stack_and_end<O: Sink>(out: &mut O, kinds: &[Kind]) -> Result<(), Stopped>
    ensures { Puts O.written O.faults out.old (stack_text kinds.now ++ codes "\n") out.new result }
{
    put_stack(out, kinds)?;
    put_line_end(out)
}

/// Writes the line of an instruction that the typing refuses, with what it finds on the stack.
#[tactic(auto, using(px_io::proofs::Putting::writing))]
pub fn put_verify<O: Sink>(
    out: &mut O,
    kind: VerifyKind,
    method: u32,
    offset: u32,
    stack: &[Kind],
) -> Result<(), Stopped>
    ensures { Puts O.written O.faults out.old (verify_line method offset stack.now kind) out.new result }
{
    put_front(out, kind, method, offset)?;
    put_stack_and_end(out, stack)
}
