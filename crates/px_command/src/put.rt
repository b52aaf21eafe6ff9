// Writes what is answered.
ghost use Rattle.std.specs.Prelude.{◌≡◌, []};
ghost use Rattle.std.specs.List.{AllByRecursion};
ghost use Rattle.px_domain.specs.Domain.{InDomain};
ghost use Rattle.px_io.specs.Puts.{Puts};
ghost use Rattle.px_command.specs.Lines.{no_file_line, read_fault_line, too_long_line, usage_line};
ghost use Rattle.px_command.specs.Says.{IsSayable, IsWritable, answer_text, reply_text};

use crate::refusals::put_refusal;
use crate::top::Reply;
use px_command_answers::Answer;
use px_io::Piece::{Count, Name, Text};
use px_io::{Sink, Stopped, put_pieces};
use px_tests::{Input, write_report};

#[tactic(auto, unfolding(crate::specs::Lines::usage_line))]
fn put_usage<O: Sink>(out: &mut O, place: u64) -> Result<(), Stopped>
    ensures { Puts O.written O.faults out.old (usage_line place) out.new result }
{
    put_pieces(out, &[Text("usage word "), Count(place), Text("\n")])
}

#[tactic(auto, unfolding(crate::specs::Lines::no_file_line))]
fn put_no_file<O: Sink>(out: &mut O, name: &str) -> Result<(), Stopped>
    ensures { Puts O.written O.faults out.old (no_file_line name.now) out.new result }
{
    put_pieces(out, &[Text("no file "), Name(name.as_bytes()), Text("\n")])
}

#[tactic(auto, unfolding(crate::specs::Lines::read_fault_line))]
fn put_read_fault<O: Sink>(out: &mut O, name: &str) -> Result<(), Stopped>
    ensures { Puts O.written O.faults out.old (read_fault_line name.now) out.new result }
{
    put_pieces(
        out,
        &[Text("read fault "), Name(name.as_bytes()), Text("\n")],
    )
}

#[tactic(auto, unfolding(crate::specs::Lines::too_long_line))]
fn put_too_long<O: Sink>(out: &mut O) -> Result<(), Stopped>
    ensures { Puts O.written O.faults out.old too_long_line out.new result }
{
    put_pieces(out, &[Text("refused file TooLong\n")])
}

// Writes the report or the line of an answer.
fn put_answer<O: Sink>(out: &mut O, input: &Input, answer: &Answer) -> Result<(), Stopped>
    requires { IsWritable answer.now }
    ensures { Puts O.written O.faults out.old (answer_text input.now answer.now) out.new result }
{
    match answer {
        Answer::Found(program, findings) => write_report(program.program(), input, findings, out),
        Answer::Refused(why) => put_refusal(out, why),
        Answer::Memory => Ok(()),
    }
}

/// Writes the text of a reply; it takes no memory. `Stopped` comes only where a write failed, after a proper prefix of the text.
pub fn put_reply<O: Sink>(out: &mut O, reply: &Reply) -> Result<(), Stopped>
    requires { IsSayable reply.now }
    ensures { Puts O.written O.faults out.old (reply_text reply.now) out.new result }
{
    match reply {
        Reply::Misfit(place) => put_usage(out, *place),
        Reply::NoFile(name) => put_no_file(out, name),
        Reply::TooLong => put_too_long(out),
        Reply::ReadFault(name) => put_read_fault(out, name),
        Reply::Answered(input, answer) => put_answer(out, input, answer),
        Reply::NoMemory => Ok(()),
    }
}
