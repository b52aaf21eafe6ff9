// Writes the lines of refusals.
ghost use Rattle.std.specs.Prelude.{◌≡◌};
ghost use Rattle.px_io.specs.Puts.{Puts};
ghost use Rattle.px_command.specs.Lines.{ambiguous_line, bad_parameter_line, body_kind_text, body_line, domain_line, meta_kind_text, meta_line, no_body_line, no_maker_line, no_method_line, pe_kind_text, pe_line, raw_locals_line, refusal_line, table_kind_text, tables_line, unsupported_line};

use crate::stacks::put_verify;
use px_code::BodyKind;
use px_command_answers::Refusal;
use px_io::Piece::{Number, Text};
use px_io::{Sink, Stopped, put_pieces};
use px_meta::MetaKind;
use px_pe::PeKind;
use px_tables::TableKind;

fn pe_kind_text(kind: PeKind) -> &'static str
    ensures { result.now ≡ pe_kind_text kind }
{
    match kind {
        PeKind::NotPe => "NotPe",
        PeKind::Cut => "Cut",
        PeKind::NoCliHeader => "NoCliHeader",
        PeKind::BadSections => "BadSections",
        PeKind::MetadataOutside => "MetadataOutside",
    }
}

#[tactic(auto, unfolding(crate::specs::Lines::pe_line))]
fn put_pe<O: Sink>(out: &mut O, kind: PeKind, at: u32) -> Result<(), Stopped>
    ensures { Puts O.written O.faults out.old (pe_line kind at) out.new result }
{
    put_pieces(
        out,
        &[
            Text("refused pe "),
            Text(pe_kind_text(kind)),
            Text(" at "),
            Number(at),
            Text("\n"),
        ],
    )
}

fn table_kind_text(kind: TableKind) -> &'static str
    ensures { result.now ≡ table_kind_text kind }
{
    match kind {
        TableKind::BadRoot => "BadRoot",
        TableKind::NoStream => "NoStream",
        TableKind::BadVersion => "BadVersion",
        TableKind::UnknownTable => "UnknownTable",
        TableKind::Cut => "Cut",
        TableKind::BadIndex => "BadIndex",
    }
}

#[tactic(auto, unfolding(crate::specs::Lines::tables_line))]
fn put_tables<O: Sink>(out: &mut O, kind: TableKind, at: u32) -> Result<(), Stopped>
    ensures { Puts O.written O.faults out.old (tables_line kind at) out.new result }
{
    put_pieces(
        out,
        &[
            Text("refused tables "),
            Text(table_kind_text(kind)),
            Text(" at "),
            Number(at),
            Text("\n"),
        ],
    )
}

fn meta_kind_text(kind: MetaKind) -> &'static str
    ensures { result.now ≡ meta_kind_text kind }
{
    match kind {
        MetaKind::BadList => "BadList",
        MetaKind::BadToken => "BadToken",
        MetaKind::CycleOfBases => "CycleOfBases",
    }
}

#[tactic(auto, unfolding(crate::specs::Lines::meta_line))]
fn put_meta<O: Sink>(out: &mut O, kind: MetaKind, token: u32) -> Result<(), Stopped>
    ensures { Puts O.written O.faults out.old (meta_line kind token) out.new result }
{
    put_pieces(
        out,
        &[
            Text("refused meta "),
            Text(meta_kind_text(kind)),
            Text(" token "),
            Number(token),
            Text("\n"),
        ],
    )
}

#[tactic(auto, unfolding(crate::specs::Lines::no_method_line))]
fn put_no_method<O: Sink>(out: &mut O) -> Result<(), Stopped>
    ensures { Puts O.written O.faults out.old no_method_line out.new result }
{
    put_pieces(out, &[Text("refused method NoMethod\n")])
}

#[tactic(auto, unfolding(crate::specs::Lines::ambiguous_line))]
fn put_ambiguous<O: Sink>(out: &mut O) -> Result<(), Stopped>
    ensures { Puts O.written O.faults out.old ambiguous_line out.new result }
{
    put_pieces(out, &[Text("refused method Ambiguous\n")])
}

#[tactic(auto, unfolding(crate::specs::Lines::no_body_line))]
fn put_no_body<O: Sink>(out: &mut O) -> Result<(), Stopped>
    ensures { Puts O.written O.faults out.old no_body_line out.new result }
{
    put_pieces(out, &[Text("refused method NoBody\n")])
}

#[tactic(auto, unfolding(crate::specs::Lines::bad_parameter_line))]
fn put_bad_parameter<O: Sink>(out: &mut O, number: u32) -> Result<(), Stopped>
    ensures { Puts O.written O.faults out.old (bad_parameter_line number) out.new result }
{
    put_pieces(
        out,
        &[
            Text("refused method BadParameter "),
            Number(number),
            Text("\n"),
        ],
    )
}

#[tactic(auto, unfolding(crate::specs::Lines::no_maker_line))]
fn put_no_maker<O: Sink>(out: &mut O) -> Result<(), Stopped>
    ensures { Puts O.written O.faults out.old no_maker_line out.new result }
{
    put_pieces(out, &[Text("refused method NoMaker\n")])
}

fn body_kind_text(kind: BodyKind) -> &'static str
    ensures { result.now ≡ body_kind_text kind }
{
    match kind {
        BodyKind::BadHeader => "BadHeader",
        BodyKind::Cut => "Cut",
        BodyKind::BadTarget => "BadTarget",
        BodyKind::BadOpcode => "BadOpcode",
        BodyKind::BadClause => "BadClause",
    }
}

#[tactic(auto, unfolding(crate::specs::Lines::body_line))]
fn put_body<O: Sink>(out: &mut O, kind: BodyKind, at: u32, method: u32) -> Result<(), Stopped>
    ensures { Puts O.written O.faults out.old (body_line kind at method) out.new result }
{
    put_pieces(
        out,
        &[
            Text("refused body "),
            Text(body_kind_text(kind)),
            Text(" at "),
            Number(at),
            Text(" method "),
            Number(method),
            Text("\n"),
        ],
    )
}

#[tactic(auto, unfolding(crate::specs::Lines::raw_locals_line))]
fn put_raw_locals<O: Sink>(out: &mut O) -> Result<(), Stopped>
    ensures { Puts O.written O.faults out.old raw_locals_line out.new result }
{
    put_pieces(out, &[Text("refused method RawLocals\n")])
}

#[tactic(auto, unfolding(crate::specs::Lines::domain_line))]
fn put_domain_fault<O: Sink>(out: &mut O, at: u32) -> Result<(), Stopped>
    ensures { Puts O.written O.faults out.old (domain_line at) out.new result }
{
    put_pieces(out, &[Text("refused domain at "), Number(at), Text("\n")])
}

#[tactic(auto, unfolding(crate::specs::Lines::unsupported_line))]
fn put_unsupported<O: Sink>(out: &mut O) -> Result<(), Stopped>
    ensures { Puts O.written O.faults out.old unsupported_line out.new result }
{
    put_pieces(out, &[Text("refused unsupported\n")])
}

/// Writes the line of a refusal.
pub fn put_refusal<O: Sink>(out: &mut O, why: &Refusal) -> Result<(), Stopped>
    ensures { Puts O.written O.faults out.old (refusal_line why.now) out.new result }
{
    match why {
        Refusal::Pe(fault) => put_pe(out, fault.kind, fault.at),
        Refusal::Tables(fault) => put_tables(out, fault.kind, fault.at),
        Refusal::Meta(kind, token) => put_meta(out, *kind, *token),
        Refusal::NoMethod => put_no_method(out),
        Refusal::Ambiguous => put_ambiguous(out),
        Refusal::NoBody => put_no_body(out),
        Refusal::BadParameter(number) => put_bad_parameter(out, *number),
        Refusal::NoMaker => put_no_maker(out),
        Refusal::Body(kind, at, method) => put_body(out, *kind, *at, *method),
        Refusal::RawLocals => put_raw_locals(out),
        Refusal::Verify {
            method,
            offset,
            stack,
            kind,
        } => put_verify(out, *kind, *method, *offset, stack.as_slice()),
        Refusal::Domain(at) => put_domain_fault(out, *at),
        Refusal::Unsupported => put_unsupported(out),
    }
}
