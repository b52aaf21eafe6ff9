// The lines of a report.
ghost use Rattle.std.specs.Prelude.{◌≡◌, ◌++◌, codes, count_by, decimal, length};
ghost use Rattle.std.specs.List.{flat_map};
ghost use Rattle.px_io.specs.Puts.{Puts};
ghost use Rattle.px_tests.specs.Text.{bounds_text, comma_event_text, counts_line, counts_text, event_text, input_text, is_bounded, is_failing, is_outside, kind_text, limits_text, method_text, path_part, path_text, raw_text, test_head};

use crate::Input;
use px_io::Piece::{Count, Name, Number, Text};
use px_io::{Sink, Stopped, put_pieces};
use px_program::{Bounds, End, Event, Limits, Record, SiteKind};

#[tactic(auto, unfolding(crate::specs::Text::raw_text))]
fn put_raw<O: Sink>(out: &mut O, params: &str) -> Result<(), Stopped>
    ensures { Puts O.written O.faults out.old (raw_text params.now) out.new result }
{
    put_pieces(
        out,
        &[
            Text("pex report 1\ninput raw "),
            Text(params),
            Text("\ndomain "),
        ],
    )
}

#[tactic(auto, unfolding(crate::specs::Text::method_text))]
fn put_method<O: Sink>(out: &mut O, name: &str) -> Result<(), Stopped>
    ensures { Puts O.written O.faults out.old (method_text name.now) out.new result }
{
    put_pieces(
        out,
        &[
            Text("pex report 1\ninput method "),
            Name(name.as_bytes()),
            Text("\ndomain "),
        ],
    )
}

/// Writes the line of what was explored.
pub fn put_input<O: Sink>(out: &mut O, input: &Input) -> Result<(), Stopped>
    ensures { Puts O.written O.faults out.old (input_text input.now) out.new result }
{
    match input {
        Input::Raw(params) => put_raw(out, params.text()),
        Input::Method(name) => put_method(out, name.text()),
    }
}

/// Writes the line of the bounds of a run.
#[tactic(auto, unfolding(crate::specs::Text::bounds_text))]
pub fn put_bounds<O: Sink>(out: &mut O, bounds: Bounds) -> Result<(), Stopped>
    ensures { Puts O.written O.faults out.old (bounds_text bounds) out.new result }
{
    put_pieces(
        out,
        &[
            Text("\nbounds steps "),
            Number(bounds.steps),
            Text(" depth "),
            Number(bounds.depth),
            Text(" length "),
            Number(bounds.length),
            Text("\n"),
        ],
    )
}

/// Writes the line of the limits of the exploration.
#[tactic(auto, unfolding(crate::specs::Text::limits_text))]
pub fn put_limits<O: Sink>(out: &mut O, limits: Limits) -> Result<(), Stopped>
    ensures { Puts O.written O.faults out.old (limits_text limits) out.new result }
{
    put_pieces(
        out,
        &[
            Text("limits runs "),
            Number(limits.runs),
            Text(" spent "),
            Number(limits.spent),
            Text(" conflicts "),
            Number(limits.conflicts),
            Text("\n"),
        ],
    )
}

fn kind_text(kind: SiteKind) -> &'static str
    ensures { result.now ≡ kind_text kind }
{
    match kind {
        SiteKind::Shape => "P",
        SiteKind::Branch => "B",
        SiteKind::Switch => "S",
        SiteKind::Bounds => "N",
        SiteKind::Zero => "Z",
        SiteKind::Overflow => "V",
        SiteKind::Length => "L",
        SiteKind::Index => "I",
        SiteKind::Assume => "U",
        SiteKind::Assert => "T",
    }
}

fn put_event<O: Sink>(out: &mut O, event: &Event) -> Result<(), Stopped>
    ensures { Puts O.written O.faults out.old (event_text event.now) out.new result }
{
    put_pieces(
        out,
        &[
            Number(event.site.method),
            Text(":"),
            Number(event.site.offset),
            Text(":"),
            Text(kind_text(event.site.kind)),
            Text(":"),
            Number(event.side),
        ],
    )
}

fn put_comma_event<O: Sink>(out: &mut O, event: &Event) -> Result<(), Stopped>
    ensures { Puts O.written O.faults out.old (comma_event_text event.now) out.new result }
{
    put_pieces(
        out,
        &[
            Text(","),
            Number(event.site.method),
            Text(":"),
            Number(event.site.offset),
            Text(":"),
            Text(kind_text(event.site.kind)),
            Text(":"),
            Number(event.side),
        ],
    )
}

fn put_comma_events<O: Sink>(out: &mut O, events: &[Event]) -> Result<(), Stopped>
    ensures { Puts O.written O.faults out.old (flat_map comma_event_text events.now) out.new result }
{
    for event in events {
        put_comma_event(out, event)?;
    }
    Ok(())
}

#[tactic(auto, using(px_io::proofs::Putting::writing))]
fn put_path<O: Sink>(out: &mut O, events: &[Event]) -> Result<(), Stopped>
    ensures { Puts O.written O.faults out.old (path_text events.now) out.new result }
{
    match events {
        [] => put_pieces(out, &[Text("-")]),
        [first, rest @ ..] => {
            put_event(out, first)?;
            put_comma_events(out, rest)
        }
    }
}

fn put_path_mark<O: Sink>(out: &mut O) -> Result<(), Stopped>
    ensures { Puts O.written O.faults out.old (codes " path ") out.new result }
{
    put_pieces(out, &[Text(" path ")])
}

/// Writes the path of a test, with the word before it.
#[tactic(auto, using(px_io::proofs::Putting::writing), unfolding(crate::specs::Text::path_part))]
pub fn put_path_part<O: Sink>(out: &mut O, events: &[Event]) -> Result<(), Stopped>
    ensures { Puts O.written O.faults out.old (path_part events.now) out.new result }
{
    put_path_mark(out)?;
    put_path(out, events)
}

/// Writes the word with which the line of a test begins, and its number.
#[tactic(auto, unfolding(crate::specs::Text::test_head))]
pub fn put_test_head<O: Sink>(out: &mut O, number: u64) -> Result<(), Stopped>
    ensures { Puts O.written O.faults out.old (test_head number) out.new result }
{
    put_pieces(out, &[Text("test "), Count(number), Text(" args ")])
}

fn is_bounded(end: End) -> bool
    ensures { result ≡ is_bounded end }
{
    match end {
        End::StepBound | End::DepthBound | End::HeapBound => true,
        End::Returned(_) | End::Threw(_) | End::AssertFailed | End::Assumed => false,
        End::Outside(_, _) => false,
    }
}

fn is_outside(end: End) -> bool
    ensures { result ≡ is_outside end }
{
    match end {
        End::Outside(_, _) => true,
        End::StepBound | End::DepthBound | End::HeapBound => false,
        End::Returned(_) | End::Threw(_) | End::AssertFailed | End::Assumed => false,
    }
}

fn is_failing(end: End) -> bool
    ensures { result ≡ is_failing end }
{
    match end {
        End::Threw(_) | End::AssertFailed => true,
        End::StepBound | End::DepthBound | End::HeapBound => false,
        End::Returned(_) | End::Assumed | End::Outside(_, _) => false,
    }
}

fn bounded(records: &[Record]) -> u64
    ensures { result ≡ count_by (λ r. is_bounded r.end) records.now }
{
    records.iter().filter(|r| is_bounded(r.end)).count() as u64
}

fn outside(records: &[Record]) -> u64
    ensures { result ≡ count_by (λ r. is_outside r.end) records.now }
{
    records.iter().filter(|r| is_outside(r.end)).count() as u64
}

fn failing(records: &[Record]) -> u64
    ensures { result ≡ count_by (λ r. is_failing r.end) records.now }
{
    records.iter().filter(|r| is_failing(r.end)).count() as u64
}

#[tactic(auto, unfolding(crate::specs::Text::counts_line))]
fn put_counts_line<O: Sink>(
    out: &mut O,
    tests: u64,
    refuted: u64,
    bounded: u64,
    outside: u64,
    failing: u64,
) -> Result<(), Stopped>
    ensures { Puts O.written O.faults out.old (counts_line tests refuted bounded outside failing) out.new result }
{
    put_pieces(
        out,
        &[
            Text("exhausted\ntests "),
            Count(tests),
            Text(" refuted "),
            Count(refuted),
            Text(" spent 0 untried 0 bounded "),
            Count(bounded),
            Text(" outside "),
            Count(outside),
            Text(" failing "),
            Count(failing),
            Text("\n"),
        ],
    )
}

/// Writes the last line, which counts the tests and their sides.
pub fn put_counts<O: Sink>(out: &mut O, records: &[Record], refuted: u64) -> Result<(), Stopped>
    ensures { Puts O.written O.faults out.old (counts_text records.now refuted) out.new result }
{
    let tests = records.len() as u64;
    put_counts_line(
        out,
        tests,
        refuted,
        bounded(records),
        outside(records),
        failing(records),
    )
}
