// The lines of tests, and the whole report.
ghost use Rattle.std.specs.Prelude.{◌≡◌, ◌++◌, codes, length};
ghost use Rattle.std.specs.List.{AllByRecursion};
ghost use Rattle.px_domain.specs.Domain.{InDomain};
ghost use Rattle.px_domain.specs.Text.{args_text, domain_text};
ghost use Rattle.px_io.specs.Puts.{Puts};
ghost use Rattle.px_tests.specs.Ends.{end_text};
ghost use Rattle.px_tests.specs.Text.{bounds_text, counts_text, end_part, input_text, limits_text, path_part, test_text, tests_text, text_of};

use crate::domains::{put_args, put_domain};
use crate::ends::put_end;
use crate::lines::{put_bounds, put_counts, put_input, put_limits, put_path_part, put_test_head};
use crate::{Findings, Input};
use px_domain::Domain;
use px_io::Piece::Text;
use px_io::{Sink, Stopped, put_pieces};
use px_program::{End, Program, Record};

fn put_line_end<O: Sink>(out: &mut O, program: &Program, end: End) -> Result<(), Stopped>
    ensures { Puts O.written O.faults out.old (end_text program.now end ++ codes "\n") out.new result }
{
    put_end(out, program, end)?;
    put_pieces(out, &[Text("\n")])
}

fn put_end_mark<O: Sink>(out: &mut O) -> Result<(), Stopped>
    ensures { Puts O.written O.faults out.old (codes " end ") out.new result }
{
    put_pieces(out, &[Text(" end ")])
}

#[tactic(auto, using(px_io::proofs::Putting::writing), unfolding(crate::specs::Text::end_part))]
fn put_end_part<O: Sink>(out: &mut O, program: &Program, end: End) -> Result<(), Stopped>
    ensures { Puts O.written O.faults out.old (end_part program.now end) out.new result }
{
    put_end_mark(out)?;
    put_line_end(out, program, end)
}

#[tactic(auto, using(px_io::proofs::Putting::writing))]
fn put_path_and_end<O: Sink>(out: &mut O, program: &Program, run: &Record) -> Result<(), Stopped>
    ensures { Puts O.written O.faults out.old (path_part run.now.events ++ end_part program.now run.now.end) out.new result }
{
    put_path_part(out, run.events.as_slice())?;
    put_end_part(out, program, run.end)
}

#[tactic(auto, using(px_io::proofs::Putting::writing))]
fn put_run<O: Sink>(
    out: &mut O,
    program: &Program,
    domain: &Domain,
    run: &Record,
) -> Result<(), Stopped>
    requires { InDomain domain.now run.now.words }
    ensures { Puts O.written O.faults out.old (args_text domain.now run.now.words ++ (path_part run.now.events ++ end_part program.now run.now.end)) out.new result }
{
    put_args(out, domain, run.words.as_slice())?;
    put_path_and_end(out, program, run)
}

#[tactic(auto, using(px_io::proofs::Putting::writing))]
fn put_test<O: Sink>(
    out: &mut O,
    program: &Program,
    domain: &Domain,
    number: u64,
    run: &Record,
) -> Result<(), Stopped>
    requires { InDomain domain.now run.now.words }
    ensures { Puts O.written O.faults out.old (test_text program.now domain.now number run.now) out.new result }
{
    put_test_head(out, number)?;
    put_run(out, program, domain, run)
}

fn put_tests<O: Sink>(
    out: &mut O,
    program: &Program,
    domain: &Domain,
    records: &[Record],
) -> Result<(), Stopped>
    requires { AllByRecursion (λ r. InDomain domain.now r.words) records.now }
    ensures { Puts O.written O.faults out.old (tests_text program.now domain.now records.now (length records.now)) out.new result }
{
    for (number, record) in records.iter().enumerate() {
        put_test(out, program, domain, number as u64, record)?;
    }
    Ok(())
}

// Writes the report of a domain and of records.
fn put_report<O: Sink>(
    out: &mut O,
    program: &Program,
    input: &Input,
    findings: &Findings,
    domain: &Domain,
    records: &[Record],
) -> Result<(), Stopped>
    requires { AllByRecursion (λ r. InDomain domain.now r.words) records.now }
    ensures { Puts O.written O.faults out.old (input_text input.now ++ (domain_text domain.now ++ (bounds_text findings.now.bounds ++ (limits_text findings.now.limits ++ (tests_text program.now domain.now records.now (length records.now) ++ counts_text records.now findings.now.refuted))))) out.new result }
{
    put_input(out, input)?;
    put_domain(out, domain)?;
    put_bounds(out, findings.bounds)?;
    put_limits(out, findings.limits)?;
    put_tests(out, program, domain, records)?;
    put_counts(out, records, findings.refuted)
}

/// Writes the report of what was found. It takes no memory. `Stopped` comes only where a write failed.
#[tactic(auto, unfolding(crate::specs::Text::text_of))]
pub fn write_report<O: Sink>(
    program: &Program,
    input: &Input,
    findings: &Findings,
    out: &mut O,
) -> Result<(), Stopped>
    requires { AllByRecursion (λ r. InDomain findings.now.domain r.words) findings.now.records }
    ensures { Puts O.written O.faults out.old (text_of program.now input.now findings.now) out.new result }
{
    let records = findings.records.as_slice();
    put_report(out, program, input, findings, &findings.domain, records)
}
