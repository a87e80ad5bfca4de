//! The answer of the command `verify`: what is found of the report that is read. How a report is read, and how Katz's product is
//! computed, is not looked at here.

ghost use Rattle.std.specs.Prelude.{ℕ, List, IfOk, ◌≡◌};
ghost use Rattle.tv_spec_text.specs.Lines.{line_text};
ghost use Rattle.tv_cert.specs.Verified.{IsCheckable};
ghost use Rattle.tv_spec_reports.specs.Verdicts.{verdict_text};
ghost use Rattle.tv_text.specs.Refusals.{majorant_line, differs_line};
ghost use Rattle.tv_words.specs.Commands.{Asks};
ghost use Rattle.tv_top.specs.Answers.{Reads};
ghost use Rattle.tv_top.specs.Verification.{report_fault_line};
ghost use Rattle.tv_answers.specs.Carried.{Says, SaysText};
ghost use Rattle.tv_top.specs.Replies.{HasVerdict, IsChecked, Replies};

use std::alloc::{AllocError, Global};
use tv_answers::answer::{Answer, Failure, Outcome, in_text};
use tv_answers::gv::differs;
use tv_answers::status::Status;
use tv_answers::wide::beyond_majorant;
use tv_cert::{CertFault, Verdict, verify};
use tv_integers::Report;
use tv_lattice::fault::ReportFault;
use tv_outside::{ReadEnd, Source, read_all};
use tv_report_reader::limits::MOST_REPORT_BYTES;
use tv_report_reader::{ReportError, read_report};
use tv_words::Command;

const YES_TEXT: &[u8] = b"report verify\nverdict yes\nend\n";

/// The verdict on the report in the source, or why there is none.
pub(crate) fn over_report<S: Source>(alloc: Global, source: &mut S) -> Result<Outcome, Failure>
    ensures deserved { (ws : List (List ℕ)) → Asks ws Command.Verify →
        Replies ws (record { before = S.seen source.old; after = S.seen source.new }) result }
    ensures reads { (ws : List (List ℕ)) → Asks ws Command.Verify →
        Reads ws (record { before = S.seen source.old; after = S.seen source.new }) }
{
    match read_all(alloc, source, MOST_REPORT_BYTES) {
        Ok(bytes) => in_text(check_bytes(alloc, &bytes)),
        Err(ReadEnd::TooLong) => in_text(reject_report(alloc, ReportFault::TooLong)),
        Err(ReadEnd::Fault) => Err(Failure::Read),
        Err(ReadEnd::Memory) => Err(Failure::Memory),
    }
}

fn check_bytes(alloc: Global, bytes: &[u8]) -> Result<Answer, Failure>
    ensures { IsChecked bytes.now result }
{
    match read_report(alloc, bytes) {
        Ok(report) => verdict_on(alloc, &report),
        Err(ReportError::Fault(fault)) => reject_report(alloc, fault),
        Err(ReportError::Memory) => Err(Failure::Memory),
    }
}

fn verdict_on(alloc: Global, report: &Report) -> Result<Answer, Failure>
    requires checkable { IsCheckable report.now.series report.now.integers }
    ensures { HasVerdict report.now result }
{
    match verify(alloc, report) {
        Ok(Verdict::Yes) => say_yes(alloc),
        Ok(
            Verdict::Differs {
                class,
                exponent,
                series,
                product,
            },
        ) => differs(alloc, class, exponent, series.get(), product.get()),
        Err(CertFault::Wide { class, exponent }) => beyond_majorant(alloc, class, exponent),
        Err(CertFault::Memory) => Err(Failure::Memory),
    }
}

#[tactic(auto, unfolding(tv_spec_text::specs::Lines::line_text))]
fn say_yes(alloc: Global) -> Result<Answer, Failure>
    ensures { SaysText result Status.Done verdict_text }
{
    match YES_TEXT.to_vec(alloc) {
        Ok(text) => Ok(Answer {
            status: Status::Done,
            text,
        }),
        Err(_) => Err(Failure::Memory),
    }
}

// The refusal of a report.
fn reject_report(alloc: Global, fault: ReportFault) -> Result<Answer, Failure>
    ensures { Says result Status.File (report_fault_line fault) }
{
    match print_fault(alloc, fault) {
        Ok(text) => Ok(Answer {
            status: Status::File,
            text,
        }),
        Err(_) => Err(Failure::Memory),
    }
}

#[tactic(auto, unfolding(tv_spec_text::specs::Lines::line_text))]
fn print_fault(alloc: Global, fault: ReportFault) -> Result<Vec<u8>, AllocError>
    ensures { IfOk result (λ v. v.items ≡ line_text (report_fault_line fault)) }
{
    let mut text = String::new(alloc);
    match fault {
        ReportFault::TooLong => writeln!(text, "refused report 1")?,
        ReportFault::Line(line) => writeln!(text, "refused report 2 {line}")?,
    }
    Ok(text.into_bytes())
}
