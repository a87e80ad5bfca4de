//! A report as text. How numbers and words are spelled is the concern of the modules below.

ghost use Rattle.std.specs.Prelude.{◌≡◌, ◌≤◌, ◌+◌, suc, length, map, MatchResult};
ghost use Rattle.tv_spec_text.specs.Lines.{words};
ghost use Rattle.tv_spec_reports.specs.Grammar.{SpellsGv};
ghost use Rattle.tv_text.specs.Rows.{texts};
ghost use Rattle.tv_report_reader.specs.Stages.{data_of};
ghost use Rattle.tv_report_reader.specs.Drafts.{seen_of};
ghost use Rattle.tv_report_reader.specs.Faults.{IsReport, IsReportFault, IsLineFault};

use crate::draft::Draft;
use crate::fault::ReportError;
use crate::limits::MOST_REPORT_BYTES;
use crate::told::report_of;
use std::alloc::Global;
use tv_integers::Report;
use tv_lattice::fault::ReportFault;
use tv_text::lines::{lines_of, words_of};

/// The report that the bytes spell: its heights, degree and last exponent, the series of each of its classes, known through that
/// exponent and 0 where no term says otherwise, and its integers. The bytes are refused where they are more than
/// `MOST_REPORT_BYTES`, else at the first line with which no report goes on (after the last line, where they end too early).
/// Want of memory may come at any time after the bytes are counted. It comes where a class spans more than `MOST_EXPONENTS` (2^20)
/// exponents, all classes together span more than `MOST_COEFFICIENTS` (2^24), or a class has more than `MOST_GENERA` (4,096)
/// integers.
pub fn read_report(alloc: Global, bytes: &[u8]) -> Result<Report, ReportError>
    ensures { MatchResult result (IsReport bytes.now) (IsReportFault bytes.now) }
{
    if bytes.len() > MOST_REPORT_BYTES {
        return Err(ReportError::Fault(ReportFault::TooLong));
    }
    let lines = lines_of(alloc, bytes)?;
    let draft = read_lines(alloc, &lines)?;
    let read = draft.into_data()?;
    report_of(alloc, read)
}

fn read_lines(alloc: Global, lines: &[&[u8]]) -> Result<Draft, ReportError>
    requires { length lines.now ≤ MOST_REPORT_BYTES + 1 }
    ensures { MatchResult result (λ d. SpellsGv (map words (texts lines.now)) (data_of (seen_of d))) (IsLineFault (map words (texts lines.now))) }
{
    let mut draft = Draft::new(alloc);
    for (k, line) in lines.iter().enumerate() {
        let words = words_of(alloc, line)?;
        if !draft.step(alloc, &words)? {
            return Err(bad_line(k));
        }
    }
    if !draft.is_done() {
        return Err(bad_line(lines.len()));
    }
    Ok(draft)
}

fn bad_line(place: usize) -> ReportError
    requires { place ≤ MOST_REPORT_BYTES + 1 }
    ensures { result ≡ ReportError.Fault (ReportFault.Line (suc place)) }
{
    ReportError::Fault(ReportFault::Line(place as u32 + 1))
}
