//! The answer of the command `series`: the report of the series in whole numbers, and by residues where those are too wide on
//! the way. How series are computed and printed is not looked at here.

ghost use Rattle.tv_words.specs.Commands.{IsDegree, IsOrder};
ghost use Rattle.tv_answers.specs.Carried.{IsCarriedOut, Prints};

use crate::answer::{Answer, Failure};
use crate::residues::by_residues;
use crate::status::Status;
use std::alloc::Global;
use tv_degrees::grade::GradedWeb;
use tv_glue::{GlueFault, full};
use tv_graded::Graded;
use tv_reduced::{ReducedFault, reduced};
use tv_reports::series::print_series;
use tv_ring::Whole;
use tv_text::series::Kind;
use tv_words::Command;

/// The report of the series of that kind, in degrees through `degree` and with exponents through `upto`: in whole numbers, or by
/// residues where a number on the way to those is too wide.
pub fn series_answer(
    alloc: Global,
    web: &GradedWeb,
    kind: Kind,
    degree: u32,
    upto: i64,
) -> Result<Answer, Failure>
    requires degree { IsDegree degree }
    requires order { IsOrder upto }
    ensures { IsCarriedOut (Command.Series kind degree upto) web.now result }
{
    match kind {
        Kind::Full => full_answer(alloc, web, degree, upto),
        Kind::Reduced => reduced_answer(alloc, web, degree, upto),
    }
}

fn full_answer(alloc: Global, web: &GradedWeb, degree: u32, upto: i64) -> Result<Answer, Failure>
    requires degree { IsDegree degree }
    requires order { IsOrder upto }
    ensures { IsCarriedOut (Command.Series Kind.Full degree upto) web.now result }
{
    web.known();
    match full::<Whole>(alloc, web, degree, upto) {
        Ok(series) => print(alloc, Kind::Full, &series),
        Err(GlueFault::Wide(_)) => by_residues(alloc, web, Kind::Full, degree, upto),
        Err(GlueFault::Memory) => Err(Failure::Memory),
    }
}

fn reduced_answer(alloc: Global, web: &GradedWeb, degree: u32, upto: i64) -> Result<Answer, Failure>
    requires degree { IsDegree degree }
    requires order { IsOrder upto }
    ensures { IsCarriedOut (Command.Series Kind.Reduced degree upto) web.now result }
{
    web.known();
    match reduced::<Whole>(alloc, web, degree, upto) {
        Ok(series) => print(alloc, Kind::Reduced, &series),
        Err(ReducedFault::Crowd(_)) => by_residues(alloc, web, Kind::Reduced, degree, upto),
        Err(ReducedFault::Spread { .. }) => by_residues(alloc, web, Kind::Reduced, degree, upto),
        Err(ReducedFault::Memory) => Err(Failure::Memory),
    }
}

fn print(alloc: Global, kind: Kind, series: &Graded<Whole>) -> Result<Answer, Failure>
    ensures { Prints kind series.now result }
{
    series.known();
    match print_series(alloc, kind, series) {
        Ok(text) => Ok(Answer {
            status: Status::Done,
            text,
        }),
        Err(_) => Err(Failure::Memory),
    }
}
