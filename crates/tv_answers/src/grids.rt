//! The answers of the commands about a grid: its file, and the summary of its full series. They read no input.

ghost use Rattle.std.specs.Prelude.{◌≡◌, MatchResult};
ghost use Rattle.tv_spec_reports.specs.Grids.{grid};
ghost use Rattle.tv_words.specs.Commands.{IsSide, IsDegree, IsOrder};
ghost use Rattle.tv_answers.specs.Carried.{IsCarriedOut, Summarizes};

use crate::answer::{Answer, Failure};
use crate::status::Status;
use crate::wide::too_crowded;
use std::alloc::Global;
use tv_acceptance::web_of;
use tv_degrees::grade::GradedWeb;
use tv_glue::{GlueFault, full};
use tv_graded::Graded;
use tv_grids::grid::generate;
use tv_grids::print::print_file;
use tv_lattice::fault::InputError;
use tv_reports::series::sections_of;
use tv_reports::summary::{print_summary, summarize};
use tv_ring::Whole;
use tv_words::Command;

/// The file of the grid of that side.
pub fn generate_answer(alloc: Global, side: u32) -> Result<Answer, Failure>
    requires { IsSide side }
    ensures { IsCarriedOut (Command.Generate side) (grid side) result }
{
    let Ok(file) = generate(alloc, side) else {
        return Err(Failure::Memory);
    };
    match print_file(alloc, &file) {
        Ok(text) => Ok(Answer {
            status: Status::Done,
            text,
        }),
        Err(_) => Err(Failure::Memory),
    }
}

/// The summary of the grid's full series in degrees through `degree`, with exponents through `upto`, or the class that has too
/// many configurations.
pub fn summary_answer(alloc: Global, side: u32, degree: u32, upto: i64) -> Result<Answer, Failure>
    requires side { IsSide side }
    requires degree { IsDegree degree }
    requires order { IsOrder upto }
    ensures { IsCarriedOut (Command.Summary side degree upto) (grid side) result }
{
    match grid_web(alloc, side) {
        Ok(web) => summary_of(alloc, &web, side, degree, upto),
        Err(failure) => Err(failure),
    }
}

// A grid fails no check.
fn grid_web(alloc: Global, side: u32) -> Result<GradedWeb, Failure>
    requires { IsSide side }
    ensures { MatchResult result (λ w. w ≡ grid side) (λ e. e ≡ Failure.Memory) }
{
    let Ok(file) = generate(alloc, side) else {
        return Err(Failure::Memory);
    };
    match web_of(alloc, file) {
        Ok(web) => Ok(web),
        Err(InputError::Fault(_)) => unreachable!(),
        Err(InputError::Memory) => Err(Failure::Memory),
    }
}

fn summary_of(
    alloc: Global,
    web: &GradedWeb,
    side: u32,
    degree: u32,
    upto: i64,
) -> Result<Answer, Failure>
    requires web { web.now ≡ grid side }
    requires degree { IsDegree degree }
    requires order { IsOrder upto }
    ensures { IsCarriedOut (Command.Summary side degree upto) (grid side) result }
{
    web.known();
    match full::<Whole>(alloc, web, degree, upto) {
        Ok(series) => summarize_series(alloc, side, degree, upto, &series),
        Err(GlueFault::Wide(class)) => too_crowded(alloc, class),
        Err(GlueFault::Memory) => Err(Failure::Memory),
    }
}

fn summarize_series(
    alloc: Global,
    side: u32,
    degree: u32,
    upto: i64,
    series: &Graded<Whole>,
) -> Result<Answer, Failure>
    ensures { Summarizes side degree upto series.now result }
{
    series.known();
    let Ok(sections) = sections_of(alloc, series) else {
        return Err(Failure::Memory);
    };
    let summary = summarize(side, degree, upto, &sections);
    match print_summary(alloc, &summary) {
        Ok(text) => Ok(Answer {
            status: Status::Done,
            text,
        }),
        Err(_) => Err(Failure::Memory),
    }
}
