//! The answer of the command `gv`: the report of the reduced series and of their integers, or why there is none. How series and
//! integers are computed and printed is not looked at here.

ghost use Rattle.tv_ring.specs.Whole.{wholes};
ghost use Rattle.tv_spec_boxes.specs.Assignments.{no_legs};
ghost use Rattle.tv_spec_series.specs.ReducedFamilies.{IsReducedFamily};
ghost use Rattle.tv_gv.specs.Extracted.{IsExtractable, HasIntegers};
ghost use Rattle.tv_text.specs.Refusals.{differs_line};
ghost use Rattle.tv_words.specs.Commands.{IsDegree, IsIntegersOrder};
ghost use Rattle.tv_answers.specs.Carried.{IsCarriedOut, Says, PrintsIntegers};

use crate::answer::{Answer, Failure, refuse};
use crate::status::Status;
use crate::wide::{beyond_majorant, spread_out, too_crowded};
use std::alloc::Global;
use tv_degrees::grade::GradedWeb;
use tv_graded::Graded;
use tv_gv::{GvFault, extract};
use tv_integers::{Integers, Report};
use tv_lattice::class::Class;
use tv_reduced::{ReducedFault, reduced};
use tv_reports::gv::print_gv;
use tv_ring::Whole;
use tv_text::refusal::Refusal;
use tv_words::Command;

/// The report of the reduced series in degrees through `degree` and with exponents through `upto`, and of their integers, or why
/// there is none.
pub fn gv_answer(alloc: Global, web: &GradedWeb, degree: u32, upto: i64) -> Result<Answer, Failure>
    requires degree { IsDegree degree }
    requires order { IsIntegersOrder upto }
    ensures { IsCarriedOut (Command.Gv degree upto) web.now result }
{
    web.known();
    match reduced::<Whole>(alloc, web, degree, upto) {
        Ok(series) => integers_answer(alloc, web, degree, upto, series),
        Err(ReducedFault::Crowd(class)) => too_crowded(alloc, class),
        Err(ReducedFault::Spread { class, exponent }) => spread_out(alloc, class, exponent),
        Err(ReducedFault::Memory) => Err(Failure::Memory),
    }
}

// The report of these series and of their integers, or why there is none.
fn integers_answer(
    alloc: Global,
    web: &GradedWeb,
    degree: u32,
    upto: i64,
    series: Graded<Whole>,
) -> Result<Answer, Failure>
    requires degree { IsDegree degree }
    requires order { IsIntegersOrder upto }
    requires reduced { IsReducedFamily wholes web.now (no_legs web.now) degree upto series }
    ensures { IsCarriedOut (Command.Gv degree upto) web.now result }
{
    web.known();
    match extract(alloc, &series) {
        Ok(integers) => print(alloc, series, integers),
        Err(GvFault::Wide { class, exponent }) => beyond_majorant(alloc, class, exponent),
        Err(
            GvFault::Mismatch {
                class,
                exponent,
                series,
                product,
            },
        ) => differs(alloc, class, exponent, series.get(), product.get()),
        Err(GvFault::Memory) => Err(Failure::Memory),
    }
}

fn print(alloc: Global, series: Graded<Whole>, integers: Integers) -> Result<Answer, Failure>
    requires { HasIntegers series integers }
    ensures { PrintsIntegers series integers result }
{
    series.known();
    match print_gv(alloc, &Report { series, integers }) {
        Ok(text) => Ok(Answer {
            status: Status::Done,
            text,
        }),
        Err(_) => Err(Failure::Memory),
    }
}

/// The refusal of series and a product that differ.
pub fn differs(
    alloc: Global,
    class: Class,
    exponent: i64,
    series: i128,
    product: i128,
) -> Result<Answer, Failure>
    ensures { Says result Status.Differs (differs_line exponent series product class) }
{
    refuse(
        alloc,
        Status::Differs,
        &Refusal::Differs {
            class,
            exponent,
            series,
            product,
        },
    )
}
