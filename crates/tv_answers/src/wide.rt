//! The refusals of numbers that are too wide. Which number comes to be refused is found out elsewhere.

ghost use Rattle.tv_text.specs.Refusals.{crowd_line, spread_line, majorant_line};
ghost use Rattle.tv_answers.specs.Carried.{Says};

use crate::answer::{Answer, Failure, refuse};
use crate::status::Status;
use std::alloc::Global;
use tv_lattice::class::Class;
use tv_text::refusal::{Refusal, WideNumber};

/// The refusal of a class that has too many configurations.
pub fn too_crowded(alloc: Global, class: Class) -> Result<Answer, Failure>
    ensures { Says result Status.Wide (crowd_line class) }
{
    refuse(
        alloc,
        Status::Wide,
        &Refusal::Wide(WideNumber::Crowd(class)),
    )
}

/// The refusal of a class and an exponent at which the numbers that meet in the division are too large.
pub fn spread_out(alloc: Global, class: Class, exponent: i64) -> Result<Answer, Failure>
    ensures { Says result Status.Wide (spread_line exponent class) }
{
    refuse(
        alloc,
        Status::Wide,
        &Refusal::Wide(WideNumber::Spread { class, exponent }),
    )
}

/// The refusal of a majorant that is too wide.
pub fn beyond_majorant(alloc: Global, class: Class, exponent: i64) -> Result<Answer, Failure>
    ensures { Says result Status.Wide (majorant_line exponent class) }
{
    refuse(
        alloc,
        Status::Wide,
        &Refusal::Wide(WideNumber::Majorant { class, exponent }),
    )
}
