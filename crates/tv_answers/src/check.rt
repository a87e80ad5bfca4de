//! The answer of the command `check`: the edges of the web. It computes nothing of them.

ghost use Rattle.tv_answers.specs.Carried.{IsCarriedOut};

use crate::answer::{Answer, Failure};
use crate::status::Status;
use std::alloc::Global;
use tv_degrees::grade::GradedWeb;
use tv_reports::check::print_check;
use tv_words::Command;

/// The report of the check.
pub fn check_answer(alloc: Global, web: &GradedWeb) -> Result<Answer, Failure>
    ensures { IsCarriedOut Command.Check web.now result }
{
    match print_check(alloc, web) {
        Ok(text) => Ok(Answer {
            status: Status::Done,
            text,
        }),
        Err(_) => Err(Failure::Memory),
    }
}
