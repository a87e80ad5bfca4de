//! A status with its text, and refusals as such answers. Which answer comes is decided elsewhere.

ghost use Rattle.std.specs.Prelude.{◌≡◌};
ghost use Rattle.tv_text.specs.Refusals.{fault_line, refusal_line};
ghost use Rattle.tv_answers.specs.Carried.{Says, in_text};

use crate::status::Status;
use std::alloc::Global;
use tv_degrees::grade::GradedWeb;
use tv_lattice::class::Class;
use tv_lattice::fault::FileFault;
use tv_text::refusal::{Refusal, print_refusal};

/// A status and its whole text.
#[derive(Drop)]
pub struct Answer {
    /// How the run ends, if the text is told.
    pub status: Status,
    /// The bytes to be written.
    pub text: Vec<u8>,
}

/// The box configurations of a class of the web and of an Euler characteristic, which are made one by one.
#[derive(Drop)]
pub struct Listing {
    /// The web.
    pub web: GradedWeb,
    /// The class, of a degree of at most 24.
    pub class: Class,
    /// The Euler characteristic, from -64 to 64.
    pub chi: i64,
}

/// What a run comes to before it is told.
#[derive(Drop)]
pub enum Outcome {
    /// A status and its whole text.
    Text(Answer),
    /// A report that is made and told piece by piece.
    Pieces(Listing),
}

/// Why there is no text of its own.
#[derive(Drop)]
pub enum Failure {
    /// Memory was wanting.
    Memory,
    /// The input could not be read.
    Read,
}

/// An answer as an outcome.
pub fn in_text(answer: Result<Answer, Failure>) -> Result<Outcome, Failure>
    ensures { result ≡ in_text answer }
{
    match answer {
        Ok(answer) => Ok(Outcome::Text(answer)),
        Err(failure) => Err(failure),
    }
}

/// The refusal of a file.
pub fn reject(alloc: Global, fault: FileFault) -> Result<Answer, Failure>
    ensures { Says result Status.File (fault_line fault) }
{
    refuse(alloc, Status::File, &Refusal::File(fault))
}

/// Any other refusal, with the status that it has.
pub fn refuse(alloc: Global, status: Status, refusal: &Refusal) -> Result<Answer, Failure>
    ensures { Says result status (refusal_line refusal.now) }
{
    match print_refusal(alloc, refusal) {
        Ok(text) => Ok(Answer { status, text }),
        Err(_) => Err(Failure::Memory),
    }
}
