//! The answer of the command `series` by residues: each coefficient by its remainders modulo two primes, which are never too
//! wide. When it comes is not looked at here.

ghost use Rattle.tv_words.specs.Commands.{IsDegree, IsOrder};
ghost use Rattle.tv_answers.specs.Residues.{AreAlike, PrintsByResidues, TellsByResidues};

use crate::answer::{Answer, Failure};
use crate::status::Status;
use std::alloc::Global;
use tv_degrees::grade::GradedWeb;
use tv_graded::Graded;
use tv_reports::residues::print_residues;
use tv_residues::{full, reduced};
use tv_ring::Residue;
use tv_text::series::Kind;

// The remainders modulo each of the two primes.
type First = Residue<1000000007>;

type Second = Residue<998244353>;

/// The report by residues of the series of that kind, in degrees through `degree` and with exponents through `upto`.
pub fn by_residues(
    alloc: Global,
    web: &GradedWeb,
    kind: Kind,
    degree: u32,
    upto: i64,
) -> Result<Answer, Failure>
    requires degree { IsDegree degree }
    requires order { IsOrder upto }
    ensures { TellsByResidues kind web.now degree upto result }
{
    match kind {
        Kind::Full => full_by_residues(alloc, web, degree, upto),
        Kind::Reduced => reduced_by_residues(alloc, web, degree, upto),
    }
}

fn full_by_residues(
    alloc: Global,
    web: &GradedWeb,
    degree: u32,
    upto: i64,
) -> Result<Answer, Failure>
    requires degree { IsDegree degree }
    requires order { IsOrder upto }
    ensures { TellsByResidues Kind.Full web.now degree upto result }
{
    let Ok(first) = full::<First>(alloc, web, degree, upto) else {
        return Err(Failure::Memory);
    };
    let Ok(second) = full::<Second>(alloc, web, degree, upto) else {
        return Err(Failure::Memory);
    };
    print(alloc, Kind::Full, &first, &second)
}

fn reduced_by_residues(
    alloc: Global,
    web: &GradedWeb,
    degree: u32,
    upto: i64,
) -> Result<Answer, Failure>
    requires degree { IsDegree degree }
    requires order { IsOrder upto }
    ensures { TellsByResidues Kind.Reduced web.now degree upto result }
{
    let Ok(first) = reduced::<First>(alloc, web, degree, upto) else {
        return Err(Failure::Memory);
    };
    let Ok(second) = reduced::<Second>(alloc, web, degree, upto) else {
        return Err(Failure::Memory);
    };
    print(alloc, Kind::Reduced, &first, &second)
}

fn print(
    alloc: Global,
    kind: Kind,
    first: &Graded<First>,
    second: &Graded<Second>,
) -> Result<Answer, Failure>
    requires { AreAlike first.now second.now }
    ensures { PrintsByResidues kind first.now second.now result }
{
    first.known();
    second.known();
    match print_residues(alloc, kind, first, second) {
        Ok(text) => Ok(Answer {
            status: Status::Done,
            text,
        }),
        Err(_) => Err(Failure::Memory),
    }
}
