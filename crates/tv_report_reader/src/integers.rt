//! The integers that a report tells, class by class.

ghost use Rattle.std.specs.Prelude.{◌≡◌, ◌∷◌, ◌++◌, MatchResult};
ghost use Rattle.tv_spec_reports.specs.Grammar.{GvFits};
ghost use Rattle.tv_report_reader.specs.Told.{integer_of, integers_of, section_integers, CanPut, MayTake, StartsIntegers};

use crate::fault::ReportError;
use crate::limits::MOST_GENERA;
use crate::part::{Data, Integer, Part};
use crate::series::whole;
use std::alloc::Global;
use tv_integers::Integers;
use tv_ring::Whole;

/// The integers of the sections. It errs only for want of memory, at once where a class has more than `MOST_GENERA`.
pub(crate) fn integers_of(alloc: Global, read: &Data) -> Result<Integers, ReportError>
    requires { GvFits read.now }
    ensures { MatchResult result (λ k. k ≡ record { heights = read.now.heights; integers = integers_of read.now.sections })
        (λ e. e ≡ ReportError.Memory) }
{
    let heights = read.heights.copy(alloc)?;
    let mut integers = Integers::new(alloc, heights);
    put_sections(&mut integers, &read.sections)?;
    Ok(integers)
}

fn put_sections(integers: &mut Integers, sections: &[Part]) -> Result<(), ReportError>
    requires { StartsIntegers integers.old sections.now }
    ensures { MatchResult result (λ _. integers.new ≡ record integers.old { integers = integers_of sections.now })
        (λ e. e ≡ ReportError.Memory) }
{
    for part in sections {
        put_part(integers, part)?;
    }
    Ok(())
}

// Puts the integers of a later class in, the greatest genus first.
fn put_part(integers: &mut Integers, part: &Part) -> Result<(), ReportError>
    requires { MayTake integers.old part.now }
    ensures { MatchResult result (λ _. integers.new ≡ record integers.old { integers = section_integers part.now ++ integers.old.integers })
        (λ e. e ≡ ReportError.Memory) }
{
    let count = part.integers.len();
    if count > MOST_GENERA {
        return Err(ReportError::Memory);
    }
    for k in 0..count {
        put(integers, part, &part.integers[count - 1 - k])?;
    }
    Ok(())
}

fn put(integers: &mut Integers, part: &Part, integer: &Integer) -> Result<(), ReportError>
    requires { CanPut integers.old part.now integer.now }
    ensures { MatchResult result (λ _. integers.new ≡ record integers.old { integers = integer_of part.now.section.entries integer.now ∷ integers.old.integers })
        (λ e. e ≡ ReportError.Memory) }
{
    integers.known();
    let class = part.class.copy()?;
    let value = value_of(integer)?;
    integers.put(class, integer.genus, value)?;
    Ok(())
}

fn value_of(integer: &Integer) -> Result<Whole, ReportError>
    ensures { MatchResult result (λ n. n ≡ integer.now.value) (λ e. e ≡ ReportError.Memory) }
{
    whole(integer.value)
}
