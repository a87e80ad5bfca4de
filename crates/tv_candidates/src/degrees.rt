//! The classes of a family, all or those of one degree. It copies classes, and leaves the series alone.

ghost use Rattle.std.specs.Prelude.{◌≡◌, IfOk};
ghost use Rattle.tv_spec_series.specs.Families.{classes};
ghost use Rattle.tv_candidates.specs.Degrees.{of_degree, listed};

use std::alloc::{AllocError, Global};
use tv_graded::Graded;
use tv_lattice::class::Class;
use tv_ring::Whole;

/// The classes of the family, in order.
pub fn classes_of(alloc: Global, family: &Graded<Whole>) -> Result<Vec<Class>, AllocError>
    ensures value { IfOk result (λ found. found.items ≡ classes family.now.rows) }
{
    let mut found = Vec::new(alloc);
    for entry in family.iter() {
        found.push(entry.class.copy()?)?;
    }
    Ok(found)
}

/// Those of one degree, in order.
pub fn classes_of_degree(
    alloc: Global,
    family: &Graded<Whole>,
    degree: i64,
) -> Result<Vec<Class>, AllocError>
    ensures value { IfOk result (λ found. found.items ≡ of_degree degree (listed family.now)) }
{
    let mut found = Vec::new(alloc);
    for entry in family.iter() {
        if entry.degree == degree {
            found.push(entry.class.copy()?)?;
        }
    }
    Ok(found)
}
