//! The closed list of a family's classes: those of degree 1 up to the family's greatest, and all their sums of such a degree.

ghost use Rattle.std.specs.Prelude.{pos, ◌≤ℤ◌, IfOk};
ghost use Rattle.std.specs.List.{AllByRecursion};
ghost use Rattle.tv_lemmas.specs.Naturals.{as_natural};
ghost use Rattle.tv_spec_series.specs.Families.{classes};
ghost use Rattle.tv_laws_integers.specs.Closed.{IsClosedList};
ghost use Rattle.tv_candidates.specs.Closing.{HasSmallEntries};

use crate::degrees::classes_of;
use crate::rounds::close_at;
use std::alloc::{AllocError, Global};
use tv_graded::Graded;
use tv_lattice::class::Class;
use tv_ring::Whole;

/// The classes of degree 1 to the family's greatest degree, of at most 24, and with any two their sum where its degree is not
/// above that: each once, by degree, then by entries. Each entry of a class of the family is at most 10^9 times its degree.
pub fn closed_list(alloc: Global, family: &Graded<Whole>) -> Result<Vec<Class>, AllocError>
    requires top { family.now.top ≤ℤ pos 24 }
    requires small { AllByRecursion (HasSmallEntries family.now.heights) (classes family.now.rows) }
    ensures value { IfOk result (λ list. IsClosedList (as_natural family.now.top) family.now list.items) }
{
    let heights = family.heights().to_vec(alloc)?;
    let mut closed = Graded::new(alloc, heights, family.top(), 0);
    for degree in 1..family.top() + 1 {
        close_at(alloc, family, &mut closed, degree)?;
    }
    closed.known();
    classes_of(alloc, &closed)
}
