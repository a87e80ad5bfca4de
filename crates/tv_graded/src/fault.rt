//! Why a family has no quotient, with the class and the exponent where that is. It names no number.

use std::alloc::{AllocError, AllocFailed};
use thiserror::Error;
use tv_lattice::class::Class;

/// Why an operation on each series of a family has no answer.
#[derive(Debug, Drop, Error)]
pub enum GradedFault {
    /// The coefficient of this class at this exponent, or a sum on the way to it, is too wide.
    #[error("a coefficient, or a sum on the way to it, is too wide, at exponent {exponent} of the class {class:?}")]
    Wide { class: Class, exponent: i64 },
    /// There is no memory left.
    #[error("out of memory")]
    Memory,
}

impl From<AllocError> for GradedFault {
    ghost use Rattle.std.specs.Prelude.{◌≡◌};
    ghost use Rattle.tv_graded.specs.declared.fault.GradedFault.TheVariants.{Memory};

    ghost from_gives = { λ _ e. e ≡ Memory };

    fn from(_error: AllocError) -> GradedFault {
        GradedFault::Memory
    }
}

impl<T: Drop> From<AllocFailed<T>> for GradedFault {
    ghost use Rattle.std.specs.Prelude.{◌≡◌};
    ghost use Rattle.tv_graded.specs.declared.fault.GradedFault.TheVariants.{Memory};

    ghost from_gives = { λ _ e. e ≡ Memory };

    fn from(_error: AllocFailed<T>) -> GradedFault {
        GradedFault::Memory
    }
}
