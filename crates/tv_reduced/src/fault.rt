//! Why there is no family of reduced series. It names a class, and where a division fails its exponent.

use std::alloc::{AllocError, AllocFailed};
use thiserror::Error;
use tv_glue::GlueFault;
use tv_graded::GradedFault;
use tv_lattice::class::Class;

/// The configurations of a class are too many, the sizes that meet in a division are too large, or there is no memory.
#[derive(Debug, Drop, Error)]
pub enum ReducedFault {
    /// A class whose configurations with at most max(0, n - 2 L) boxes (`crowd`), times the size of one, are more than
    /// 2^127 - 1; n is the last exponent, and L is `lowest`.
    #[error("a class has too many configurations")]
    Crowd(Class),
    /// A class, and an exponent at which the sizes that meet in the division of its series, times the size of one, add up to
    /// more than 2^127 - 1.
    #[error("the numbers that meet in the division of a series are too large")]
    Spread { class: Class, exponent: i64 },
    /// There is no memory left.
    #[error("out of memory")]
    Memory,
}

impl From<GlueFault> for ReducedFault {
    ghost use Rattle.tv_reduced.specs.Faults.{of_full};
    ghost use Rattle.std.specs.Prelude.{◌≡◌};

    ghost from_gives = { λ fault e. e ≡ of_full fault };

    fn from(fault: GlueFault) -> ReducedFault {
        match fault {
            GlueFault::Wide(class) => ReducedFault::Crowd(class),
            GlueFault::Memory => ReducedFault::Memory,
        }
    }
}

impl From<GradedFault> for ReducedFault {
    ghost use Rattle.tv_reduced.specs.Faults.{of_division};
    ghost use Rattle.std.specs.Prelude.{◌≡◌};

    ghost from_gives = { λ fault e. e ≡ of_division fault };

    fn from(fault: GradedFault) -> ReducedFault {
        match fault {
            GradedFault::Wide { class, exponent } => ReducedFault::Spread { class, exponent },
            GradedFault::Memory => ReducedFault::Memory,
        }
    }
}

impl<T: Drop> From<AllocFailed<T>> for ReducedFault {
    ghost use Rattle.tv_reduced.specs.declared.fault.ReducedFault.TheVariants.{Memory};
    ghost use Rattle.std.specs.Prelude.{◌≡◌};

    ghost from_gives = { λ _ e. e ≡ Memory };

    fn from(_e: AllocFailed<T>) -> ReducedFault {
        ReducedFault::Memory
    }
}

impl From<AllocError> for ReducedFault {
    ghost use Rattle.tv_reduced.specs.declared.fault.ReducedFault.TheVariants.{Memory};
    ghost use Rattle.std.specs.Prelude.{◌≡◌};

    ghost from_gives = { λ _ e. e ≡ Memory };

    fn from(_e: AllocError) -> ReducedFault {
        ReducedFault::Memory
    }
}
