//! Why listed points have no hull. Faults of triangles are told elsewhere.

use std::alloc::{AllocError, AllocFailed};
use thiserror::Error;

/// The first pair of equal points, or that there are fewer than three points or all lie on one line.
#[derive(Debug, Drop, Error)]
pub enum LatticeFault {
    #[error("points {0} and {1} are equal")]
    Repeated(u32, u32),
    #[error("the points lie on one line")]
    Flat,
    #[error("out of memory")]
    Memory,
}

impl From<AllocError> for LatticeFault {
    ghost use Rattle.tv_hull.specs.declared.fault.LatticeFault.TheVariants.{Memory};
    ghost use Rattle.std.specs.Prelude.{◌≡◌};

    ghost from_gives = { λ _ e. e ≡ Memory };

    fn from(_e: AllocError) -> LatticeFault {
        LatticeFault::Memory
    }
}

impl<T: Drop> From<AllocFailed<T>> for LatticeFault {
    ghost use Rattle.tv_hull.specs.declared.fault.LatticeFault.TheVariants.{Memory};
    ghost use Rattle.std.specs.Prelude.{◌≡◌};

    ghost from_gives = { λ _ e. e ≡ Memory };

    fn from(_e: AllocFailed<T>) -> LatticeFault {
        LatticeFault::Memory
    }
}
