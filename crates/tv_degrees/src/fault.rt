//! Why heights do not grade a web. It tells one edge, the first.

use std::alloc::{AllocError, AllocFailed};
use thiserror::Error;

/// The first compact edge of a degree of at most 0, or want of memory.
#[derive(Clone, Copy, Debug, PartialEq, Eq, Error)]
pub enum DegreeFault {
    /// The edge by the numbers of its points, the lesser first, and its degree.
    #[error("the edge {a} {b} has the degree {degree}")]
    Degree { a: u32, b: u32, degree: i64 },
    /// Memory was wanting.
    #[error("out of memory")]
    Memory,
}

impl<T: Drop> From<AllocFailed<T>> for DegreeFault {
    ghost use Rattle.tv_degrees.specs.declared.fault.DegreeFault.TheVariants.{Memory};
    ghost use Rattle.std.specs.Prelude.{◌≡◌};

    ghost from_gives = { λ _ e. e ≡ Memory };

    fn from(_e: AllocFailed<T>) -> DegreeFault {
        DegreeFault::Memory
    }
}

impl From<AllocError> for DegreeFault {
    ghost use Rattle.tv_degrees.specs.declared.fault.DegreeFault.TheVariants.{Memory};
    ghost use Rattle.std.specs.Prelude.{◌≡◌};

    ghost from_gives = { λ _ e. e ≡ Memory };

    fn from(_e: AllocError) -> DegreeFault {
        DegreeFault::Memory
    }
}
