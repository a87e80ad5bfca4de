//! Why an operation of a ring gives no value.
//! Which operation gives which fault is said where the operation is.

use std::alloc::{AllocError, AllocFailed};
use thiserror::Error;

/// Why a ring has no answer.
#[derive(Clone, Copy, Debug, PartialEq, Eq, Error)]
pub enum RingFault {
    /// A coefficient, or a sum on the way to it, is too wide: it would not lie between -(2^127 - 1) and 2^127 - 1.
    #[error("a coefficient, or a sum on the way to it, is too wide")]
    Wide,
    /// There is no memory left.
    #[error("out of memory")]
    Memory,
}

impl From<AllocError> for RingFault {
    ghost use Rattle.std.specs.Prelude.{◌≡◌};
    ghost use Rattle.tv_ring.specs.declared.fault.RingFault.TheVariants.{Memory};

    ghost from_gives = { λ _ e. e ≡ Memory };

    fn from(_error: AllocError) -> RingFault {
        RingFault::Memory
    }
}

impl<T: Drop> From<AllocFailed<T>> for RingFault {
    ghost use Rattle.std.specs.Prelude.{◌≡◌};
    ghost use Rattle.tv_ring.specs.declared.fault.RingFault.TheVariants.{Memory};

    ghost from_gives = { λ _ e. e ≡ Memory };

    fn from(_error: AllocFailed<T>) -> RingFault {
        RingFault::Memory
    }
}
