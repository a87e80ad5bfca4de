//! Why an operation of a series gives no series, with the exponent where that is.
//! It names no number: the contract of each call says which one is too wide there.

ghost use Rattle.std.specs.Prelude.{◌≡◌};
ghost use Rattle.tv_laurent.specs.Faults.{fault_of, IsWithoutExponent};

use std::alloc::{AllocError, AllocFailed};
use thiserror::Error;
use tv_ring::RingFault;

/// Why a series has no answer.
#[derive(Clone, Copy, Debug, PartialEq, Eq, Error)]
pub enum SeriesFault {
    /// The coefficient at this exponent, or a sum on the way to it, is too wide.
    #[error("a coefficient, or a sum on the way to it, is too wide, at exponent {0}")]
    Wide(i64),
    /// There is no memory left.
    #[error("out of memory")]
    Memory,
}

impl From<AllocError> for SeriesFault {
    ghost use Rattle.std.specs.Prelude.{◌≡◌};
    ghost use Rattle.tv_laurent.specs.declared.fault.SeriesFault.TheVariants.{Memory};

    ghost from_gives = { λ _ e. e ≡ Memory };

    fn from(_error: AllocError) -> SeriesFault {
        SeriesFault::Memory
    }
}

impl<T: Drop> From<AllocFailed<T>> for SeriesFault {
    ghost use Rattle.std.specs.Prelude.{◌≡◌};
    ghost use Rattle.tv_laurent.specs.declared.fault.SeriesFault.TheVariants.{Memory};

    ghost from_gives = { λ _ e. e ≡ Memory };

    fn from(_error: AllocFailed<T>) -> SeriesFault {
        SeriesFault::Memory
    }
}

/// What a ring's fault is at an exponent.
pub(crate) fn fault_at(fault: RingFault, n: i64) -> SeriesFault
    ensures value { result ≡ fault_of fault n }
{
    match fault {
        RingFault::Wide => SeriesFault::Wide(n),
        RingFault::Memory => SeriesFault::Memory,
    }
}

/// The same fault, without its exponent.
pub(crate) fn without_exponent(fault: SeriesFault) -> RingFault
    ensures value { IsWithoutExponent fault result }
{
    match fault {
        SeriesFault::Wide(_) => RingFault::Wide,
        SeriesFault::Memory => RingFault::Memory,
    }
}
