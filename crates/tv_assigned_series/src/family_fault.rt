//! Why there is no full family. It names a class, and no exponent.

ghost use Rattle.std.specs.Prelude.{◌≡◌};
ghost use Rattle.tv_assigned_series.specs.FamilyFaults.{of_ring, of_series};

use std::alloc::{AllocError, AllocFailed};
use thiserror::Error;
use tv_lattice::class::Class;
use tv_laurent::SeriesFault;
use tv_ring::RingFault;

/// The configurations of a class are too many, or want of memory.
#[derive(Debug, Drop, Error)]
pub enum GlueFault {
    /// A class whose configurations with at most max(0, n - 2 L) boxes (`crowd`), times the size of one, are more than
    /// 2^127 - 1; n is the last exponent, and L is `lowest`.
    #[error("a class has too many configurations")]
    Wide(Class),
    /// There is no memory left.
    #[error("out of memory")]
    Memory,
}

impl<T: Drop> From<AllocFailed<T>> for GlueFault {
    ghost use Rattle.tv_assigned_series.specs.declared.family_fault.GlueFault.TheVariants.{Memory};
    ghost use Rattle.std.specs.Prelude.{◌≡◌};

    ghost from_gives = { λ _ e. e ≡ Memory };

    fn from(_e: AllocFailed<T>) -> GlueFault {
        GlueFault::Memory
    }
}

impl From<AllocError> for GlueFault {
    ghost use Rattle.tv_assigned_series.specs.declared.family_fault.GlueFault.TheVariants.{Memory};
    ghost use Rattle.std.specs.Prelude.{◌≡◌};

    ghost from_gives = { λ _ e. e ≡ Memory };

    fn from(_e: AllocError) -> GlueFault {
        GlueFault::Memory
    }
}

/// What a ring's fault is at a class: it is Wide exactly where the fault is.
pub fn of_ring(fault: RingFault, class: Class) -> GlueFault
    ensures value { result ≡ of_ring fault class }
{
    match fault {
        RingFault::Wide => GlueFault::Wide(class),
        RingFault::Memory => GlueFault::Memory,
    }
}

/// What a series' fault is at a class: it is Wide exactly where the fault is, and names no exponent.
pub fn of_series(fault: SeriesFault, class: Class) -> GlueFault
    ensures value { result ≡ of_series fault class }
{
    match fault {
        SeriesFault::Wide(_) => GlueFault::Wide(class),
        SeriesFault::Memory => GlueFault::Memory,
    }
}
