//! Why nothing is found of a report.

use std::alloc::{AllocError, AllocFailed};
use thiserror::Error;
use tv_lattice::class::Class;

/// Why a report was not verified.
#[derive(Debug, Drop, Error)]
pub enum CertFault {
    /// The majorant of this class at this exponent is too wide.
    #[error("the majorant is too wide, at exponent {exponent} of the class {class:?}")]
    Wide { class: Class, exponent: i64 },
    /// There is no memory left.
    #[error("out of memory")]
    Memory,
}

impl From<AllocError> for CertFault {
    ghost use Rattle.std.specs.Prelude.{◌≡◌};
    ghost use Rattle.tv_cert.specs.declared.fault.CertFault.TheVariants.{Memory};

    ghost from_gives = { λ _ e. e ≡ Memory };

    fn from(_error: AllocError) -> CertFault {
        CertFault::Memory
    }
}

impl<T: Drop> From<AllocFailed<T>> for CertFault {
    ghost use Rattle.std.specs.Prelude.{◌≡◌};
    ghost use Rattle.tv_cert.specs.declared.fault.CertFault.TheVariants.{Memory};

    ghost from_gives = { λ _ e. e ≡ Memory };

    fn from(_error: AllocFailed<T>) -> CertFault {
        CertFault::Memory
    }
}
