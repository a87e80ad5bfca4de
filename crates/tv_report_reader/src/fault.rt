//! Why a report is not read. Its line of text stands elsewhere.

use std::alloc::{AllocError, AllocFailed};
use thiserror::Error;
use tv_lattice::fault::ReportFault;

/// Why a report is not read: a fault of its own, or want of memory.
#[derive(Clone, Copy, Debug, PartialEq, Eq, Error)]
pub enum ReportError {
    /// There are too many bytes, or a line that no report has there.
    #[error("the report is refused")]
    Fault(ReportFault),
    /// Memory was wanting.
    #[error("out of memory")]
    Memory,
}

impl From<AllocError> for ReportError {
    ghost use Rattle.std.specs.Prelude.{◌≡◌};
    ghost use Rattle.tv_report_reader.specs.declared.fault.ReportError.TheVariants.{Memory};

    ghost from_gives = { λ _ e. e ≡ Memory };

    fn from(_error: AllocError) -> ReportError {
        ReportError::Memory
    }
}

impl<T: Drop> From<AllocFailed<T>> for ReportError {
    ghost use Rattle.std.specs.Prelude.{◌≡◌};
    ghost use Rattle.tv_report_reader.specs.declared.fault.ReportError.TheVariants.{Memory};

    ghost from_gives = { λ _ e. e ≡ Memory };

    fn from(_error: AllocFailed<T>) -> ReportError {
        ReportError::Memory
    }
}
