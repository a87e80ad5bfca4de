//! Why a class could not be read.

ghost use Rattle.std.specs.Prelude.{◌≡◌};
ghost use Rattle.tv_class_parts.specs.Numbers.{of_row};

use std::alloc::AllocError;
use thiserror::Error;
use tv_class_integers::Difference;
use tv_recurrence::RowFault;

/// Why a class was not read.
#[derive(Clone, Copy, Debug, PartialEq, Eq, Error)]
pub enum ClassFault {
    /// A number on the way is too wide, at this weight.
    #[error("a number on the way to the integers is too wide, at weight {0}")]
    Wide(usize),
    /// Series and product differ.
    #[error("series and product differ: {0:?}")]
    Differ(Difference),
    /// There is no memory left.
    #[error("out of memory")]
    Memory,
}

impl From<AllocError> for ClassFault {
    ghost use Rattle.std.specs.Prelude.{◌≡◌};
    ghost use Rattle.tv_class_parts.specs.declared.fault.ClassFault.TheVariants.{Memory};

    ghost from_gives = { λ _ e. e ≡ Memory };

    fn from(_error: AllocError) -> ClassFault {
        ClassFault::Memory
    }
}

/// The fault of a row, of a class.
pub fn fault_of_row(fault: RowFault) -> ClassFault
    ensures value { result ≡ of_row fault }
{
    match fault {
        RowFault::Wide(weight) => ClassFault::Wide(weight),
        RowFault::Memory => ClassFault::Memory,
    }
}
