//! The one error of a read or a write.
//! It carries no cause: a source or a sink counts its faults, and tells them no further apart.

use thiserror::Error;

/// A read or a write did not come about, and took or gave no byte that is known.
#[derive(Debug, Drop, PartialEq, Eq, Error)]
#[error("a read or a write failed")]
pub struct Failed;
