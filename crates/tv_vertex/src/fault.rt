//! Why a count isn't given. It says nothing of where the count stood.

use thiserror::Error;

/// The count is too great, or want of memory.
#[derive(Clone, Copy, Debug, PartialEq, Eq, Error)]
pub enum CountFault {
    /// The count is beyond 2^127 - 1.
    #[error("the count is beyond 2^127 - 1")]
    Wide,
    /// There is no memory left.
    #[error("out of memory")]
    Memory,
}
