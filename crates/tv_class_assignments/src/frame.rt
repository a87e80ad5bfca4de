//! The diagrams that are still to come on one edge. It knows no web.

use crate::remaining::Remaining;

/// An edge with what is left there, by its place in the list of frames: the diagrams from `place` on among those with
/// `size` cells are still to come, and all larger ones.
#[derive(Drop)]
pub(crate) struct Frame {
    pub(crate) left: Remaining,
    pub(crate) size: u32,
    pub(crate) place: usize,
}
