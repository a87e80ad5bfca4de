//! A report while it is read: what the lines so far say.

use crate::heights::ReportHeights;
use crate::part::{Integer, Part};
use crate::stage::Stage;
use tv_lattice::class::Class;
use tv_text::series::Term;

/// What may follow; the heights, the greatest degree and the last exponent; the sections that are closed; and the open one.
#[derive(Drop)]
pub(crate) struct Draft {
    pub(crate) stage: Stage,
    pub(crate) heights: ReportHeights,
    pub(crate) degree: i64,
    pub(crate) upto: i64,
    pub(crate) closed: Vec<Part>,
    pub(crate) opened_degree: i64,
    pub(crate) opened_class: Class,
    pub(crate) terms: Vec<Term>,
    pub(crate) integers: Vec<Integer>,
}
