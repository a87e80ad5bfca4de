//! Why a file or a report is refused. Each fault has its number and its line of text elsewhere.

use std::alloc::{AllocError, AllocFailed};
use thiserror::Error;

/// A count or a number over its limit, in the order in which they are looked for.
#[derive(Clone, Copy, Debug, PartialEq, Eq)]
pub enum Excess {
    /// The count of points, over `MOST_POINTS`.
    Points(u64),
    /// The count of triangles, over `MOST_TRIANGLES`.
    Triangles(u64),
    /// The number of the first point, counted from 0, with a coordinate over `GREATEST_COORDINATE` in absolute value.
    Coordinate(u32),
    /// The number of the first height, counted from 0, over `GREATEST_HEIGHT` in absolute value.
    Height(u64),
}

/// The first failing check, with the least number or pair. Points and triangles are counted from 0, in the file's order.
#[derive(Clone, Copy, Debug, PartialEq, Eq)]
pub enum FileFault {
    /// There are more bytes than a file may have.
    TooLong,
    /// The first line, counted from 1, with which no file goes on; one past the last line where the file ends too early.
    Line(u32),
    /// The first byte begins a text in JSON, and JSON has no reading of the bytes, or one that is no file.
    Json,
    /// The first limit that is passed.
    TooMany(Excess),
    /// Two points, the lesser number first, that are equal.
    Repeated(u32, u32),
    /// The first triangle that names a point that is not listed.
    Index(u32),
    /// There are fewer than three points, or all lie on one line.
    Flat,
    /// The first triangle whose doubled area is not 1, and that doubled area, never below 0.
    Area(u32, i64),
    /// Two triangles, the lesser number first, that turned counter-clockwise have a directed edge in common.
    Twice(u32, u32),
    /// A directed edge of a turned triangle, by its points, that no turned triangle has the other way round and that is no
    /// segment of the hull.
    Unmatched(u32, u32),
    /// A segment of the hull, by its points in counter-clockwise order, that is an edge of no turned triangle.
    Bare(u32, u32),
    /// The number of heights, which is not that of points.
    HeightCount(u64),
    /// The points of the first compact edge whose degree is at most 0, and that degree.
    Degree(u32, u32, i64),
}

/// Why bytes are no report: there are too many, or the first line that no report has there.
#[derive(Clone, Copy, Debug, PartialEq, Eq, Error)]
pub enum ReportFault {
    /// There are more bytes than a report may have.
    #[error("the report is too long")]
    TooLong,
    /// The number, counted from 1, of the first line with which no report goes on.
    #[error("line {0} is not in the grammar of reports")]
    Line(u32),
}

/// Why an input is not accepted: a fault of its own, or want of memory.
#[derive(Debug, Drop, Error)]
pub enum InputError {
    /// The file fails a check.
    #[error("the file is refused")]
    Fault(FileFault),
    /// Memory was wanting.
    #[error("out of memory")]
    Memory,
}

impl<T: Drop> From<AllocFailed<T>> for InputError {
    ghost use Rattle.tv_lattice.specs.declared.fault.InputError.TheVariants.{Memory};
    ghost use Rattle.std.specs.Prelude.{◌≡◌};

    ghost from_gives = { λ _ e. e ≡ Memory };

    fn from(_e: AllocFailed<T>) -> InputError {
        InputError::Memory
    }
}

impl From<AllocError> for InputError {
    ghost use Rattle.tv_lattice.specs.declared.fault.InputError.TheVariants.{Memory};
    ghost use Rattle.std.specs.Prelude.{◌≡◌};

    ghost from_gives = { λ _ e. e ≡ Memory };

    fn from(_e: AllocError) -> InputError {
        InputError::Memory
    }
}
