//! The limits of files and of what is asked of them. Code and contracts name them; nothing here looks at a file.

/// The most bytes that a file may have.
pub const MOST_BYTES: usize = 65_536;
/// The most points that a file may list, and so the most entries of a class.
pub const MOST_POINTS: usize = 64;
/// The most triangles that a file may list.
pub const MOST_TRIANGLES: usize = 128;
/// The greatest absolute value of a coordinate.
pub const GREATEST_COORDINATE: u64 = 100;
/// The greatest absolute value of a height.
pub const GREATEST_HEIGHT: u64 = 1_000_000;
/// The greatest absolute value of an entry of a class.
pub const GREATEST_ENTRY: u64 = 100_000_000_000;
/// The greatest degree that may be asked for.
pub const GREATEST_DEGREE: u32 = 24;
/// The greatest absolute value of an order that may be asked for.
pub const GREATEST_ORDER: u32 = 64;
