//! How far a report is read: what the next line may be.

/// What comes next.
#[derive(Clone, Copy)]
pub(crate) enum Stage {
    /// The first line.
    Opening,
    /// The heights.
    Heights,
    /// The greatest degree.
    Degree,
    /// The last exponent.
    Upto,
    /// The class zero.
    Zero,
    /// The one term of class zero.
    One,
    /// A class, or the end.
    Closed,
    /// A term or an integer of the open class, a further class, or the end.
    Terms,
    /// An integer of the open class, a further class, or the end.
    Integers,
    /// Nothing.
    Done,
}
