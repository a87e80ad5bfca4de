//! What a series tells of one exponent.
//! It lends the coefficient, and makes no zero where there is none.

/// A coefficient of a series at an exponent.
#[derive(Drop)]
pub enum Coefficient<'a, C> {
    /// The exponent is beyond what is known.
    Beyond,
    /// The exponent is below the lowest one, where each coefficient is zero.
    Zero,
    /// The coefficient that is kept, which may be zero too.
    Is(&'a C),
}
