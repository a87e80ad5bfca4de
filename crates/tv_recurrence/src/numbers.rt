//! Whole numbers from machine numbers, and exact quotients of them.

ghost use Rattle.std.specs.Prelude.{◌≡◌, ◌<◌, pos, ◌*ℤ◌};
ghost use Rattle.tv_recurrence.specs.Parts.{IsMultiple};

use tv_ring::Whole;

/// The number as a whole one.
pub fn whole(n: u64) -> Whole
    ensures value { result ≡ pos n }
{
    match Whole::new(n as i128) {
        Some(number) => number,
        None => unreachable!(),
    }
}

/// The number that times the divisor is the other one.
pub fn quotient(number: Whole, divisor: u64) -> Whole
    requires positive { 0 < divisor }
    requires exact { IsMultiple divisor number }
    ensures value { pos divisor *ℤ result ≡ number }
{
    match Whole::new(number.get() / divisor as i128) {
        Some(quotient) => quotient,
        None => unreachable!(),
    }
}
