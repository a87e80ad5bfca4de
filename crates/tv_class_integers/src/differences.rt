//! Where the series and the product differ first.

ghost use Rattle.std.specs.Prelude.{◌≡◌, ◌≢◌, ℕ, ◌<◌, ◌≤◌, ◌+◌, ◌^◌, MatchOption, ◌*ℤ◌, length};
ghost use Rattle.tv_ring.specs.Whole.{wholes};
ghost use Rattle.tv_ring.specs.Sums.{at};
ghost use Rattle.tv_class_integers.specs.Readings.{sign_at};
ghost use Rattle.tv_class_integers.specs.Differences.{AgreeBelow, IsFirstDifference};

use crate::signs::signed;
use tv_ring::{Ring, Whole};

/// A weight at which the series and the product differ, with both numbers.
#[derive(Clone, Copy, Debug, PartialEq, Eq)]
pub struct Difference {
    /// The weight.
    pub weight: usize,
    /// The coefficient of the series.
    pub series: Whole,
    /// That of the product, in the variable q of the series.
    pub product: Whole,
}

/// The first weight below the end at which the series and the product differ.
pub fn first_difference(
    base: usize,
    end: usize,
    series: &[Whole],
    product: &[Whole],
) -> Option<Difference>
    requires count { length series.now ≡ length product.now }
    requires room { end ≤ length product.now }
    requires short { length product.now < 2 ^ 31 }
    requires base { base < 2 ^ 31 }
    ensures found { MatchOption result (AgreeBelow base (at wholes series.now) (at wholes product.now) end) (λ d. IsFirstDifference base (at wholes series.now) (at wholes product.now) end d) }
{
    for weight in 0..end {
        let known = series[weight];
        let value = signed(&product[weight], weight + base);
        if !known.same(&value) {
            return Some(Difference {
                weight,
                series: known,
                product: value,
            });
        }
    }
    None
}
