//! Distances between exponents.
//! They are bounded, so that none of them overflows.

ghost use Rattle.std.specs.Prelude.{◌≡◌, ◌≤◌, ◌^◌, ◌≤ℤ◌};
ghost use Rattle.tv_laws_series.specs.Terms.{above, IsWithin};

/// How many exponents there are from one up to another.
pub(crate) fn places(from: i64, to: i64) -> usize
    requires from { IsWithin from }
    requires to { IsWithin to }
    requires order { from ≤ℤ to }
    ensures value { result ≡ above from to }
    ensures small { result ≤ 2 ^ 61 }
{
    (to - from) as usize
}
