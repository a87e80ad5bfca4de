//! How the heights of a diagonal are replaced: in which order, and up to which bounds. It knows no heights.

ghost use Rattle.std.specs.Prelude.{◌≡◌, ◌+◌, ◌<◌, ◌^◌};
ghost use Rattle.tv_laws_sums.specs.Mixed.{place, is_new, nth};

/// A walk to one diagonal.
#[derive(Clone, Copy)]
pub struct Plan {
    /// The greatest number of extras.
    pub k: u32,
    /// Whether slices grow towards the diagonal; then the last place is the first to be replaced.
    pub grows: bool,
    /// The coordinates of place 0 on the diagonal; those of place d are greater by d.
    pub x: u32,
    pub y: u32,
    /// The height of a column without end, greater than any other.
    pub top: u32,
    /// How many places are replaced: one more than the longest slice has.
    pub n: u32,
}

/// The place that is replaced after i others.
pub fn place(plan: Plan, i: u32) -> u32
    requires { i < plan.n }
    ensures value { result ≡ place plan.grows plan.n i }
    ensures bound { result < plan.n }
{
    if plan.grows { plan.n - 1 - i } else { i }
}

/// Whether place d is among the first i that are replaced.
pub fn is_new(plan: Plan, i: u32, d: u32) -> bool
    requires { d + i < 2 ^ 32 }
    ensures { result ≡ is_new plan.grows plan.n i d }
{
    if plan.grows { plan.n <= d + i } else { d < i }
}

/// The height between low and high that is met after m others.
pub fn nth(plan: Plan, low: u32, high: u32, m: u32) -> u32
    requires { low + m < 2 ^ 32 }
    ensures { result ≡ nth plan.grows low high m }
{
    if plan.grows {
        low + m
    } else {
        high.saturating_sub(m)
    }
}
