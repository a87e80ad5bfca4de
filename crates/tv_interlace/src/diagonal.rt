//! Where the diagonal with x - y = t begins, and how high the legs are at its places. It knows no slice.

ghost use Rattle.std.specs.Prelude.{◌≡◌, ◌+◌, ◌≤◌, ◌<◌, ◌^◌, unsigned_abs};
ghost use Rattle.tv_cells.specs.Cells.{x_from, y_from};
ghost use Rattle.tv_cells.specs.Extras.{extent};
ghost use Rattle.tv_spec_slices.specs.Slices.{base, base_at, is_endless};
ghost use Rattle.tv_spec_slices.specs.Paths.{full_of};

use tv_cells::legs::Legs;
use tv_partition::diagram::MOST_CELLS;

/// The x of the first place of the diagonal.
pub fn x_from(t: i32) -> u32
    requires { unsigned_abs t ≤ 2 ^ 30 }
    ensures value { result ≡ x_from t }
    ensures bound { result ≤ 2 ^ 30 }
{
    if t > 0 { t as u32 } else { 0 }
}

/// The y of the first place of the diagonal.
pub fn y_from(t: i32) -> u32
    requires { unsigned_abs t ≤ 2 ^ 30 }
    ensures value { result ≡ y_from t }
    ensures bound { result ≤ 2 ^ 30 }
{
    if t < 0 { t.unsigned_abs() } else { 0 }
}

/// The height of the legs along x and y at (x, y).
pub fn base(legs: &Legs, x: u32, y: u32) -> u32
    ensures value { result ≡ base legs.now x y }
    ensures bound { result ≤ MOST_CELLS }
{
    legs.along_x.row(y).max(legs.along_y.row(x))
}

/// Their height at place d of the diagonal.
pub fn base_at(legs: &Legs, t: i32, d: u32) -> u32
    requires diagonal { unsigned_abs t ≤ 2 ^ 30 }
    requires place { d < 2 ^ 31 }
    ensures value { result ≡ base_at legs.now t d }
    ensures bound { result ≤ MOST_CELLS }
{
    base(legs, d + x_from(t), d + y_from(t))
}

/// Whether place d of the diagonal lies in the leg along z.
pub fn is_endless(legs: &Legs, t: i32, d: u32) -> bool
    requires diagonal { unsigned_abs t ≤ 2 ^ 30 }
    requires place { d < 2 ^ 31 }
    ensures { result ≡ is_endless legs.now t d }
{
    legs.along_z.contains(d + x_from(t), d + y_from(t))
}

/// How many places of the diagonal lie in the leg along z, at the front.
pub fn full_of(legs: &Legs, t: i32) -> u32
    requires { unsigned_abs t ≤ 2 ^ 30 }
    ensures value { result ≡ full_of legs.now t (extent legs.now) }
    ensures bound { result ≤ MOST_CELLS }
{
    let mut n = legs.extent();
    while n > 0 && !is_endless(legs, t, n - 1) {
        n -= 1;
    }
    n
}
