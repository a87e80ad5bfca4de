//! Whether the slices of two neighbouring diagonals interlace. Whether they fit the legs is not asked here.

ghost use Rattle.std.specs.Prelude.{◌≡◌, ◌<◌, ◌^◌};
ghost use Rattle.tv_spec_slices.specs.Slices.{covers, interlaces_at, interlaces};

use crate::slice::Slice;

/// Whether the column of a at d is at least as high as that of b at e.
fn covers(a: &Slice, d: u32, b: &Slice, e: u32) -> bool
    ensures { result ≡ covers a.now d b.now e }
{
    d < a.full() || (b.full() <= e && b.at(e) <= a.at(d))
}

/// Whether slice a of the diagonal t and slice b of the next one interlace at place d.
fn interlaces_at(t: i32, a: &Slice, b: &Slice, d: u32) -> bool
    requires { d < 2 ^ 31 }
    ensures { result ≡ interlaces_at t a.now b.now d }
{
    if t >= 0 {
        covers(a, d, b, d) && covers(b, d, a, d + 1)
    } else {
        covers(b, d, a, d) && covers(a, d, b, d + 1)
    }
}

/// Whether slice a of the diagonal t and slice b of the diagonal t + 1 interlace: a(d) >= b(d) >= a(d + 1) at each place d for
/// t from 0 on, and b(d) >= a(d) >= b(d + 1) below.
pub fn interlaces(a: &Slice, b: &Slice, t: i32) -> bool
    ensures { result ≡ interlaces t a.now b.now }
{
    for d in 0..a.reach().max(b.reach()) {
        if !interlaces_at(t, a, b, d) {
            return false;
        }
    }
    true
}
