//! The heights that a slice lets stand at the places of its neighbour above: those between which the neighbour interlaces.

ghost use Rattle.std.specs.Prelude.{◌≡◌, ◌<◌, ◌^◌};
ghost use Rattle.tv_interlace.specs.Bounds.{floor, ceiling};

use crate::slice::Slice;

/// Higher than every column that is listed.
pub const WITHOUT_END: u32 = 4294967295;

/// The least height at place d of a slice at t + 1 that interlaces with a at t, where it is finite there.
pub fn floor(a: &Slice, t: i32, d: u32) -> u32
    requires { d < 2 ^ 31 }
    ensures { result ≡ floor t a.now d }
{
    let e = if t >= 0 { d + 1 } else { d };
    if e < a.full() { WITHOUT_END } else { a.at(e) }
}

/// The greatest one.
pub fn ceiling(a: &Slice, t: i32, d: u32) -> u32
    requires { d < 2 ^ 31 }
    ensures { result ≡ ceiling t a.now d }
{
    if t >= 0 {
        if d < a.full() { WITHOUT_END } else { a.at(d) }
    } else if d <= a.full() {
        WITHOUT_END
    } else {
        a.at(d - 1)
    }
}
