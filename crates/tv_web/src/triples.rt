//! One triangle by the numbers of its points. It knows no points and no other triangle.

ghost use Rattle.std.specs.Prelude.{◌≡◌};
ghost use Rattle.tv_spec_plane.specs.Tiling.{triangle_at};
ghost use Rattle.tv_spec_plane.specs.Web.{has, opposite, rising};

use tv_spec_plane::records::Triple;

/// Triangle t of the list, counted from 0, or one of point 0 alone past its end.
pub fn triangle_at(triangles: &[Triple], t: u32) -> Triple
    ensures { result ≡ triangle_at triangles.now t }
{
    match triangles.get(t as usize) {
        Some(triple) => *triple,
        None => Triple { a: 0, b: 0, c: 0 },
    }
}

/// Whether a is one of the triangle's points.
pub fn has(t: Triple, a: u32) -> bool
    ensures { result ≡ has t a }
{
    t.a == a || (t.b == a || t.c == a)
}

/// The triangle's point beside a and b.
pub fn opposite(t: Triple, a: u32, b: u32) -> u32
    ensures { result ≡ opposite t a b }
{
    if !(t.a == a || t.a == b) {
        return t.a;
    }
    if t.b == a || t.b == b { t.c } else { t.b }
}

/// The three numbers, the least first.
pub fn rising(a: u32, b: u32, c: u32) -> (u32, u32, u32)
    ensures least { result.0 ≡ (rising a b c).0 }
    ensures middle { result.1 ≡ (rising a b c).1 }
    ensures greatest { result.2 ≡ (rising a b c).2 }
{
    if a < b {
        if b < c {
            (a, b, c)
        } else if a < c {
            (a, c, b)
        } else {
            (c, a, b)
        }
    } else if a < c {
        (b, a, c)
    } else if b < c {
        (b, c, a)
    } else {
        (c, b, a)
    }
}
