//! Triangles turned counter-clockwise. Whether they are unimodular is told elsewhere.

ghost use Rattle.std.specs.Prelude.{◌≡◌, IfOk};
ghost use Rattle.tv_triangulation.specs.Turned.{turned_of, turned as all_turned};

use crate::area::turn_at;
use std::alloc::{AllocError, Global};
use tv_lattice::point::Point;
use tv_spec_plane::records::Triple;

/// The triangles in their order, each with its last two points exchanged if it turns clockwise.
pub fn turned(
    alloc: Global,
    points: &[Point],
    triangles: &[Triple],
) -> Result<Vec<Triple>, AllocError>
    ensures { IfOk result (λ v. v.items ≡ all_turned points.now triangles.now) }
{
    triangles
        .iter()
        .map(|t| turned_one(points, *t))
        .collect(alloc)
}

fn turned_one(points: &[Point], t: Triple) -> Triple
    ensures { result ≡ turned_of points.now t }
{
    if turn_at(points, t) < 0 {
        Triple {
            a: t.a,
            b: t.c,
            c: t.b,
        }
    } else {
        t
    }
}
