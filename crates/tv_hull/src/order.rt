//! The order of points by x, then y, and what it makes of a way up or down. It compares points and lists none.

ghost use Rattle.std.specs.Prelude.{◌↔◌, IsTrue};
ghost use Rattle.tv_laws_tiling.specs.Hull.{IsLess};
ghost use Rattle.tv_hull.specs.Ways.{IsAhead};

use tv_lattice::point::Point;

/// Which way along the boundary of the hull.
#[derive(Clone, Copy, Debug, PartialEq, Eq)]
pub enum Heading {
    /// From the least point up to the greatest, by x, then y.
    Up,
    /// From the greatest point down to the least.
    Down,
}

/// Whether p comes before q by x, then y.
pub fn is_less(p: Point, q: Point) -> bool
    ensures { IsTrue result ↔ IsLess p q }
{
    if p.x() == q.x() {
        p.y() < q.y()
    } else {
        p.x() < q.x()
    }
}

/// Whether q comes after p on the way up or down.
pub fn is_ahead(heading: Heading, p: Point, q: Point) -> bool
    ensures { IsTrue result ↔ IsAhead heading p q }
{
    match heading {
        Heading::Up => is_less(p, q),
        Heading::Down => is_less(q, p),
    }
}
