//! The degree of a compact edge at given heights. It tests no degree.

ghost use Rattle.std.specs.Prelude.{◌≡◌, ◌<◌, ◌≤◌, length, map};
ghost use Rattle.std.specs.List.{AllByRecursion};
ghost use Rattle.tv_spec_plane.specs.Web.{compact, edge_degree, degree_of, below};
ghost use Rattle.tv_lattice.specs.Limits.{IsHeight};
ghost use Rattle.tv_lattice.specs.Classes.{IsEntry};
ghost use Rattle.tv_degrees.specs.Edges.{edge_at, entry_by, with_heights};

use crate::classes;
use tv_lattice::class;
use tv_spec_plane::limits::MOST_POINTS;
use tv_spec_plane::records::CompactEdge;
use tv_web::web::Web;

/// The degree of compact edge e at these heights: the sum over the points of height times entry of its class.
pub fn edge_degree(web: &Web, e: u32, heights: &[i64]) -> i64
    requires listed { e < length (compact web.now) }
    requires one_each { length heights.now ≡ length web.now.points }
    requires small { AllByRecursion IsHeight heights.now }
    ensures { result ≡ edge_degree (with_heights web.now heights.now) (edge_at web.now e) }
{
    degree_of(web, classes::edge_at(web, e), heights)
}

// The same by the edge itself.
fn degree_of(web: &Web, edge: CompactEdge, heights: &[i64]) -> i64
    requires one_each { length heights.now ≡ length web.now.points }
    requires small { AllByRecursion IsHeight heights.now }
    ensures { result ≡ edge_degree (with_heights web.now heights.now) edge }
{
    let ratio = classes::edge_ratio(web, edge);
    let count = web.points().len() as u32;
    sum_of(
        heights,
        edge,
        classes::normal_a(ratio),
        classes::normal_b(ratio),
        count,
    )
}

// The sum over the points below count, by the normal degrees of the edge.
fn sum_of(heights: &[i64], edge: CompactEdge, a: i64, b: i64, count: u32) -> i64
    requires few { count ≤ MOST_POINTS }
    requires one_each { length heights.now ≡ count }
    requires small { AllByRecursion IsHeight heights.now }
    requires first { IsEntry a }
    requires second { IsEntry b }
    ensures { result ≡ degree_of heights.now (map (entry_by edge a b) (below count)) }
{
    let mut total = 0;
    for k in 0..count {
        let height = class::height_at(heights, k as usize);
        total = class::with_term(total, height, classes::entry(edge, a, b, k));
    }
    total
}
