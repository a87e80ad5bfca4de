//! The class of a compact edge: 1 at its two opposite points and the normal degrees at its own two. Heights play no part.

ghost use Rattle.std.specs.Prelude.{◌≡◌, ◌≤◌, ◌<◌, ◌-ℤ◌, pos, neg_ℤ, length, unsigned_abs, map, IfOk};
ghost use Rattle.tv_spec_plane.specs.Web.{compact, edge_ratio, edge_class, below};
ghost use Rattle.tv_lattice.specs.Classes.{IsEntry};
ghost use Rattle.tv_degrees.specs.Edges.{edge_at, entry_by};

use crate::relation;
use std::alloc::{AllocError, Global};
use tv_lattice::class::Class;
use tv_lattice::point;
use tv_spec_plane::limits::MOST_POINTS;
use tv_spec_plane::records::CompactEdge;
use tv_web::web::Web;

/// The class of the compact edge of that number, counted from 0 in the order of the web's list.
pub fn edge_class(alloc: Global, web: &Web, e: u32) -> Result<Class, AllocError>
    requires { e < length (compact web.now) }
    ensures { IfOk result (λ class. class ≡ edge_class web.now (edge_at web.now e)) }
{
    class_of(alloc, web, edge_at(web, e))
}

/// The compact edge of that number.
pub fn edge_at(web: &Web, e: u32) -> CompactEdge
    requires { e < length (compact web.now) }
    ensures { result ≡ edge_at web.now e }
{
    web.compact()[e as usize]
}

/// The class of that edge, in the order of the points: the intersection numbers of its curve with the toric divisors.
pub fn class_of(alloc: Global, web: &Web, edge: CompactEdge) -> Result<Class, AllocError>
    ensures { IfOk result (λ class. class ≡ edge_class web.now edge) }
{
    let ratio = edge_ratio(web, edge);
    let count = web.points().len() as u32;
    entries_of(alloc, edge, normal_a(ratio), normal_b(ratio), count)
}

// The class among so many points, by the normal degrees of the edge.
fn entries_of(
    alloc: Global,
    edge: CompactEdge,
    a: i64,
    b: i64,
    count: u32,
) -> Result<Class, AllocError>
    requires few { count ≤ MOST_POINTS }
    requires first { IsEntry a }
    requires second { IsEntry b }
    ensures { IfOk result (λ class. class ≡ map (entry_by edge a b) (below count)) }
{
    let mut entries = Vec::new(alloc);
    for k in 0..count {
        entries.push(entry(edge, a, b, k))?;
    }
    Ok(Class::new(entries))
}

/// The r of the rule of the edge, c + d = p a + r b with p + r = 2.
#[tactic(auto, unfolding(tv_spec_plane::specs::Web::edge_ratio))]
pub fn edge_ratio(web: &Web, edge: CompactEdge) -> i64
    ensures value { result ≡ edge_ratio web.now edge }
    ensures bound { unsigned_abs result ≤ 6400000000 }
{
    let a = point::at(web.points(), edge.a);
    let b = point::at(web.points(), edge.b);
    let c = point::at(web.points(), edge.c);
    let d = point::at(web.points(), edge.d);
    relation::ratio(a, b, c, d)
}

/// The normal degree at the first point of an edge of that r: the entry of its class there.
pub fn normal_a(ratio: i64) -> i64
    requires { unsigned_abs ratio ≤ 6400000000 }
    ensures value { result ≡ ratio -ℤ pos 2 }
    ensures limit { IsEntry result }
{
    ratio - 2
}

/// The normal degree at its second point; both together are -2.
pub fn normal_b(ratio: i64) -> i64
    requires { unsigned_abs ratio ≤ 6400000000 }
    ensures value { result ≡ neg_ℤ ratio }
    ensures limit { IsEntry result }
{
    -ratio
}

/// The entry at point k of an edge with those normal degrees.
pub fn entry(edge: CompactEdge, a: i64, b: i64, k: u32) -> i64
    requires first { IsEntry a }
    requires second { IsEntry b }
    ensures value { result ≡ entry_by edge a b k }
    ensures limit { IsEntry result }
{
    if k == edge.c || k == edge.d {
        1
    } else if k == edge.a {
        a
    } else if k == edge.b {
        b
    } else {
        0
    }
}
