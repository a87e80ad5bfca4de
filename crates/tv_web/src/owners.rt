//! The triangles that have two points. Only whether there are none, one, two or more is told, since an edge needs no more.

ghost use Rattle.std.specs.Prelude.{◌≡◌, ◌≤◌, ◌<◌, length, cond};
ghost use Rattle.tv_web.specs.Found.{owns, and_also, found_of, owners_in};

use crate::triples;
use tv_spec_plane::limits::MOST_TRIANGLES;
use tv_spec_plane::records::Triple;

/// How many triangles, and which.
#[derive(Clone, Copy, Debug, PartialEq, Eq)]
pub enum Found {
    /// None.
    Nothing,
    /// One, by its number.
    One(u32),
    /// Two, by their numbers, the lesser first.
    Two(u32, u32),
    /// Three or more.
    More,
}

/// The triangles that have both points.
#[tactic(auto, using(crate::proofs::Finding::finds_first))]
pub fn owners_of(triangles: &[Triple], a: u32, b: u32) -> Found
    requires { length triangles.now ≤ MOST_TRIANGLES }
    ensures { result ≡ found_of (owners_in triangles.now a b) }
{
    let mut found = Found::Nothing;
    for t in 0..triangles.len() as u32 {
        found = found_with(found, triangles, a, b, t);
    }
    found
}

fn found_with(found: Found, triangles: &[Triple], a: u32, b: u32, t: u32) -> Found
    ensures { result ≡ cond (owns triangles.now a b t) (and_also found t) found }
{
    if owns(triangles, a, b, t) {
        and_also(found, t)
    } else {
        found
    }
}

fn owns(triangles: &[Triple], a: u32, b: u32, t: u32) -> bool
    ensures { result ≡ owns triangles.now a b t }
{
    let triple = triples::triangle_at(triangles, t);
    triples::has(triple, a) && triples::has(triple, b)
}

fn and_also(found: Found, t: u32) -> Found
    ensures { result ≡ and_also found t }
{
    match found {
        Found::Nothing => Found::One(t),
        Found::One(s) => Found::Two(s, t),
        Found::Two(_, _) => Found::More,
        Found::More => Found::More,
    }
}
