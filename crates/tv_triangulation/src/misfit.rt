//! The first fault of the edges of turned triangles, among themselves and against the hull. Points are not seen here.

ghost use Rattle.std.specs.Prelude.{◌≡◌, ◌≤◌, length, MatchOption};
ghost use Rattle.tv_laws_tiling.specs.Edges.{edges as edges_in};
ghost use Rattle.tv_triangulation.specs.Checks.{IsListedIn};
ghost use Rattle.tv_triangulation.specs.Faults.{IsMisfit, Fits};

use crate::pairs::{first_bare, first_unmatched};
use crate::twice::first_twice;
use tv_lattice::fault::FileFault;
use tv_spec_plane::limits::MOST_TRIANGLES;
use tv_spec_plane::records::Triple;

/// The first fault of the edges of turned triangles: a common edge, one without its back, a bare hull segment.
pub fn first_misfit(
    turned: &[Triple],
    edges: &[(u32, u32)],
    hull: &[(u32, u32)],
) -> Option<FileFault>
    requires edges { edges.now ≡ edges_in turned.now }
    requires count { length turned.now ≤ MOST_TRIANGLES }
    ensures { MatchOption result (Fits (IsListedIn hull.now) turned.now) (IsMisfit (IsListedIn hull.now) turned.now) }
{
    if let Some((t, u)) = first_twice(turned) {
        return Some(FileFault::Twice(t, u));
    }
    if let Some((a, b)) = first_unmatched(edges, hull) {
        return Some(FileFault::Unmatched(a, b));
    }
    if let Some((a, b)) = first_bare(edges, hull) {
        return Some(FileFault::Bare(a, b));
    }
    None
}
