//! The checks of points and triangles, in order. Limits of counts and numbers are asked of the caller.

ghost use Rattle.std.specs.Prelude.{◌≡◌, ◌≤◌, length, IsOkUnless, MatchResult, OnOk};
ghost use Rattle.tv_spec_plane.specs.Tiling.{Tiles};
ghost use Rattle.tv_laws_tiling.specs.Hull.{IsHull};
ghost use Rattle.tv_triangulation.specs.Checks.{AreListed};
ghost use Rattle.tv_triangulation.specs.Faults.{IsFullSet, AreSound, IsAnswer, IsEarlyAnswer, PassesChecks};

use crate::area::first_uneven;
use crate::edges::edges_of;
use crate::index::first_unlisted;
use crate::misfit::first_misfit;
use crate::triangulation::Triangulation;
use crate::turned::turned;
use std::alloc::Global;
use tv_hull::hull::known;
use tv_hull::{LatticeFault, hull_segments};
use tv_lattice::fault::{FileFault, InputError};
use tv_lattice::point::Point;
use tv_spec_plane::limits::{MOST_POINTS, MOST_TRIANGLES};
use tv_spec_plane::records::Triple;

/// The points with the turned triangles, or the first check that fails: equal points, a point that isn't there, points
/// on one line, a doubled area that isn't 1, a directed edge of two triangles, an edge that has no back and is no hull
/// segment, a hull segment that is no edge. So unimodular triangles over distinct points that are not on one line are
/// accepted exactly where they tile the hull. The least triangle or pair with the fault is named; want of memory may come at
/// any time.
pub fn triangulate(
    alloc: Global,
    points: &[Point],
    triangles: &[Triple],
) -> Result<Triangulation, InputError>
    requires points { length points.now ≤ MOST_POINTS }
    requires triangles { length triangles.now ≤ MOST_TRIANGLES }
    ensures checks { MatchResult result (PassesChecks points.now triangles.now) (IsAnswer points.now triangles.now) }
    ensures tiles { OnOk result (Tiles points.now triangles.now) }
    ensures accepts { AreSound points.now triangles.now → Tiles points.now triangles.now → IsOkUnless result InputError.Memory }
{
    known(points);
    let hull = hull_of(alloc, points, triangles)?;
    fitted(alloc, points, triangles, &hull)
}

// The same, once the hull is there.
fn fitted(
    alloc: Global,
    points: &[Point],
    triangles: &[Triple],
    hull: &[(u32, u32)],
) -> Result<Triangulation, InputError>
    requires points { length points.now ≤ MOST_POINTS }
    requires triangles { length triangles.now ≤ MOST_TRIANGLES }
    requires hull { IsHull points.now hull.now }
    requires spread { IsFullSet points.now }
    requires listed { AreListed points.now triangles.now }
    ensures { MatchResult result (PassesChecks points.now triangles.now) (IsAnswer points.now triangles.now) }
{
    if let Some((t, doubled)) = first_uneven(points, triangles) {
        return Err(refused(FileFault::Area(t as u32, doubled)));
    }
    let turned = turned(alloc, points, triangles)?;
    let edges = edges_of(alloc, &turned)?;
    if let Some(fault) = first_misfit(&turned, &edges, hull) {
        return Err(refused(fault));
    }
    let points = Vec::from_slice(alloc, points)?;
    Ok(Triangulation::new(points, turned))
}

// The hull of distinct points that are not on one line, where the triangles name listed points.
fn hull_of(
    alloc: Global,
    points: &[Point],
    triangles: &[Triple],
) -> Result<Vec<(u32, u32)>, InputError>
    requires points { length points.now ≤ MOST_POINTS }
    requires triangles { length triangles.now ≤ MOST_TRIANGLES }
    ensures { MatchResult result (λ h. IsHull points.now h.items × IsFullSet points.now × AreListed points.now triangles.now) (IsEarlyAnswer points.now triangles.now) }
{
    match hull_segments(alloc, points) {
        Ok(hull) => match first_unlisted(points, triangles) {
            None => Ok(hull),
            Some(t) => Err(refused(FileFault::Index(t as u32))),
        },
        Err(LatticeFault::Repeated(i, j)) => Err(refused(FileFault::Repeated(i, j))),
        Err(LatticeFault::Flat) => match first_unlisted(points, triangles) {
            None => Err(refused(FileFault::Flat)),
            Some(t) => Err(refused(FileFault::Index(t as u32))),
        },
        Err(LatticeFault::Memory) => Err(InputError::Memory),
    }
}

fn refused(fault: FileFault) -> InputError
    ensures { result ≡ InputError.Fault fault }
{
    InputError::Fault(fault)
}
