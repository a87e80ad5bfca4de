//! Heights as keys of a map: those of a slice, and those with another height at one place.

ghost use Rattle.std.specs.Prelude.{◌≡◌, ◌+◌, ◌<◌, ◌≤◌, ◌^◌, IfOk};
ghost use Rattle.tv_laws_series.specs.Terms.{listed};
ghost use Rattle.tv_spec_slices.specs.Slices.{at};
ghost use Rattle.tv_laws_sums.specs.Mixed.{value, put};
ghost use Rattle.tv_sums.specs.Keys.{key, cut_from, cut};

use std::alloc::{AllocError, Global};
use tv_interlace::slice::Slice;
use tv_partition::diagram::MOST_CELLS;

/// The heights of the slice at the first n places.
pub fn key_of(alloc: Global, a: &Slice, top: u32, n: u32) -> Result<Slice, AllocError>
    requires { n < 2 ^ 30 }
    ensures { IfOk result (λ s. s ≡ key (value top a.now) n) }
{
    let mut heights = Vec::new(alloc);
    for d in 0..n {
        heights.push(value(a, top, d))?;
    }
    Ok(Slice::new(0, heights))
}

fn value(a: &Slice, top: u32, d: u32) -> u32
    ensures { result ≡ value top a.now d }
{
    if d < a.full() { top } else { a.at(d) }
}

/// The heights of s with the height y at place p.
pub fn with_height(alloc: Global, s: &Slice, n: u32, p: u32, y: u32) -> Result<Slice, AllocError>
    requires { n < 2 ^ 30 }
    ensures { IfOk result (λ k. k ≡ key (put (at s.now) p y) n) }
{
    let mut heights = Vec::new(alloc);
    for d in 0..n {
        heights.push(height_at(s, p, y, d))?;
    }
    Ok(Slice::new(0, heights))
}

fn height_at(s: &Slice, p: u32, y: u32, d: u32) -> u32
    ensures { result ≡ put (at s.now) p y d }
{
    if d == p { y } else { s.at(d) }
}

/// The slice with that many places without end, and behind them the heights of s before place n, up to the first 0.
pub fn cut(alloc: Global, s: &Slice, full: u32, n: u32) -> Result<Slice, AllocError>
    requires short { n < 2 ^ 30 }
    requires front { full ≤ MOST_CELLS }
    ensures { IfOk result (λ b. b ≡ cut (at s.now) full n) }
{
    let mut heights = Vec::new(alloc);
    for i in 0..n.saturating_sub(full) {
        let height = s.at(full + i);
        if height == 0 {
            return Ok(Slice::new(full, heights));
        }
        heights.push(height)?;
    }
    Ok(Slice::new(full, heights))
}
