//! The first two places of one point. Whether points lie on a line is told elsewhere.

ghost use Rattle.std.specs.Prelude.{◌≡◌, ◌<◌, ◌≤◌, length, MatchOption, ℕ};
ghost use Rattle.tv_hull.specs.Pairs.{IsFirst, IsFirstPair};
ghost use Rattle.tv_laws_tiling.specs.Points.{AreDistinct};
ghost use Rattle.tv_hull.specs.Points.{IsRepeat};

use tv_lattice::point::Point;
use tv_spec_plane::limits::MOST_POINTS;

/// The first pair of equal points.
pub fn first_repeat(points: &[Point]) -> Option<(u32, u32)>
    requires { length points.now ≤ MOST_POINTS }
    ensures { MatchOption result (AreDistinct points.now) (λ p. IsFirstPair (IsRepeat points.now) p.0 p.1) }
{
    for i in 0..points.len() {
        if let Some(j) = next_repeat(points, i) {
            return Some((i as u32, j as u32));
        }
    }
    None
}

// The next place of point i.
fn next_repeat(points: &[Point], i: usize) -> Option<usize>
    requires { i < length points.now }
    ensures { MatchOption result ((j : ℕ) → IsRepeat points.now i j → ⊥) (λ j. IsFirst (IsRepeat points.now i) j) }
{
    for j in i + 1..points.len() {
        if points[i] == points[j] {
            return Some(j);
        }
    }
    None
}
