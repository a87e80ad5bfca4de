//! The ways up to each slice of each diagonal of a corner, where at most so many boxes stand beside its legs.

ghost use Rattle.std.specs.Prelude.{◌≡◌, ℕ, ◌+◌, ◌*◌, ◌<◌, ◌≤◌, ◌^◌, pos, ◌-ℤ◌, map, IfOk, IsErrOf};
ghost use Rattle.tv_ring.specs.Operations.{limit};
ghost use Rattle.tv_cells.specs.Extras.{extent, count};
ghost use Rattle.tv_paths.specs.Counts.{path_counts};
ghost use Rattle.tv_paths.specs.Built.{Built, nearest};

use crate::counts::{PathCount, counted};
use std::alloc::Global;
use std::marker::Model;
use tv_cells::legs::Legs;
use tv_ring::{Ring, RingFault};
use tv_slices::first::{diagonal_at, first_table};
use tv_slices::table::next_table;

/// The entries of the diagonals of a corner, seen as its legs and the number of boxes.
#[derive(Drop)]
pub struct Slices<C: Ring> {
    legs: Legs,
    k: u32,
    far: u32,
    diagonals: Vec<Vec<PathCount<C>>>,
}

impl<C: Ring> Model for Slices<C> {
    ghost use Rattle.std.specs.Prelude.{map};
    ghost use Rattle.tv_paths.specs.Built.{Built, IsBuilt};

    ghost Value = { Built };

    ghost view = { λ s. record { legs = s.legs; k = s.k } };

    ghost invariant = { λ s. IsBuilt C.ring s.legs s.k s.far (map (λ v. v.items) s.diagonals.items) };
}

impl<C: Ring> Slices<C> {
    /// The tables of all diagonals where at most `k` boxes stand beside the legs.
    pub fn build(alloc: Global, legs: &Legs, k: u32) -> Result<Slices<C>, RingFault>
        requires { k < 2 ^ 29 }
        ensures value { IfOk result (λ s. s ≡ record { legs = legs.now; k = k }) }

        // Wide only where one of the numbers of sets of at most k boxes, times the size of one, exceeds the limit.
        ensures wide { IsErrOf result RingFault.Wide → (i : ℕ) × (i ≤ k) × (limit < count legs.now i * C.ring.size C.ring.unit) }
    {
        legs.known();
        let far = k + legs.extent();
        let mut table = first_table(alloc, legs, k, far)?;
        let mut diagonals = Vec::new(alloc);
        diagonals.push(counted(alloc, legs, k, diagonal_at(0, far), &table)?)?;
        for i in 0..2 * far {
            table = next_table(alloc, legs, k, diagonal_at(i, far), &table)?;
            diagonals.push(counted(alloc, legs, k, diagonal_at(i + 1, far), &table)?)?;
        }
        Ok(Slices {
            legs: legs.clone()?,
            k,
            far,
            diagonals,
        })
    }

    /// The legs of the corner.
    pub fn legs(&self) -> &Legs
        ensures { result.now ≡ self.now.legs }
    {
        &self.legs
    }

    /// The greatest number of boxes.
    pub fn k(&self) -> u32
        ensures { result ≡ self.now.k }
    {
        self.k
    }

    /// The entries of the diagonal t: the slices and costs to which some ways lead that can be completed with at most k boxes
    /// in all. A way chooses a slice on each diagonal below, such that neighbours interlace; its cost is the number of boxes of
    /// all its slices, the last one too. They are ordered by slice, then by cost: slices of fewer boxes first, and of two that
    /// have equally many the one with the greater list of heights.
    pub fn paths(&self, t: i64) -> &[PathCount<C>]
        ensures { result.now ≡ path_counts C.ring self.now.legs self.now.k t }
    {
        self.legs.known();
        let _ = self.legs.extent();
        let place = place_of(t, self.far);
        self.diagonals[place as usize].as_slice()
    }
}

/// The number of the nearest diagonal from -far to far, of which the first is 0.
fn place_of(t: i64, far: u32) -> u32
    requires { far < 2 ^ 29 + 50 }
    ensures value { pos result -ℤ pos far ≡ nearest far t }
    ensures within { result ≤ 2 * far }
{
    let end = i64::from(far);
    if t < -end {
        0
    } else if t > end {
        2 * far
    } else {
        (t + end) as u32
    }
}
