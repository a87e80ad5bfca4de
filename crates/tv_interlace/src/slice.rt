//! A slice: a column of cells at each place of a diagonal, those in the leg along z without end. It knows no legs and not
//! its diagonal.

ghost use Rattle.std.specs.Prelude.{◌≡◌, ◌+◌, ◌<◌, ◌^◌, length};
ghost use Rattle.std.proofs.Common.{rules};
ghost use Rattle.std.specs.Cmp.Rules.{comparing, hashing};
ghost use Rattle.std.specs.Hash as fed;
ghost use Rattle.tv_spec_slices.specs.Slices.{Shape, same_shape, at, reach};
ghost use Rattle.tv_spec_slices.specs.Paths.{shape};

use std::alloc::AllocError;
use std::hash::{Hash, Hasher};
use std::marker::Model;

/// The number of places at its front whose column has no end, and the heights of the further columns. It has fewer than 2^31
/// places.
#[derive(Drop, Debug)]
pub struct Slice {
    full: u32,
    heights: Vec<u32>,
}

impl Model for Slice {
    ghost Value = { Shape };

    ghost view = { λ s. shape s.full s.heights.items };

    ghost invariant = { λ s. s.full + length s.heights.items < 2 ^ 31 };
}

impl PartialEq for Slice {
    ghost eq = { same_shape };

    ghost laws = { Prim.search (comparing, rules) };

    fn eq(&self, other: &Slice) -> bool {
        self.full() == other.full() && self.heights() == other.heights()
    }
}

impl Eq for Slice {
    ghost laws = { Prim.search (comparing, rules) };
}

impl Hash for Slice {
    ghost hash_input = { λ s. fed.slice fed.u32 s.heights };

    ghost respects_eq = { Prim.search (hashing, rules) };

    fn hash<H: Hasher>(&self, state: &mut H) {
        self.heights().hash(state);
    }
}

impl Clone for Slice {
    ghost is_clone = { λ s copy. copy ≡ s };

    fn clone(&self) -> Result<Slice, AllocError> {
        let heights = self.heights().to_vec(*self.heights.allocator())?;
        Ok(Slice {
            full: self.full,
            heights,
        })
    }
}

impl Slice {
    /// The slice with that many places without end, and columns of these heights after them.
    pub fn new(full: u32, heights: Vec<u32>) -> Slice
        requires { full + length heights.items < 2 ^ 31 }
        ensures { result ≡ shape full heights.items }
    {
        Slice { full, heights }
    }

    /// The number of places whose column has no end.
    pub fn full(&self) -> u32
        ensures { result ≡ self.now.full }
    {
        self.full
    }

    /// The heights of the columns after them, that of the first place first.
    pub fn heights(&self) -> &[u32]
        ensures { result.now ≡ self.now.heights }
    {
        self.heights.as_slice()
    }

    /// The height at place d, 0 past the last one; it says nothing at a place without end.
    pub fn at(&self, d: u32) -> u32
        ensures { result ≡ at self.now d }
    {
        match self.heights.get(d.saturating_sub(self.full) as usize) {
            Some(height) => *height,
            None => 0,
        }
    }

    /// The number of places up to the last column, below 2^31.
    pub fn reach(&self) -> u32
        ensures value { result ≡ reach self.now }
        ensures bound { result < 2 ^ 31 }
    {
        self.full + self.heights.len() as u32
    }
}
