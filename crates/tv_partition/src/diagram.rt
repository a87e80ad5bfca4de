//! A diagram of at most `MOST_CELLS` cells, as the list of its rows. Row i is the number of cells whose first entry is i.

ghost use Rattle.std.specs.Prelude.{◌≡◌, ℕ, ◌≤◌, ◌↔◌, List, [], nat_eq, slice_index, IsSome, IfSome, IfOk};
ghost use Rattle.std.proofs.Common.{rules};
ghost use Rattle.std.specs.Cmp.Lexicographic.{pointwise};
ghost use Rattle.std.specs.Cmp.Rules.{comparing, hashing};
ghost use Rattle.std.specs.Hash as fed;
ghost use Rattle.tv_partition.specs.Rows.{IsSmall, size, has, reach, flipped};

use crate::shape;
use std::alloc::{AllocError, Global};
use std::hash::{Hash, Hasher};
use std::marker::Model;

/// The greatest number of cells of a diagram.
pub const MOST_CELLS: u32 = 24;

/// A partition as a diagram: rows that fall weakly, none of them 0, with at most `MOST_CELLS` cells in all.
#[derive(Drop, Debug)]
pub struct Diagram {
    rows: Vec<u32>,
}

impl Model for Diagram {
    ghost Value = { List ℕ };

    ghost view = { λ d. d.rows.items };

    ghost invariant = { λ d. IsSmall d.rows.items };
}

impl PartialEq for Diagram {
    ghost eq = { pointwise nat_eq };

    ghost laws = { Prim.search (comparing, rules) };

    fn eq(&self, other: &Diagram) -> bool {
        self.rows() == other.rows()
    }
}

impl Eq for Diagram {
    ghost laws = { Prim.search (comparing, rules) };
}

impl Hash for Diagram {
    ghost hash_input = { fed.slice fed.u32 };

    ghost respects_eq = { Prim.search (hashing, rules) };

    fn hash<H: Hasher>(&self, state: &mut H) {
        self.rows().hash(state);
    }
}

impl Clone for Diagram {
    ghost is_clone = { λ d copy. copy ≡ d };

    fn clone(&self) -> Result<Diagram, AllocError> {
        let rows = self.rows().to_vec(*self.rows.allocator())?;
        Ok(Diagram { rows })
    }
}

impl Diagram {
    /// The diagram with these rows, the row of first entry 0 first.
    pub fn new(rows: Vec<u32>) -> Option<Diagram>
        ensures exists { IsSome result ↔ IsSmall rows.items }
        ensures value { IfSome result (λ d. d ≡ rows.items) }
    {
        if shape::is_small(rows.as_slice()) {
            Some(Diagram { rows })
        } else {
            None
        }
    }

    /// The diagram with these rows, which are known to be those of one.
    pub fn of_rows(rows: Vec<u32>) -> Diagram
        requires { IsSmall rows.items }
        ensures { result ≡ rows.items }
    {
        Diagram { rows }
    }

    /// The diagram without cells. It takes no memory.
    pub fn empty(alloc: Global) -> Diagram
        ensures { result ≡ [] }
    {
        Diagram {
            rows: Vec::new(alloc),
        }
    }

    /// Tells that it is a diagram of at most `MOST_CELLS` cells, and does nothing.
    pub fn known(&self)
        ensures { IsSmall self.now }
    {
        let _ = &self.rows;
    }

    /// The rows, that of first entry 0 first.
    pub fn rows(&self) -> &[u32]
        ensures value { result.now ≡ self.now }
        ensures small { IsSmall self.now }
    {
        self.rows.as_slice()
    }

    /// The number of cells, at most `MOST_CELLS`.
    pub fn size(&self) -> u32
        ensures value { result ≡ size self.now }
        ensures bound { result ≤ MOST_CELLS }
    {
        shape::size(self.rows.as_slice())
    }

    /// The number of cells with first entry i.
    #[tactic(auto, using(crate::proofs::Bounds::bounds))]
    pub fn row(&self, i: u32) -> u32
        ensures value { result ≡ slice_index self.now i }
        ensures bound { result ≤ MOST_CELLS }
    {
        shape::row(self.rows.as_slice(), i)
    }

    /// The diagram with the two entries of each cell exchanged.
    pub fn flip(&self) -> Result<Diagram, AllocError>
        ensures rows { IfOk result (λ d. d ≡ flipped self.now) }
        ensures exchanged { IfOk result (λ d. (i j : ℕ) → has d j i ≡ has self.now i j) }
        ensures size { IfOk result (λ d. size d ≡ size self.now) }
    {
        let rows = shape::flipped(*self.rows.allocator(), self.rows.as_slice())?;
        Ok(Diagram { rows })
    }

    /// The least number that no entry of a cell reaches.
    pub fn reach(&self) -> u32
        ensures value { result ≡ reach self.now }
        ensures bound { result ≤ MOST_CELLS }
    {
        shape::reach(self.rows.as_slice())
    }

    /// Whether the cell (i, j) is in the diagram: row i has more than j cells.
    pub fn contains(&self, i: u32, j: u32) -> bool
        ensures { result ≡ has self.now i j }
    {
        shape::has(self.rows.as_slice(), i, j)
    }
}
