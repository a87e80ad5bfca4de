//! All diagrams of a size, numbered from 0: the greater first where two differ. It makes them all at once, and holds no
//! other sizes.

ghost use Rattle.std.specs.Prelude.{◌≡◌, ℕ, ◌<◌, ◌≤◌, ◌↔◌, [], Some, length, nat_eq, slice_get, IsSome, IfSome, IfOk};
ghost use Rattle.std.specs.Option.{option_copied};
ghost use Rattle.std.specs.Cmp.Lexicographic.{pointwise};
ghost use Rattle.indexmap.specs.IndexSet.{insert_all};
ghost use Rattle.tv_partition.specs.Rows.{size, diagrams};

use crate::diagram::{Diagram, MOST_CELLS};
use crate::listing;
use indexmap::IndexSet;
use std::alloc::{AllocError, Global};
use std::marker::Model;

/// All diagrams of one size, each at its place in the order.
#[derive(Drop)]
pub struct Diagrams {
    size: u32,
    set: IndexSet<Diagram>,
}

impl Model for Diagrams {
    ghost Value = { ℕ };

    ghost view = { λ a. a.size };

    ghost invariant = { λ a. a.set.keys ≡ diagrams a.size };
}

/// Every diagram of that size, in the order of `diagrams`.
pub fn all_of(alloc: Global, size: u32) -> Result<Diagrams, AllocError>
    requires { size ≤ MOST_CELLS }
    ensures { IfOk result (λ all. all ≡ size) }
{
    let set = numbered(alloc, listing::diagrams_of(alloc, size)?)?;
    Ok(Diagrams { size, set })
}

fn numbered(alloc: Global, all: Vec<Diagram>) -> Result<IndexSet<Diagram>, AllocError>
    ensures { IfOk result (λ set. set.keys ≡ insert_all (pointwise nat_eq) [] all.items) }
{
    all.into_iter().collect(alloc)
}

impl Diagrams {
    /// The number of cells of each of them.
    pub fn size(&self) -> u32
        ensures { result ≡ self.now }
    {
        self.size
    }

    /// How many they are: the number of partitions of the size.
    pub fn len(&self) -> usize
        ensures { result ≡ length (diagrams self.now) }
    {
        self.set.len()
    }

    /// The diagram at that place, counted from 0; None beyond the last.
    pub fn at(&self, k: usize) -> Option<&Diagram>
        ensures exists { IsSome result ↔ (k < length (diagrams self.now)) }
        ensures value { option_copied result ≡ slice_get (diagrams self.now) k }
    {
        self.set.get_index(k)
    }

    /// The place of the diagram.
    pub fn number(&self, d: &Diagram) -> Option<usize>
        ensures exists { IsSome result ↔ (size d.now ≡ self.now) }
        ensures value { IfSome result (λ k. slice_get (diagrams self.now) k ≡ Some d.now) }
    {
        d.known();
        self.set.get_index_of(d)
    }
}
