//! The sets of extras of one corner by rising numbers of boxes, from a first number up to a last one: those of fewer boxes
//! first. It begins again with other numbers and takes no memory for that.

ghost use Rattle.std.specs.Prelude.{◌≡◌, ◌-◌, ◌≤◌, suc, IfOk, MatchResult};
ghost use Rattle.std.specs.List.{flat_map, range_with_len};
ghost use Rattle.tv_extras.specs.Sized.{SizedSet, all_of_size, sized, IsSized, IsSizedSame, Advances};

use crate::search::{MOST_BOXES, Search};
use crate::worth;
use std::alloc::{AllocError, Global};
use tv_cells::cell::Cell;
use tv_cells::legs::Legs;

/// A search that goes through the numbers of boxes: `size` is that of the sets it is at.
#[derive(Drop)]
pub struct SizedSets {
    search: Search,
    size: u32,
    last: u32,
    most: u32,
}

impl SizedSets {
    /// The one set without boxes, ready to begin again with numbers of at most `most` boxes.
    pub fn start(alloc: Global, legs: Legs, most: u32) -> Result<SizedSets, AllocError>
        requires { most ≤ MOST_BOXES }
        ensures valid { IfOk result (λ s. IsSized s) }
        ensures legs { IfOk result (λ s. s.search.legs ≡ legs) }
        ensures most { IfOk result (λ s. s.most ≡ most) }
        ensures full { IfOk result (λ s. s.size ≡ s.last) }
    {
        legs.known();
        let cells = worth::worth_cells(alloc, &legs, most)?;
        Ok(SizedSets {
            search: Search::start(alloc, legs, cells, 0),
            size: 0,
            last: 0,
            most,
        })
    }

    /// Begins again, with all sets of `first` boxes, of one more, .., of `last` boxes.
    pub fn restart(&mut self, first: u32, last: u32)
        requires valid { IsSized self.old }
        requires first { first ≤ last }
        requires last { last ≤ self.old.most }
        ensures valid { IsSized self.new }
        ensures legs { self.new.search.legs ≡ self.old.search.legs }
        ensures most { self.new.most ≡ self.old.most }
        ensures size { self.new.size ≡ first }
        ensures last { self.new.last ≡ last }
        ensures value { sized self.new ≡ flat_map (all_of_size self.old.search.legs self.old.most) (range_with_len first (suc (last - first))) }
    {
        self.search.restart(first);
        self.size = first;
        self.last = last;
    }

    /// Goes on to the next set, which then is `chosen`, or tells that no more come.
    pub fn advance(&mut self) -> Result<bool, AllocError>
        requires { IsSized self.old }
        ensures { MatchResult result (λ found. Advances found self.old self.new) (λ _. IsSizedSame self.old self.new) }
    {
        loop {
            if self.search.find()? {
                self.search.pass();
                return Ok(true);
            }
            if self.size == self.last {
                return Ok(false);
            }
            self.size += 1;
            self.search.restart(self.size);
        }
    }

    /// The set that was found last, its cells in order.
    pub fn chosen(&self) -> &[Cell]
        ensures { result.now ≡ self.now.search.chosen.items }
    {
        self.search.chosen()
    }

    /// How many boxes the last number has beside the set that was found last.
    pub fn left(&self) -> u32
        requires { IsSized self.now }
        ensures value { result ≡ self.now.last - self.now.size }
        ensures bound { result ≤ self.now.most }
    {
        self.last - self.size
    }
}
