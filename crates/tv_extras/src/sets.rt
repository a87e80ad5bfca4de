//! The sets of extras of one corner with a given number of boxes, one after the other, in order.

ghost use Rattle.std.specs.Prelude.{◌≡◌, ◌≤◌, ℕ, List, [], ◌∷◌, IfOk, MatchOption, MatchResult};
ghost use Rattle.tv_cells.specs.declared.cell.Cell.{Cell as CellOf};
ghost use Rattle.tv_spec_boxes.specs.Configurations.{extras_of};
ghost use Rattle.tv_extras.specs.Search.{to_come, IsSearch};

use crate::search::{MOST_BOXES, Search};
use crate::worth;
use std::alloc::{AllocError, Global};
use std::marker::Model;
use tv_cells::cell::Cell;
use tv_cells::legs::Legs;

/// The sets that are still to come.
#[derive(Drop)]
pub struct Sets {
    search: Search,
}

impl Model for Sets {
    ghost Value = { List (List CellOf) };

    ghost view = { λ s. to_come s.search };

    ghost invariant = { λ s. IsSearch s.search };
}

impl Sets {
    /// All sets of `boxes` extras of the legs, from whatever cube of that side or a greater one: by their cells, the set with
    /// the earlier cell first.
    pub fn start(alloc: Global, legs: Legs, boxes: u32) -> Result<Sets, AllocError>
        requires { boxes ≤ MOST_BOXES }
        ensures { IfOk result (λ sets. (side : ℕ) → boxes ≤ side → sets ≡ extras_of legs side boxes) }
    {
        legs.known();
        let cells = worth::worth_cells(alloc, &legs, boxes)?;
        let search = Search::start(alloc, legs, cells, boxes);
        Ok(Sets { search })
    }

    /// The next set, its cells in order; None where no more come, then and ever after. Where memory fails the sets to come stay
    /// the same, so that the next call gives what this one would have given.
    pub fn next(&mut self) -> Result<Option<Vec<Cell>>, AllocError>
        ensures { MatchResult result (λ next. MatchOption next ((self.old ≡ []) × (self.new ≡ [])) (λ set. self.old ≡ set.items ∷ self.new)) (λ _. self.new ≡ self.old) }
    {
        if !self.search.find()? {
            return Ok(None);
        }
        let set = self.search.copy()?;
        self.search.pass();
        Ok(Some(set))
    }
}
