//! A search for the sets of extras of one corner, cell by cell: each cell is taken first, and left out after that. It holds the
//! cells that are chosen now, and the places at which they stand among the cells, which are its open choices.

ghost use Rattle.std.specs.Prelude.{◌≡◌, ◌≤◌, ◌<◌, ◌∷◌, [], true, false, length, IfOk, MatchResult};
ghost use Rattle.tv_cells.specs.Cells.{rises};
ghost use Rattle.tv_cells.specs.Cuts.{extras_after, enters};
ghost use Rattle.tv_extras.specs.Search.{to_come, Finds, IsAtSet, IsAhead, IsNext, IsSearch, IsSame, IsFurther, IsMoved};

use std::alloc::{AllocError, Global};
use tv_cells::cell::Cell;
use tv_cells::legs::Legs;
use tv_cells::{cuts, extras};

/// The greatest number of boxes of a set.
pub const MOST_BOXES: u32 = 16_777_216;

/// What is chosen, and where the search stands: before the cell at place `at` where it goes forward, else behind the last choice.
#[derive(Drop)]
pub struct Search {
    legs: Legs,
    cells: Vec<Cell>,
    chosen: Vec<Cell>,
    places: Vec<usize>,
    at: usize,
    left: u32,
    forward: bool,
}

enum Move {
    Further,
    Found,
    Ended,
}

impl Search {
    /// The search for all sets of `size` of the cells.
    pub fn start(alloc: Global, legs: Legs, cells: Vec<Cell>, size: u32) -> Search
        requires order { rises cells.items ≡ true }
        requires few { size ≤ MOST_BOXES }
        ensures valid { IsSearch result }
        ensures legs { result.legs ≡ legs }
        ensures cells { result.cells.items ≡ cells.items }
        ensures value { to_come result ≡ extras_after legs [] cells.items size }
    {
        Search {
            legs,
            cells,
            chosen: Vec::new(alloc),
            places: Vec::new(alloc),
            at: 0,
            left: size,
            forward: true,
        }
    }

    /// Begins again, with the sets of `size` of the same cells.
    pub fn restart(&mut self, size: u32)
        requires valid { IsSearch self.old }
        requires few { size ≤ MOST_BOXES }
        ensures valid { IsSearch self.new }
        ensures legs { self.new.legs ≡ self.old.legs }
        ensures cells { self.new.cells.items ≡ self.old.cells.items }
        ensures value { to_come self.new ≡ extras_after self.old.legs [] self.old.cells.items size }
    {
        self.chosen.clear();
        self.places.clear();
        self.at = 0;
        self.left = size;
        self.forward = true;
    }

    /// The chosen cells, in their order.
    pub fn chosen(&self) -> &[Cell]
        ensures { result.now ≡ self.now.chosen.items }
    {
        self.chosen.as_slice()
    }

    /// A copy of the chosen cells.
    pub fn copy(&self) -> Result<Vec<Cell>, AllocError>
        ensures { IfOk result (λ set. set.items ≡ self.now.chosen.items) }
    {
        self.chosen.to_vec(*self.chosen.allocator())
    }

    /// Goes on to the next set, which then is that of the chosen cells, or tells that no more come.
    pub fn find(&mut self) -> Result<bool, AllocError>
        requires { IsSearch self.old }
        ensures same { IsSame self.old self.new }
        ensures found { IfOk result (λ b. Finds b self.new) }
    {
        loop {
            match self.step()? {
                Move::Further => {}
                Move::Found => return Ok(true),
                Move::Ended => return Ok(false),
            }
        }
    }

    /// Goes behind the set that was found. The chosen cells stay until the next one is looked for.
    pub fn pass(&mut self)
        requires valid { IsSearch self.old }
        requires found { IsAtSet self.old }
        ensures valid { IsSearch self.new }
        ensures legs { self.new.legs ≡ self.old.legs }
        ensures cells { self.new.cells.items ≡ self.old.cells.items }
        ensures chosen { self.new.chosen.items ≡ self.old.chosen.items }
        ensures passed { to_come self.old ≡ self.old.chosen.items ∷ to_come self.new }
    {
        self.forward = false;
    }

    fn step(&mut self) -> Result<Move, AllocError>
        requires { IsSearch self.old }
        ensures { MatchResult result (λ m. IsMoved m self.old self.new) (λ _. IsSame self.old self.new) }
    {
        if !self.forward {
            return Ok(self.back());
        }
        if self.left == 0 {
            return Ok(self.arrive());
        }
        if self.at == self.cells.len() {
            self.stop();
            return Ok(Move::Further);
        }
        self.decide()?;
        Ok(Move::Further)
    }

    // Where all cells are chosen: they are extras, or nothing comes here.
    fn arrive(&mut self) -> Move
        requires valid { IsSearch self.old }
        requires forward { self.old.forward ≡ true }
        requires all { self.old.left ≡ 0 }
        ensures { IsMoved result self.old self.new }
    {
        if extras::is_extras(&self.legs, self.chosen.as_slice()) {
            return Move::Found;
        }
        self.forward = false;
        Move::Further
    }

    // Where no cells are left.
    fn stop(&mut self)
        requires valid { IsSearch self.old }
        requires forward { self.old.forward ≡ true }
        requires short { 0 < self.old.left }
        requires none { self.old.at ≡ length self.old.cells.items }
        ensures { IsFurther self.old self.new }
    {
        self.forward = false;
    }

    // Behind the last choice: its cell is left out.
    fn back(&mut self) -> Move
        requires valid { IsSearch self.old }
        requires behind { self.old.forward ≡ false }
        ensures { IsMoved result self.old self.new }
    {
        let Some(place) = self.places.pop() else {
            return Move::Ended;
        };
        let Some(cell) = self.chosen.pop() else {
            return Move::Ended;
        };
        self.left += 1;
        self.at = place + 1;
        self.forward = !cuts::leaves_gap(&self.legs, self.chosen.as_slice(), cell);
        Move::Further
    }

    // Before a cell: it is taken where it can enter, else left out.
    fn decide(&mut self) -> Result<(), AllocError>
        requires { IsAhead self.old }
        ensures { MatchResult result (λ _. IsFurther self.old self.new) (λ _. IsSame self.old self.new) }
    {
        let cell = self.cells[self.at];
        if cuts::enters(&self.legs, self.chosen.as_slice(), cell) {
            return self.take(cell);
        }
        self.leave(cell);
        Ok(())
    }

    fn take(&mut self, cell: Cell) -> Result<(), AllocError>
        requires ahead { IsAhead self.old }
        requires next { IsNext self.old cell }
        ensures { MatchResult result (λ _. IsFurther self.old self.new) (λ _. IsSame self.old self.new) }
    {
        self.chosen.push(cell)?;
        let Ok(()) = self.places.push(self.at) else {
            let _ = self.chosen.pop();
            return Err(AllocError);
        };
        self.at += 1;
        self.left -= 1;
        Ok(())
    }

    fn leave(&mut self, cell: Cell)
        requires ahead { IsAhead self.old }
        requires next { IsNext self.old cell }
        requires refused { enters self.old.legs self.old.chosen.items cell ≡ false }
        ensures { IsFurther self.old self.new }
    {
        self.at += 1;
        self.forward = !cuts::leaves_gap(&self.legs, self.chosen.as_slice(), cell);
    }
}
