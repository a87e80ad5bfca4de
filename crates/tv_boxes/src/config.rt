//! One configuration of boxes, apart from the lister that gave it.

ghost use Rattle.std.specs.Prelude.{◌≡◌, map, vec_items, IfOk};
ghost use Rattle.tv_spec_boxes.specs.Configurations.{configuration};

use std::alloc::{AllocError, Global};
use std::marker::Model;
use tv_assignment::Assignment;
use tv_cells::cell::Cell;
use tv_extras::fillings::Fillings;
use tv_partition::diagram::Diagram;

/// A diagram for each compact edge, in the order of edges, and the extras of each corner, in the order of corners and of cells.
#[derive(Drop)]
pub struct Config {
    legs: Vec<Diagram>,
    extras: Vec<Vec<Cell>>,
}

impl Model for Config {
    ghost use Rattle.std.specs.Prelude.{map, vec_items};
    ghost use Rattle.tv_spec_boxes.specs.Configurations.{Configuration, configuration};

    ghost Value = { Configuration };

    ghost view = { λ c. configuration c.legs.items (map vec_items c.extras.items) };
}

impl Config {
    /// The diagrams of the compact edges, in the order of edges.
    pub fn legs(&self) -> &[Diagram]
        ensures { result.now ≡ self.now.diagrams }
    {
        self.legs.as_slice()
    }

    /// The extras of the corners, in the order of corners; those of one corner in the order of cells.
    pub fn extras(&self) -> &[Vec<Cell>]
        ensures { map vec_items result.now ≡ self.now.extras }
    {
        self.extras.as_slice()
    }
}

/// The configuration of the assignment and of the filling that was reached last.
pub(crate) fn copy_of(
    alloc: Global,
    assignment: &Assignment,
    fillings: &Fillings,
) -> Result<Config, AllocError>
    ensures { IfOk result (λ c. c ≡ configuration assignment.now fillings.now.current) }
{
    let legs = assignment.diagrams().to_vec(alloc)?;
    let extras = sets_of(alloc, fillings)?;
    Ok(Config { legs, extras })
}

// A copy of the set at each corner.
fn sets_of(alloc: Global, fillings: &Fillings) -> Result<Vec<Vec<Cell>>, AllocError>
    ensures { IfOk result (λ sets. map vec_items sets.items ≡ fillings.now.current) }
{
    let mut sets = Vec::new(alloc);
    for corner in 0..fillings.len() {
        sets.push(fillings.at(corner).to_vec(alloc)?)?;
    }
    Ok(sets)
}
