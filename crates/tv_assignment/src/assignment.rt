//! A diagram for each compact edge of a web. It knows no web.

ghost use Rattle.std.specs.Prelude.{◌≡◌};

use std::marker::Model;
use tv_partition::diagram::Diagram;

/// The diagrams in the order of edges.
#[derive(Drop, Debug)]
pub struct Assignment {
    diagrams: Vec<Diagram>,
}

impl Model for Assignment {
    ghost use Rattle.std.specs.Prelude.{List, ℕ};

    ghost Value = { List (List ℕ) };

    ghost view = { λ a. a.diagrams.items };
}

impl Assignment {
    /// The assignment with these diagrams on the edges, in order.
    pub fn new(diagrams: Vec<Diagram>) -> Assignment
        ensures { result ≡ diagrams.items }
    {
        Assignment { diagrams }
    }

    /// The diagrams, in the order of edges.
    pub fn diagrams(&self) -> &[Diagram]
        ensures { result.now ≡ self.now }
    {
        self.diagrams.as_slice()
    }
}
