//! The three legs of a corner. The leg along z has the cells (x, y) of its diagram at every z, that along y the cells
//! (x, z), and that along x the cells (y, z).

ghost use Rattle.std.specs.Prelude.{◌≡◌, ◌≤◌};
ghost use Rattle.tv_partition.specs.Rows.{IsSmall};
ghost use Rattle.tv_cells.specs.Extras.{AreDiagrams, extent};

use tv_partition::diagram::{Diagram, MOST_CELLS};

/// The diagrams of the legs along the three axes, each by the two other coordinates in the order x, y, z.
#[derive(Clone, Debug, Drop, PartialEq, Eq, Hash)]
pub struct Legs {
    pub along_x: Diagram,
    pub along_y: Diagram,
    pub along_z: Diagram,
}

impl Legs {
    /// The least number below which both entries of every cell of the three diagrams are.
    pub fn extent(&self) -> u32
        ensures value { result ≡ extent self.now }
        ensures bound { result ≤ MOST_CELLS }
    {
        self.along_x
            .reach()
            .max(self.along_y.reach().max(self.along_z.reach()))
    }

    /// Tells that each leg is a diagram of at most `MOST_CELLS` cells, and does nothing.
    pub fn known(&self)
        ensures diagrams { AreDiagrams self.now }
        ensures along_x { IsSmall self.now.along_x }
        ensures along_y { IsSmall self.now.along_y }
        ensures along_z { IsSmall self.now.along_z }
    {
        let _ = self.along_x.rows();
        let _ = self.along_y.rows();
        let _ = self.along_z.rows();
    }
}
