//! The order of diagrams and of legs, by which one of the six images is the least.

ghost use Rattle.std.specs.Prelude.{◌≡◌};
ghost use Rattle.tv_images.specs.Least.{rows_before as is_before, legs_before as is_legs_before};

use tv_cells::legs::Legs;

/// Whether the first row that differs is the lesser, or missing.
fn rows_before(first: &[u32], second: &[u32]) -> bool
    ensures { result ≡ is_before first.now second.now }
{
    for i in 0..first.len() {
        if i == second.len() {
            return false;
        }
        if first[i] != second[i] {
            return first[i] < second[i];
        }
    }
    first.len() < second.len()
}

/// Whether the first legs come before the second: by more cells along z, then by the rows along z, along x and along y.
pub(crate) fn legs_before(first: &Legs, second: &Legs) -> bool
    ensures { result ≡ is_legs_before first.now second.now }
{
    let cells = first.along_z.size();
    let others = second.along_z.size();
    if cells != others {
        return others < cells;
    }
    if first.along_z != second.along_z {
        return rows_before(first.along_z.rows(), second.along_z.rows());
    }
    if first.along_x != second.along_x {
        return rows_before(first.along_x.rows(), second.along_x.rows());
    }
    rows_before(first.along_y.rows(), second.along_y.rows())
}
