//! Sets of extras one at a time, as they are known from outside: beside no legs plane partitions, and beside a leg what the
//! vertex counts.

ghost use Rattle.std.specs.Prelude.{◌≤◌};

use crate::fillings::Fillings;
use crate::search::MOST_BOXES;
use crate::sets::Sets;
use std::alloc::Global;
use std::test::Fail;
use tv_cells::cell::Cell;
use tv_cells::legs::Legs;
use tv_partition::diagram::Diagram;

fn cell(x: u32, y: u32, z: u32) -> Cell {
    Cell { x, y, z }
}

// The diagram of one cell where it is there, else the empty one.
fn leg(alloc: Global, is_there: bool) -> Option<Diagram> {
    if is_there {
        Diagram::new(vec![in alloc; 1].ok()?)
    } else {
        Some(Diagram::empty(alloc))
    }
}

// No leg along x and y, and one of one cell along z where it is there.
fn legs(alloc: Global, along_z: bool) -> Option<Legs> {
    let along_z = leg(alloc, along_z)?;
    Some(Legs {
        along_x: Diagram::empty(alloc),
        along_y: Diagram::empty(alloc),
        along_z,
    })
}

// The sets of this many boxes.
fn start(alloc: Global, along_z: bool, boxes: u32) -> Result<Sets, Fail>
    requires { boxes ≤ MOST_BOXES }
{
    Ok(Sets::start(alloc, legs(alloc, along_z).ok_or("legs")?, boxes)?)
}

// Whether this set is next.
fn gives(sets: &mut Sets, want: &[Cell]) -> bool {
    match sets.next() {
        Ok(Some(set)) => set.as_slice() == want,
        _ => false,
    }
}

fn ends(sets: &mut Sets) -> bool {
    matches!(sets.next(), Ok(None))
}

#[test]
fn lists_two_boxes(rt: HostRuntime) -> Result<(), Fail> {
    let mut sets = start(rt.alloc(), false, 2)?;
    assert!(rt; gives(&mut sets, &[cell(1, 0, 0), cell(0, 0, 0)]));
    assert!(rt; gives(&mut sets, &[cell(0, 0, 0), cell(0, 0, 1)]));
    assert!(rt; gives(&mut sets, &[cell(0, 0, 0), cell(0, 1, 0)]));
    assert!(rt; ends(&mut sets) && ends(&mut sets));
    Ok(())
}

#[test]
fn lists_one_box_beside_a_leg(rt: HostRuntime) -> Result<(), Fail> {
    let mut sets = start(rt.alloc(), true, 1)?;
    assert!(rt; gives(&mut sets, &[cell(1, 0, 0)]) && gives(&mut sets, &[cell(0, 1, 0)]));
    assert!(rt; ends(&mut sets));
    Ok(())
}

// Two corners, the first beside a leg.
fn corners(alloc: Global) -> Option<Vec<Legs>> {
    vec![in alloc; legs(alloc, true)?, legs(alloc, false)?].ok()
}

// Whether this filling of two corners is next.
fn fills(fillings: &mut Fillings, first: &[Cell], second: &[Cell]) -> bool {
    matches!(fillings.next(), Ok(true))
        && fillings.len() == 2
        && fillings.at(0) == first
        && fillings.at(1) == second
}

fn is_filled(fillings: &mut Fillings) -> bool {
    matches!(fillings.next(), Ok(false))
}

#[test]
fn lists_fillings_by_one_box(rt: HostRuntime) -> Result<(), Fail> {
    let corners = corners(rt.alloc()).ok_or("two corners")?;
    let mut fillings = Fillings::start(rt.alloc(), corners, 1)?;
    assert!(rt; fills(&mut fillings, &[], &[cell(0, 0, 0)]));
    assert!(rt; fills(&mut fillings, &[cell(1, 0, 0)], &[]));
    assert!(rt; fills(&mut fillings, &[cell(0, 1, 0)], &[]));
    assert!(rt; is_filled(&mut fillings) && is_filled(&mut fillings));
    Ok(())
}
