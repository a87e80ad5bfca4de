//! Cells beside three legs of one cell, and lists that are and are not extras.

use crate::cell::Cell;
use crate::legs::Legs;
use crate::{costs, cuts, extras, order, overlap};
use std::alloc::Global;
use std::test::Fail;
use tv_partition::diagram::Diagram;

fn diagram(alloc: Global, rows: &[u32]) -> Result<Diagram, Fail> {
    Ok(Diagram::new(rows.to_vec(alloc)?).ok_or("a diagram")?)
}

fn cell(x: u32, y: u32, z: u32) -> Cell {
    Cell { x, y, z }
}

#[test]
fn counts_the_legs_of_a_cell(rt: HostRuntime) -> Result<(), Fail> {
    let legs = Legs {
        along_x: diagram(rt.alloc(), &[1])?,
        along_y: diagram(rt.alloc(), &[2])?,
        along_z: diagram(rt.alloc(), &[1, 1])?,
    };
    for (c, want) in [
        (cell(0, 0, 0), 3),
        (cell(7, 0, 0), 1),
        (cell(0, 7, 1), 1),
        (cell(1, 0, 7), 1),
        (cell(0, 1, 7), 0),
    ] {
        assert_eq!(rt; extras::in_leg(&legs, c), want, "{c:?}");
    }
    legs.known();
    Ok(())
}

#[test]
fn takes_rising_extras_alone(rt: HostRuntime) -> Result<(), Fail> {
    let legs = Legs {
        along_x: diagram(rt.alloc(), &[1])?,
        along_y: Diagram::empty(rt.alloc()),
        along_z: Diagram::empty(rt.alloc()),
    };
    let good = [cell(0, 0, 1), cell(0, 1, 0), cell(0, 1, 1)];
    assert!(rt; extras::valid(&legs, &good));
    assert!(rt; extras::valid(&legs, &[]));
    assert!(rt; extras::is_extras(&legs, &[good[1], good[0]]));
    assert!(rt; extras::stands(&legs, &[], cell(0, 0, 1)));
    assert!(rt; extras::rests_along_x(&legs, &good, cell(1, 0, 1)));
    assert!(rt; extras::rests_along_y(&legs, &good, cell(0, 2, 0)));
    assert!(rt; extras::rests_along_z(&legs, &good, cell(0, 0, 2)));
    assert!(rt; extras::in_union(&legs, &good, cell(9, 0, 0)));
    assert!(rt; order::contains(&good, good[2]));
    for bad in [
        &[good[1], good[0]][..],
        &[good[0], good[0]],
        &[cell(0, 0, 0)],
        &[good[0], good[2]],
        &[cell(1, 0, 1)],
    ] {
        assert!(rt; !extras::valid(&legs, bad), "{bad:?}");
    }
    Ok(())
}

#[test]
fn takes_the_costs(rt: HostRuntime) -> Result<(), Fail> {
    let row = diagram(rt.alloc(), &[2])?;
    let column = diagram(rt.alloc(), &[1, 1])?;
    assert_eq!(rt; costs::edge_cost(&row, -3, 1), 1);
    assert_eq!(rt; costs::edge_cost(&column, -3, 1), 5);
    let legs = Legs {
        along_x: diagram(rt.alloc(), &[1])?,
        along_y: diagram(rt.alloc(), &[1])?,
        along_z: diagram(rt.alloc(), &[1])?,
    };
    assert_eq!(rt; overlap::overlap_cost(&legs), 2);
    let two = Legs {
        along_x: diagram(rt.alloc(), &[2, 1])?,
        along_y: Diagram::empty(rt.alloc()),
        along_z: diagram(rt.alloc(), &[2])?,
    };
    assert_eq!(rt; overlap::overlap_cost(&two), 3);
    assert_eq!(rt; two.extent(), 2);
    assert!(rt; two.clone()? == two);
    Ok(())
}

// The overlap cost of one cell along y and these rows along z.
fn beside_one_along_y(alloc: Global, rows: &[u32]) -> Result<i64, Fail> {
    let legs = Legs {
        along_x: Diagram::empty(alloc),
        along_y: diagram(alloc, &[1])?,
        along_z: diagram(alloc, rows)?,
    };
    Ok(overlap::overlap_cost(&legs))
}

#[test]
fn tells_a_row_from_a_column(rt: HostRuntime) -> Result<(), Fail> {
    assert_eq!(rt; beside_one_along_y(rt.alloc(), &[2])?, 2);
    assert_eq!(rt; beside_one_along_y(rt.alloc(), &[1, 1])?, 1);
    Ok(())
}

#[test]
fn cuts_a_choice(rt: HostRuntime) -> Result<(), Fail> {
    let legs = Legs {
        along_x: diagram(rt.alloc(), &[1])?,
        along_y: Diagram::empty(rt.alloc()),
        along_z: Diagram::empty(rt.alloc()),
    };
    let chosen = [cell(1, 1, 0)];
    assert!(rt; cuts::enters(&legs, &chosen, cell(1, 2, 0)));
    assert!(rt; cuts::enters(&legs, &chosen, cell(2, 1, 0)));
    assert!(rt; !cuts::enters(&legs, &chosen, cell(1, 1, 1)));
    assert!(rt; cuts::leaves_gap(&legs, &chosen, cell(0, 1, 0)));
    assert!(rt; !cuts::leaves_gap(&legs, &chosen, cell(0, 0, 0)));
    Ok(())
}
