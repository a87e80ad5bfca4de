//! The entries of the corner beside no legs, where one box stands at most.

use crate::Slices;
use crate::counts::PathCount;
use std::test::Fail;
use tv_cells::legs::Legs;
use tv_partition::diagram::Diagram;
use tv_ring::Whole;

fn is_entry<C>(entry: Option<&PathCount<C>>, heights: &[u32], cost: u32) -> bool {
    match entry {
        Some(found) => found.slice.heights() == heights && found.cost == cost,
        None => false,
    }
}

#[test]
fn lists_the_middle_diagonal(rt: HostRuntime) -> Result<(), Fail> {
    let legs = Legs {
        along_x: Diagram::empty(rt.alloc()),
        along_y: Diagram::empty(rt.alloc()),
        along_z: Diagram::empty(rt.alloc()),
    };
    let slices: Slices<Whole> = Slices::build(rt.alloc(), &legs, 1)?;
    let entries = slices.paths(0);
    assert_eq!(rt; slices.k(), 1);
    assert_eq!(rt; slices.legs().extent(), 0);
    assert_eq!(rt; entries.len(), 2);
    assert!(rt; is_entry(entries.first(), &[], 0) && is_entry(entries.get(1), &[1], 1));
    assert_eq!(rt; slices.paths(-9).len(), 1);
    assert_eq!(rt; slices.paths(9).len(), 2);
    Ok(())
}
