//! The numbers of plane partitions and of boxes beside legs, as they are known from outside, and the first step of a table.

use crate::slice_counts;
use crate::table::next_table_by_sums;
use std::alloc::Global;
use std::test::Fail;
use tv_cells::legs::Legs;
use tv_interlace::slice::Slice;
use tv_partition::diagram::Diagram;
use tv_ring::Whole;
use tv_slices::first::{diagonal_at, first_table};
use tv_slices::row::row_of;

fn legs_of(alloc: Global, x: &[u32], y: &[u32], z: &[u32]) -> Result<Legs, Fail> {
    Ok(Legs {
        along_x: Diagram::new(x.to_vec(alloc)?).ok_or("a diagram")?,
        along_y: Diagram::new(y.to_vec(alloc)?).ok_or("a diagram")?,
        along_z: Diagram::new(z.to_vec(alloc)?).ok_or("a diagram")?,
    })
}

#[test]
fn counts_plane_partitions(rt: HostRuntime) -> Result<(), Fail> {
    let legs = legs_of(rt.alloc(), &[], &[], &[])?;
    let counts: Vec<Whole> = slice_counts(rt.alloc(), &legs, 6)?;
    assert_eq!(rt; counts.len(), 7);
    for (count, want) in counts.iter().zip([1, 1, 3, 6, 13, 24, 48]) {
        assert_eq!(rt; count.get(), want);
    }
    Ok(())
}

#[test]
fn counts_beside_legs(rt: HostRuntime) -> Result<(), Fail> {
    let legs = legs_of(rt.alloc(), &[2, 1], &[1], &[3, 1])?;
    let counts: Vec<Whole> = slice_counts(rt.alloc(), &legs, 6)?;
    assert_eq!(rt; counts.len(), 7);
    for (count, want) in counts.iter().zip([1, 4, 14, 41, 110, 272, 639]) {
        assert_eq!(rt; count.get(), want);
    }
    Ok(())
}

#[test]
fn one_box_stands_in_one_way(rt: HostRuntime) -> Result<(), Fail> {
    let legs = Legs {
        along_x: Diagram::empty(rt.alloc()),
        along_y: Diagram::empty(rt.alloc()),
        along_z: Diagram::empty(rt.alloc()),
    };
    let first = first_table::<Whole>(rt.alloc(), &legs, 1, 1)?;
    let middle = next_table_by_sums(rt.alloc(), &legs, 1, diagonal_at(0, 1), &first)?;
    assert_eq!(rt; middle.len(), 2);
    let box_alone = Slice::new(0, vec![in rt.alloc(); 1]?);
    let counts = row_of(rt.alloc(), middle.get(&box_alone), 2)?;
    assert_eq!(rt; counts.len(), 2);
    for (count, want) in counts.iter().zip([0, 1]) {
        assert_eq!(rt; count.get(), want);
    }
    Ok(())
}
