//! The first steps of the tables beside no legs.

use crate::first::{diagonal_at, first_table};
use crate::row::row_of;
use crate::table::next_table;
use std::test::Fail;
use tv_cells::legs::Legs;
use tv_interlace::slice::Slice;
use tv_partition::diagram::Diagram;
use tv_ring::Whole;

#[test]
fn one_box_stands_in_one_way(rt: HostRuntime) -> Result<(), Fail> {
    let legs = Legs {
        along_x: Diagram::empty(rt.alloc()),
        along_y: Diagram::empty(rt.alloc()),
        along_z: Diagram::empty(rt.alloc()),
    };
    let first = first_table::<Whole>(rt.alloc(), &legs, 1, 1)?;
    assert_eq!(rt; first.len(), 1);
    let middle = next_table(rt.alloc(), &legs, 1, diagonal_at(0, 1), &first)?;
    assert_eq!(rt; middle.len(), 2);
    let box_alone = Slice::new(0, vec![in rt.alloc(); 1]?);
    let counts = row_of(rt.alloc(), middle.get(&box_alone), 2)?;
    for (count, want) in counts.iter().zip([0, 1]) {
        assert_eq!(rt; count.get(), want);
    }
    Ok(())
}
