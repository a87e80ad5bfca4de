//! The least images of legs of one and two cells.

use crate::least_image;
use std::alloc::Global;
use std::test::Fail;
use tv_cells::legs::Legs;
use tv_partition::diagram::Diagram;

fn diagram(alloc: Global, rows: &[u32]) -> Result<Diagram, Fail> {
    Ok(Diagram::new(rows.to_vec(alloc)?).ok_or("a diagram")?)
}

#[test]
fn turns_the_greatest_leg_to_z(rt: HostRuntime) -> Result<(), Fail> {
    let legs = Legs {
        along_x: diagram(rt.alloc(), &[2])?,
        along_y: diagram(rt.alloc(), &[1])?,
        along_z: diagram(rt.alloc(), &[])?,
    };
    let image = least_image(&legs)?;
    let other = Legs {
        along_x: diagram(rt.alloc(), &[1])?,
        along_y: diagram(rt.alloc(), &[])?,
        along_z: diagram(rt.alloc(), &[2])?,
    };
    assert!(rt; image.along_z.size() == 2 && image == least_image(&other)?);
    Ok(())
}
