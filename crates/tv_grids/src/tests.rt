//! The texts of the first two grids, and that of a file with numbers below 0.

use crate::grid::{MOST_SQUARES, generate};
use crate::print::print_file;
use std::test::Fail;
use tv_text::file::read_file;

const UNIT_GRID: &str =
    "tv 1\npoint 0 0\npoint 1 0\npoint 0 1\npoint 1 1\ntriangle 0 1 3\ntriangle 0 3 2\nheights 0 1 1 1\nend\n";

const LOCAL_P2: &str =
    "tv 1\npoint 0 0\npoint 1 0\npoint 0 1\npoint -1 -1\ntriangle 0 1 2\ntriangle 0 2 3\ntriangle 0 3 1\nheights 0 -1 0 999999\nend\n";

#[test]
fn prints_the_unit_grid(rt: HostRuntime) -> Result<(), Fail> {
    let file = generate(rt.alloc(), 1)?;
    let text = print_file(rt.alloc(), &file)?;
    assert_eq!(rt; text.as_slice(), UNIT_GRID.as_bytes());
    Ok(())
}

#[test]
fn counts_the_greatest_grid(rt: HostRuntime) -> Result<(), Fail> {
    let file = generate(rt.alloc(), MOST_SQUARES)?;
    assert_eq!(rt; file.points.len(), 64);
    assert_eq!(rt; file.triangles.len(), 98);
    assert_eq!(rt; file.triangles[97].a, 54);
    assert_eq!(rt; file.heights[63], 49);
    Ok(())
}

#[test]
fn prints_what_it_reads(rt: HostRuntime) -> Result<(), Fail> {
    let file = read_file(rt.alloc(), LOCAL_P2.as_bytes())?;
    let text = print_file(rt.alloc(), &file)?;
    assert_eq!(rt; text.as_slice(), LOCAL_P2.as_bytes());
    Ok(())
}
