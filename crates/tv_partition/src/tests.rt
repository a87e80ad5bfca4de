//! Diagrams made from rows that are and are not those of one.

use crate::all::{self, Diagrams};
use crate::diagram::Diagram;
use std::test::Fail;

fn made(alloc: std::alloc::Global, rows: &[u32]) -> Result<Option<Diagram>, Fail> {
    Ok(Diagram::new(rows.to_vec(alloc)?))
}

#[test]
fn takes_falling_rows_alone(rt: HostRuntime) -> Result<(), Fail> {
    for rows in [
        &[1u32, 2][..],
        &[2, 0],
        &[25],
        &[24, 1],
        &[4294967295, 4294967295],
    ] {
        assert!(rt; made(rt.alloc(), rows)?.is_none(), "{rows:?}");
    }
    let d = made(rt.alloc(), &[3, 1])?.ok_or("a diagram")?;
    assert_eq!(rt; d.rows(), [3u32, 1].as_slice());
    assert_eq!(rt; d.size(), 4);
    assert!(rt; d.contains(0, 2));
    assert!(rt; !d.contains(2, 0));
    assert_eq!(rt; Diagram::empty(rt.alloc()).size(), 0);
    Ok(())
}

#[test]
fn flips_rows(rt: HostRuntime) -> Result<(), Fail> {
    let d = made(rt.alloc(), &[2, 1, 1])?.ok_or("a diagram")?;
    let flipped = d.flip()?;
    assert_eq!(rt; flipped.rows(), [3u32, 1].as_slice());
    assert!(rt; d.clone()? == d);
    assert_eq!(rt; d.row(0), 2);
    assert_eq!(rt; d.row(3), 0);
    assert_eq!(rt; d.reach(), 3);
    d.known();
    Ok(())
}

fn has_at(all: &Diagrams, k: usize, rows: &[u32]) -> bool {
    match all.at(k) {
        Some(d) => d.rows() == rows && all.number(d) == Some(k),
        None => false,
    }
}

fn numbers_back(all: &Diagrams) -> bool {
    for k in 0..all.len() {
        match all.at(k) {
            Some(d) => {
                if all.number(d) != Some(k) {
                    return false;
                }
            }
            None => return false,
        }
    }
    true
}

#[test]
fn lists_every_diagram(rt: HostRuntime) -> Result<(), Fail> {
    let threes = all::all_of(rt.alloc(), 3)?;
    assert_eq!(rt; threes.size(), 3);
    assert_eq!(rt; threes.len(), 3);
    assert!(rt; has_at(&threes, 0, &[3]));
    assert!(rt; has_at(&threes, 1, &[2, 1]));
    assert!(rt; has_at(&threes, 2, &[1, 1, 1]));
    assert!(rt; threes.at(3).is_none());
    assert!(rt; threes.number(&Diagram::empty(rt.alloc())).is_none());
    Ok(())
}

#[test]
fn lists_the_most(rt: HostRuntime) -> Result<(), Fail> {
    let most = all::all_of(rt.alloc(), 24)?;
    assert_eq!(rt; most.len(), 1575);
    assert!(rt; numbers_back(&most));
    Ok(())
}
