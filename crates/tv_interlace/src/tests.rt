//! The slices beside one, and what completes one, beside no legs and beside one.

use crate::completion::{completion, extras_of};
use crate::interlacing::interlaces;
use crate::next::next_slices;
use crate::slice::Slice;
use std::alloc::Global;
use std::test::Fail;
use tv_cells::legs::Legs;
use tv_partition::diagram::Diagram;

fn beside(alloc: Global, along_y: &[u32]) -> Result<Legs, Fail> {
    Ok(Legs {
        along_x: Diagram::empty(alloc),
        along_y: Diagram::new(along_y.to_vec(alloc)?).ok_or("a diagram")?,
        along_z: Diagram::empty(alloc),
    })
}

fn slice(alloc: Global, heights: &[u32]) -> Result<Slice, Fail> {
    if heights.len() > 9 {
        return Err("a short slice".into());
    }
    Ok(Slice::new(0, heights.to_vec(alloc)?))
}

fn are(slices: &[Slice], wants: &[&[u32]]) -> bool {
    if slices.len() != wants.len() {
        return false;
    }
    for (s, want) in slices.iter().zip(wants) {
        if s.heights() != *want || s.full() != 0 {
            return false;
        }
    }
    true
}

#[test]
fn lists_the_slices_beside_the_empty_one(rt: HostRuntime) -> Result<(), Fail> {
    let legs = beside(rt.alloc(), &[])?;
    let empty = slice(rt.alloc(), &[])?;
    let found = next_slices(rt.alloc(), &empty, &legs, -1, 2)?;
    assert!(rt; are(found.as_slice(), &[&[], &[1], &[2]]));
    Ok(())
}

#[test]
fn lists_the_slices_beside_a_leg(rt: HostRuntime) -> Result<(), Fail> {
    let legs = beside(rt.alloc(), &[1, 1])?;
    let middle = slice(rt.alloc(), &[2, 1])?;
    let found = next_slices(rt.alloc(), &middle, &legs, 0, 1)?;
    assert!(rt; are(found.as_slice(), &[&[1], &[2], &[1, 1]]));
    Ok(())
}

#[test]
fn tells_what_interlaces(rt: HostRuntime) -> Result<(), Fail> {
    let a = slice(rt.alloc(), &[3, 1])?;
    let b = slice(rt.alloc(), &[2])?;
    assert!(rt; interlaces(&a, &b, 0));
    assert!(rt; !interlaces(&a, &b, -1));
    assert_eq!(rt; a.at(1), 1);
    assert_eq!(rt; a.reach(), 2);
    Ok(())
}

#[test]
fn completes_a_slice(rt: HostRuntime) -> Result<(), Fail> {
    let legs = beside(rt.alloc(), &[])?;
    let a = slice(rt.alloc(), &[2])?;
    assert_eq!(rt; extras_of(&a, &legs, -3), 2);
    assert_eq!(rt; completion(&a, &legs, -3), 6);
    Ok(())
}
