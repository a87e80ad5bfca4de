//! The least of the six images.

ghost use Rattle.std.specs.Prelude.{◌≡◌, IfOk};
ghost use Rattle.tv_laws_symmetry.specs.Symmetry.{exchanged_xy, exchanged_yz};
ghost use Rattle.tv_images.specs.Least.{is_empty, first_of, least, HasCountsOf};

use crate::order::legs_before;
use std::alloc::AllocError;
use tv_cells::legs::Legs;

/// The first of the six images of the legs: that with most cells along z, and of those the one with the least rows along z,
/// along x and along y. As many sets of boxes, of any number, stand beside it. A corner without legs is its own.
pub fn least_image(legs: &Legs) -> Result<Legs, AllocError>
    ensures value { IfOk result (λ image. image ≡ least legs.now) }
    ensures counts { IfOk result (λ image. HasCountsOf legs.now image) }
{
    legs.known();
    if is_empty(legs) {
        return legs.clone();
    }
    let xy = exchanged_xy(legs)?;
    let yz = exchanged_yz(legs)?;
    let turned = exchanged_xy(&yz)?;
    let turned_back = exchanged_yz(&xy)?;
    let xz = exchanged_xy(&turned_back)?;
    let two = first_of(legs.clone()?, xy);
    let three = first_of(two, yz);
    let four = first_of(three, xz);
    let five = first_of(four, turned);
    Ok(first_of(five, turned_back))
}

/// Whether no leg of the corner has a row.
pub fn is_empty(legs: &Legs) -> bool
    ensures { result ≡ is_empty legs.now }
{
    legs.along_x.rows().is_empty()
        && legs.along_y.rows().is_empty()
        && legs.along_z.rows().is_empty()
}

fn exchanged_xy(legs: &Legs) -> Result<Legs, AllocError>
    ensures { IfOk result (λ image. image ≡ exchanged_xy legs.now) }
{
    Ok(Legs {
        along_x: legs.along_y.clone()?,
        along_y: legs.along_x.clone()?,
        along_z: legs.along_z.flip()?,
    })
}

fn exchanged_yz(legs: &Legs) -> Result<Legs, AllocError>
    ensures { IfOk result (λ image. image ≡ exchanged_yz legs.now) }
{
    Ok(Legs {
        along_x: legs.along_x.flip()?,
        along_y: legs.along_z.clone()?,
        along_z: legs.along_y.clone()?,
    })
}

/// The one that comes first.
fn first_of(a: Legs, b: Legs) -> Legs
    ensures { result ≡ first_of a b }
{
    if legs_before(&b, &a) { b } else { a }
}
