//! The slices beside one, on the diagonal above it. A column is tried only at heights between the bounds that the other slice
//! sets, and only where the columns behind it have room for the extras that are left.

ghost use Rattle.std.specs.Prelude.{◌≡◌, ℕ, suc, ◌+◌, ◌-◌, ◌<◌, ◌≤◌, ◌^◌, [], ◌∷◌, ◌++◌, ◌&&◌, cond, nat_eq, pos, ◌+ℤ◌, length, unsigned_abs, IfOk, OnOk};
ghost use Rattle.tv_spec_slices.specs.Slices.{base_at};
ghost use Rattle.tv_spec_slices.specs.Paths.{columns, next_of};
ghost use Rattle.tv_cells.specs.Extras.{extent};
ghost use Rattle.tv_interlace.specs.Columns.{behind, longer};
ghost use Rattle.tv_interlace.specs.Rooms.{IsRoom};

use crate::rooms::{Room, highest, lowest, room_after, room_from};
use crate::slice::Slice;
use crate::{diagonal, interlacing};
use std::alloc::{AllocError, Global};
use tv_cells::legs::Legs;

/// The slices at t + 1 that fit the legs, have at most `budget` extras and interlace with the slice a at t: by the number of
/// their extras, and of two that have equally many the greater list of heights first. The budget and t are below 2^30 in
/// absolute value.
pub fn next_slices(
    alloc: Global,
    a: &Slice,
    legs: &Legs,
    t: i32,
    budget: u32,
) -> Result<Vec<Slice>, AllocError>
    requires diagonal { unsigned_abs t < 2 ^ 30 }
    requires few { budget < 2 ^ 30 }
    ensures { IfOk result (λ slices. slices.items ≡ next_of legs.now t a.now budget) }
{
    let full = diagonal::full_of(legs, t + 1);
    let base = diagonal::base_at(legs, t + 1, full);
    let room = room_from(legs, a, t, full);
    let mut all = Vec::new(alloc);
    for extras in 0..budget + 1 {
        push_extras(&mut all, legs, a, t, full, base, extras, room)?;
    }
    Ok(all)
}

/// Those of them with that many extras.
fn push_extras(
    all: &mut Vec<Slice>,
    legs: &Legs,
    a: &Slice,
    t: i32,
    full: u32,
    base: u32,
    extras: u32,
    room: Room,
) -> Result<(), AllocError>
    requires diagonal { unsigned_abs t < 2 ^ 30 }
    requires few { extras < 2 ^ 30 }
    requires front { full ≤ 24 }
    requires low { base ≤ 24 }
    requires room { IsRoom legs.now t a.now full room }
    ensures { OnOk result (all.new.items ≡ all.old.items ++ behind t a.now full [] (columns legs.now (t +ℤ pos 1) full (extent legs.now + extras) (base + extras) extras)) }
{
    let left = legs.extent() + extras;
    let count = u64::from(extras);
    if count < room.least || room.most < count {
        return Ok(());
    }
    let mut front = Vec::new(*all.allocator());
    push_columns(
        all,
        &mut front,
        legs,
        a,
        t,
        full,
        left,
        base + extras,
        extras,
        room,
    )
}

/// Behind the heights in front, all columns that interlace with a: at most `left` of them, none above `top`, with that many
/// extras, for which there is room.
#[cycle(columns)]
fn push_columns(
    all: &mut Vec<Slice>,
    front: &mut Vec<u32>,
    legs: &Legs,
    a: &Slice,
    t: i32,
    full: u32,
    left: u32,
    top: u32,
    extras: u32,
    room: Room,
) -> Result<(), AllocError>
    requires diagonal { unsigned_abs t < 2 ^ 30 }
    requires short { full + (length front.old.items + left) < 2 ^ 31 }
    requires few { extras ≤ 2 ^ 30 }
    requires room { IsRoom legs.now t a.now (full + length front.old.items) room }
    requires some { room.least ≤ extras }
    requires most { extras ≤ room.most }
    ensures all { OnOk result (all.new.items ≡ all.old.items ++ behind t a.now full front.old.items (columns legs.now (t +ℤ pos 1) (full + length front.old.items) left top extras)) }
    ensures front { OnOk result (front.new.items ≡ front.old.items) }
{
    if left == 0 {
        return push_ended(all, front.as_slice(), a, t, full, extras == 0);
    }
    let ends = may_end(legs, t + 1, full + front.len() as u32, extras);
    push_longer(all, front, legs, a, t, full, left - 1, top, extras, room)?;
    push_ended(all, front.as_slice(), a, t, full, ends)
}

/// Those that have one column more at least, and `left` after it at most.
#[cycle(columns)]
fn push_longer(
    all: &mut Vec<Slice>,
    front: &mut Vec<u32>,
    legs: &Legs,
    a: &Slice,
    t: i32,
    full: u32,
    left: u32,
    top: u32,
    extras: u32,
    room: Room,
) -> Result<(), AllocError>
    requires diagonal { unsigned_abs t < 2 ^ 30 }
    requires short { full + (length front.old.items + (left + 1)) < 2 ^ 31 }
    requires few { extras ≤ 2 ^ 30 }
    requires room { IsRoom legs.now t a.now (full + length front.old.items) room }
    requires some { room.least ≤ extras }
    requires most { extras ≤ room.most }
    ensures all { OnOk result (all.new.items ≡ all.old.items ++ behind t a.now full front.old.items (longer legs.now (t +ℤ pos 1) (full + length front.old.items) left top extras)) }
    ensures front { OnOk result (front.new.items ≡ front.old.items) }
{
    let d = full + front.len() as u32;
    let base = diagonal::base_at(legs, t + 1, d);
    let after = room_after(room, legs, a, t, d);
    let least = lowest(legs, a, t, d, extras, after);
    let mut height = top.min(highest(legs, a, t, d, extras, after));
    while height >= least {
        push_after(
            all,
            front,
            legs,
            a,
            t,
            full,
            left,
            height,
            extras - (height - base),
            after,
        )?;
        height -= 1;
    }
    Ok(())
}

/// Those whose next column has that height.
#[cycle(columns)]
fn push_after(
    all: &mut Vec<Slice>,
    front: &mut Vec<u32>,
    legs: &Legs,
    a: &Slice,
    t: i32,
    full: u32,
    left: u32,
    height: u32,
    extras: u32,
    room: Room,
) -> Result<(), AllocError>
    requires diagonal { unsigned_abs t < 2 ^ 30 }
    requires short { full + (length front.old.items + (left + 1)) < 2 ^ 31 }
    requires few { extras ≤ 2 ^ 30 }
    requires room { IsRoom legs.now t a.now (suc (full + length front.old.items)) room }
    requires some { room.least ≤ extras }
    requires most { extras ≤ room.most }
    ensures all { OnOk result (all.new.items ≡ all.old.items ++ behind t a.now full (front.old.items ++ height ∷ []) (columns legs.now (t +ℤ pos 1) (suc (full + length front.old.items)) left height extras)) }
    ensures front { OnOk result (front.new.items ≡ front.old.items) }
{
    front.push(height)?;
    push_columns(all, front, legs, a, t, full, left, height, extras, room)?;
    let _ = front.pop();
    Ok(())
}

/// The slice with the heights in front alone, if they may end there and it interlaces with a.
fn push_ended(
    all: &mut Vec<Slice>,
    front: &[u32],
    a: &Slice,
    t: i32,
    full: u32,
    ends: bool,
) -> Result<(), AllocError>
    requires { full + length front.now < 2 ^ 31 }
    ensures { OnOk result (all.new.items ≡ all.old.items ++ behind t a.now full front.now (cond ends ([] ∷ []) [])) }
{
    if !ends {
        return Ok(());
    }
    let b = Slice::new(full, front.to_vec(*all.allocator())?);
    if interlacing::interlaces(a, &b, t) {
        all.push(b)?;
    }
    Ok(())
}

/// Whether the columns may end before place d where so many extras are left.
fn may_end(legs: &Legs, t: i32, d: u32, extras: u32) -> bool
    requires diagonal { unsigned_abs t ≤ 2 ^ 30 }
    requires place { d < 2 ^ 31 }
    ensures { result ≡ (nat_eq (base_at legs.now t d) 0 && nat_eq extras 0) }
{
    diagonal::base_at(legs, t, d) == 0 && extras == 0
}
