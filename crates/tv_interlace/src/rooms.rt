//! How many extras the open places of a slice beside another one can have, and between which heights a column stands by that.
//! It lists no slices.

ghost use Rattle.std.specs.Prelude.{◌≡◌, suc, ◌+◌, ◌-◌, ◌<◌, ◌≤◌, ◌^◌, min, max, pos, ◌+ℤ◌, unsigned_abs};
ghost use Rattle.tv_spec_slices.specs.Slices.{base_at};
ghost use Rattle.tv_interlace.specs.Bounds.{floor, ceiling};
ghost use Rattle.tv_interlace.specs.Rooms.{low, high, IsRoom};

use crate::slice::Slice;
use crate::{bounds, diagonal};
use tv_cells::legs::Legs;

/// The least and the greatest number of extras at some places.
#[derive(Clone, Copy)]
pub struct Room {
    pub least: u64,
    pub most: u64,
}

/// What a slice beside a, on the diagonal above t, can have at place `from` and all after it.
pub fn room_from(legs: &Legs, a: &Slice, t: i32, from: u32) -> Room
    requires { unsigned_abs t < 2 ^ 30 }
    ensures { IsRoom legs.now t a.now from result }
{
    let mut least: u64 = 0;
    let mut most: u64 = 0;
    for d in from..a.reach() + 1 {
        least += u64::from(low(legs, a, t, d));
        most += u64::from(high(legs, a, t, d));
    }
    Room { least, most }
}

/// What it can have after place d.
pub fn room_after(room: Room, legs: &Legs, a: &Slice, t: i32, d: u32) -> Room
    requires diagonal { unsigned_abs t < 2 ^ 30 }
    requires place { d < 2 ^ 31 }
    requires room { IsRoom legs.now t a.now d room }
    ensures { IsRoom legs.now t a.now (suc d) result }
{
    Room {
        least: room.least.saturating_sub(u64::from(low(legs, a, t, d))),
        most: room.most.saturating_sub(u64::from(high(legs, a, t, d))),
    }
}

/// The least height at place d that leaves no more extras than there is room for after it.
pub fn lowest(legs: &Legs, a: &Slice, t: i32, d: u32, extras: u32, after: Room) -> u32
    requires diagonal { unsigned_abs t < 2 ^ 30 }
    requires place { d < 2 ^ 31 }
    requires few { extras ≤ 2 ^ 30 }
    ensures { result ≡ max (max (max (base_at legs.now (t +ℤ pos 1) d) 1) (floor t a.now d)) (base_at legs.now (t +ℤ pos 1) d + (extras - after.most)) }
{
    let base = diagonal::base_at(legs, t + 1, d);
    let spare = u64::from(extras).saturating_sub(after.most);
    base.max(1)
        .max(bounds::floor(a, t, d))
        .max(base + spare as u32)
}

/// The greatest height at place d that leaves as many extras as the places after it have at least.
pub fn highest(legs: &Legs, a: &Slice, t: i32, d: u32, extras: u32, after: Room) -> u32
    requires diagonal { unsigned_abs t < 2 ^ 30 }
    requires place { d < 2 ^ 31 }
    requires few { extras ≤ 2 ^ 30 }
    ensures { result ≡ min (base_at legs.now (t +ℤ pos 1) d + (extras - after.least)) (ceiling t a.now d) }
{
    let base = diagonal::base_at(legs, t + 1, d);
    let free = u64::from(extras).saturating_sub(after.least);
    (base + free as u32).min(bounds::ceiling(a, t, d))
}

fn low(legs: &Legs, a: &Slice, t: i32, d: u32) -> u32
    requires diagonal { unsigned_abs t < 2 ^ 30 }
    requires place { d < 2 ^ 31 }
    ensures { result ≡ low legs.now t a.now d }
{
    bounds::floor(a, t, d).saturating_sub(diagonal::base_at(legs, t + 1, d))
}

fn high(legs: &Legs, a: &Slice, t: i32, d: u32) -> u32
    requires diagonal { unsigned_abs t < 2 ^ 30 }
    requires place { d < 2 ^ 31 }
    ensures { result ≡ high legs.now t a.now d }
{
    bounds::ceiling(a, t, d).saturating_sub(diagonal::base_at(legs, t + 1, d))
}
