//! Some slices in the order in which the slices that fit a diagonal are listed. Only heights that one of them has are gone into.

ghost use Rattle.std.specs.Prelude.{◌≡◌, suc, ◌+◌, ◌-◌, ◌<◌, ◌≤◌, ◌^◌, [], ◌∷◌, ◌++◌, ◌&&◌, cond, filter, nat_eq, length, unsigned_abs, IfOk, OnOk};
ghost use Rattle.tv_cells.specs.Extras.{AreDiagrams};
ghost use Rattle.tv_spec_slices.specs.Slices.{base_at};
ghost use Rattle.tv_spec_slices.specs.Paths.{columns, fitting};
ghost use Rattle.tv_interlace.specs.Columns.{longer};
ghost use Rattle.tv_paths.specs.Among.{is_among, has_height, has_extras, behind, one_more};

use std::alloc::{AllocError, Global};
use tv_cells::legs::Legs;
use tv_interlace::completion::extras_of;
use tv_interlace::diagonal::{base_at, full_of};
use tv_interlace::slice::Slice;

/// The slices of the diagonal t that fit the legs, have at most `budget` extras and are among the keys: by the number of their
/// extras, and of two that have equally many the greater list of heights first.
pub(crate) fn ordered(
    alloc: Global,
    keys: &[Slice],
    legs: &Legs,
    t: i32,
    budget: u32,
) -> Result<Vec<Slice>, AllocError>
    requires diagonal { unsigned_abs t ≤ 2 ^ 30 }
    requires few { budget < 2 ^ 30 }
    ensures { IfOk result (λ slices. slices.items ≡ filter (is_among keys.now) (fitting legs.now t budget)) }
{
    legs.known();
    let full = full_of(legs, t);
    let base = base_at(legs, t, full);
    let mut all = Vec::new(alloc);
    for extras in 0..budget + 1 {
        let some = with_extras(alloc, keys, legs, t, extras)?;
        let mut front = Vec::new(alloc);
        push_columns(
            &mut all,
            &mut front,
            some.as_slice(),
            legs,
            t,
            full,
            legs.extent() + extras,
            base + extras,
            extras,
        )?;
    }
    Ok(all)
}

/// Behind the heights in front, all columns that make one of the keys: at most `left` of them, none above `top`, with that many
/// extras.
#[cycle(columns)]
fn push_columns(
    all: &mut Vec<Slice>,
    front: &mut Vec<u32>,
    keys: &[Slice],
    legs: &Legs,
    t: i32,
    full: u32,
    left: u32,
    top: u32,
    extras: u32,
) -> Result<(), AllocError>
    requires diagonal { unsigned_abs t ≤ 2 ^ 30 }
    requires short { full + (length front.old.items + left) < 2 ^ 31 }
    requires few { extras ≤ 2 ^ 30 }
    ensures all { OnOk result (all.new.items ≡ all.old.items ++ behind keys.now full front.old.items (columns legs.now t (full + length front.old.items) left top extras)) }
    ensures front { OnOk result (front.new.items ≡ front.old.items) }
{
    if keys.is_empty() {
        return Ok(());
    }
    if left == 0 {
        return push_ended(all, front.as_slice(), keys, full, extras == 0);
    }
    let ends = may_end(legs, t, full + front.len() as u32, extras);
    push_longer(all, front, keys, legs, t, full, left - 1, top, extras)?;
    push_ended(all, front.as_slice(), keys, full, ends)
}

/// Those that have one column more at least, and `left` after it at most.
#[cycle(columns)]
fn push_longer(
    all: &mut Vec<Slice>,
    front: &mut Vec<u32>,
    keys: &[Slice],
    legs: &Legs,
    t: i32,
    full: u32,
    left: u32,
    top: u32,
    extras: u32,
) -> Result<(), AllocError>
    requires diagonal { unsigned_abs t ≤ 2 ^ 30 }
    requires short { full + (length front.old.items + (left + 1)) < 2 ^ 31 }
    requires few { extras ≤ 2 ^ 30 }
    ensures all { OnOk result (all.new.items ≡ all.old.items ++ behind keys.now full front.old.items (longer legs.now t (full + length front.old.items) left top extras)) }
    ensures front { OnOk result (front.new.items ≡ front.old.items) }
{
    let mut more = extras + 1;
    while more > 0 {
        more -= 1;
        push_height(all, front, keys, legs, t, full, left, top, extras, more)?;
    }
    Ok(())
}

/// Those whose next column is `more` above the legs.
#[cycle(columns)]
fn push_height(
    all: &mut Vec<Slice>,
    front: &mut Vec<u32>,
    keys: &[Slice],
    legs: &Legs,
    t: i32,
    full: u32,
    left: u32,
    top: u32,
    extras: u32,
    more: u32,
) -> Result<(), AllocError>
    requires diagonal { unsigned_abs t ≤ 2 ^ 30 }
    requires short { full + (length front.old.items + (left + 1)) < 2 ^ 31 }
    requires few { extras ≤ 2 ^ 30 }
    requires part { more ≤ extras }
    ensures all { OnOk result (all.new.items ≡ all.old.items ++ one_more keys.now legs.now t full front.old.items (full + length front.old.items) left top extras more) }
    ensures front { OnOk result (front.new.items ≡ front.old.items) }
{
    let d = full + front.len() as u32;
    let height = base_at(legs, t, d) + more;
    if height == 0 || height > top {
        return Ok(());
    }
    let some = with_height(*all.allocator(), keys, d, height)?;
    front.push(height)?;
    push_columns(
        all,
        front,
        some.as_slice(),
        legs,
        t,
        full,
        left,
        height,
        extras - more,
    )?;
    let _ = front.pop();
    Ok(())
}

/// The slice with the heights in front alone, if they may end there and it is among the keys.
fn push_ended(
    all: &mut Vec<Slice>,
    front: &[u32],
    keys: &[Slice],
    full: u32,
    ends: bool,
) -> Result<(), AllocError>
    requires { full + length front.now < 2 ^ 31 }
    ensures { OnOk result (all.new.items ≡ all.old.items ++ behind keys.now full front.now (cond ends ([] ∷ []) [])) }
{
    if !ends {
        return Ok(());
    }
    let b = Slice::new(full, front.to_vec(*all.allocator())?);
    if is_among(keys, &b) {
        all.push(b)?;
    }
    Ok(())
}

/// Whether the columns may end before place d where so many extras are left.
fn may_end(legs: &Legs, t: i32, d: u32, extras: u32) -> bool
    requires diagonal { unsigned_abs t ≤ 2 ^ 30 }
    requires place { d < 2 ^ 31 }
    ensures { result ≡ (nat_eq (base_at legs.now t d) 0 && nat_eq extras 0) }
{
    base_at(legs, t, d) == 0 && extras == 0
}

/// Whether the slice is one of the keys.
fn is_among(keys: &[Slice], slice: &Slice) -> bool
    ensures { result ≡ is_among keys.now slice.now }
{
    for i in 0..keys.len() {
        if *slice == keys[i] {
            return true;
        }
    }
    false
}

/// The keys with that height at place d.
fn with_height(alloc: Global, keys: &[Slice], d: u32, height: u32) -> Result<Vec<Slice>, AllocError>
    ensures { IfOk result (λ some. some.items ≡ filter (has_height d height) keys.now) }
{
    let mut some = Vec::new(alloc);
    for i in 0..keys.len() {
        if keys[i].at(d) == height {
            some.push(keys[i].clone()?)?;
        }
    }
    Ok(some)
}

/// The keys with that many extras.
fn with_extras(
    alloc: Global,
    keys: &[Slice],
    legs: &Legs,
    t: i32,
    extras: u32,
) -> Result<Vec<Slice>, AllocError>
    requires { unsigned_abs t ≤ 2 ^ 30 }
    ensures { IfOk result (λ some. some.items ≡ filter (has_extras legs.now t extras) keys.now) }
{
    let mut some = Vec::new(alloc);
    for i in 0..keys.len() {
        if extras_of(&keys[i], legs, t) == u64::from(extras) {
            some.push(keys[i].clone()?)?;
        }
    }
    Ok(some)
}
