//! The numbers of ways up to one slice, by their cost, times one: how they are read and added. It knows no slice.

ghost use Rattle.std.specs.Prelude.{◌≡◌, ℕ, ◌+◌, ◌<◌, ◌≤◌, ◌^◌, ◌-◌, [], IfOk, IsErrOf, IsOkUnless};
ghost use Rattle.std.specs.Option.{option_copied};
ghost use Rattle.tv_ring.specs.Operations.{limit};
ghost use Rattle.tv_ring.specs.Sums.{at};
ghost use Rattle.tv_laws_series.specs.Terms.{listed};
ghost use Rattle.tv_slices.specs.Rows.{shifted, sums, is_reached, either_reached};
ghost use Rattle.tv_slices.specs.Joined.{counts_of, IsSum};

use std::alloc::{AllocError, Global};
use tv_ring::{Ring, RingFault};

/// A cost below which there are no ways, the numbers of ways of the costs from 0 on, and whether there are any of each cost.
#[derive(Drop)]
pub struct Row<C> {
    pub least: u32,
    pub counts: Vec<C>,
    pub reached: Vec<bool>,
}

/// A row of no numbers.
pub fn empty_row<C: Ring>(alloc: Global) -> Row<C>
    ensures counts { result.counts.items ≡ [] }
    ensures reached { result.reached.items ≡ [] }
    ensures least { result.least ≡ 2 ^ 32 - 1 }
{
    Row {
        least: u32::MAX,
        counts: Vec::new(alloc),
        reached: Vec::new(alloc),
    }
}

/// The first `len` numbers of both rows together, where those of the second cost x more.
pub fn row_sum<C: Ring>(
    alloc: Global,
    first: &Row<C>,
    second: &Row<C>,
    x: u32,
    len: u32,
) -> Result<Row<C>, RingFault>
    ensures value { IfOk result (λ s. IsSum C.ring first.now second.now x len s) }

    // Wide only where the sum at one of these costs is too great.
    ensures wide { IsErrOf result RingFault.Wide → (e : ℕ) × (e < len) × (limit < C.ring.size (at C.ring first.now.counts.items e) + C.ring.size (shifted C.ring second.now.counts.items x e)) }
{
    let counts = added(
        alloc,
        first.counts.as_slice(),
        second.counts.as_slice(),
        x,
        len,
    )?;
    let reached = either(
        alloc,
        first.reached.as_slice(),
        second.reached.as_slice(),
        x,
        len,
    )?;
    Ok(Row {
        least: first.least.min(second.least.saturating_add(x)),
        counts,
        reached,
    })
}

// The numbers of ways of the first `len` costs: those before, and as many more that cost x more.
fn added<C: Ring>(
    alloc: Global,
    before: &[C],
    more: &[C],
    x: u32,
    len: u32,
) -> Result<Vec<C>, RingFault>
    ensures value { IfOk result (λ v. v.items ≡ listed (sums C.ring before.now more.now x) len) }

    // Wide only where the sum at one of these costs is too great.
    ensures wide { IsErrOf result RingFault.Wide → (e : ℕ) × (e < len) × (limit < C.ring.size (at C.ring before.now e) + C.ring.size (shifted C.ring more.now x e)) }
{
    let mut all = Vec::with_capacity(alloc, len as usize)?;
    for e in 0..len {
        all.push(sum_at(alloc, before, more, x, e)?)?;
    }
    Ok(all)
}

fn sum_at<C: Ring>(alloc: Global, before: &[C], more: &[C], x: u32, e: u32) -> Result<C, RingFault>
    ensures value { IfOk result (λ s. s ≡ sums C.ring before.now more.now x e) }
    ensures wide { IsErrOf result RingFault.Wide → limit < C.ring.size (at C.ring before.now e) + C.ring.size (shifted C.ring more.now x e) }
{
    let first = copy_at(alloc, before, e)?;
    let second = shifted_at(alloc, more, x, e)?;
    first.add(&second)
}

fn shifted_at<C: Ring>(alloc: Global, more: &[C], x: u32, e: u32) -> Result<C, RingFault>
    ensures value { IfOk result (λ s. s ≡ shifted C.ring more.now x e) }
    ensures never_wide { IsOkUnless result RingFault.Memory }
{
    if e < x {
        C::zero(alloc)
    } else {
        copy_at(alloc, more, e - x)
    }
}

/// The number at a cost, zero where there is none.
pub fn copy_at<C: Ring>(alloc: Global, xs: &[C], e: u32) -> Result<C, RingFault>
    ensures value { IfOk result (λ s. s ≡ at C.ring xs.now e) }
    ensures never_wide { IsOkUnless result RingFault.Memory }
{
    match xs.get(e as usize) {
        Some(count) => count.copy(),
        None => C::zero(alloc),
    }
}

// Whether there are ways of the first `len` costs: those before, or of those that cost x more.
fn either(
    alloc: Global,
    before: &[bool],
    more: &[bool],
    x: u32,
    len: u32,
) -> Result<Vec<bool>, AllocError>
    ensures { IfOk result (λ v. v.items ≡ listed (either_reached before.now more.now x) len) }
{
    let mut all = Vec::with_capacity(alloc, len as usize)?;
    for e in 0..len {
        all.push(is_either(before, more, x, e))?;
    }
    Ok(all)
}

fn is_either(before: &[bool], more: &[bool], x: u32, e: u32) -> bool
    ensures { result ≡ either_reached before.now more.now x e }
{
    is_reached(before, e) || (x <= e && is_reached(more, e - x))
}

/// Whether that cost is marked; one past the last is not.
pub fn is_reached(marks: &[bool], e: u32) -> bool
    ensures { result ≡ is_reached marks.now e }
{
    match marks.get(e as usize) {
        Some(mark) => *mark,
        None => false,
    }
}

/// The numbers of a row for the first `len` costs, zero where there is none.
pub fn row_of<C: Ring>(alloc: Global, row: Option<&Row<C>>, len: u32) -> Result<Vec<C>, RingFault>
    ensures value { IfOk result (λ v. v.items ≡ listed (at C.ring (counts_of (option_copied row.entry))) len) }
    ensures never_wide { IsOkUnless result RingFault.Memory }
{
    match row {
        Some(row) => copied(alloc, row.counts.as_slice(), len),
        None => copied(alloc, &[], len),
    }
}

fn copied<C: Ring>(alloc: Global, counts: &[C], len: u32) -> Result<Vec<C>, RingFault>
    ensures value { IfOk result (λ v. v.items ≡ listed (at C.ring counts.now) len) }
    ensures never_wide { IsOkUnless result RingFault.Memory }
{
    let mut all = Vec::new(alloc);
    for e in 0..len {
        all.push(copy_at(alloc, counts, e)?)?;
    }
    Ok(all)
}
