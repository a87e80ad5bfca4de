//! Which edges are pending and which are met first at a corner, as one truth for each compact edge, and what is picked from a
//! list or put into it at those edges. No degree and no series is known here.

ghost use Rattle.std.specs.Prelude.{◌≡◌, ◌+◌, ◌<◌, ◌^◌, ◌++◌, ◌∷◌, [], suc, map, cond, length, false, nat_lt, ◌&&◌, slice_index_or, IfOk, OnOk};
ghost use Rattle.tv_spec_plane.specs.Web.{compact};
ghost use Rattle.tv_spec_partial.specs.Partial.{is_met, is_pending};
ghost use Rattle.tv_laws_frontier.specs.Steps.{is_new, nothing};
ghost use Rattle.tv_frontier.specs.Picks.{picks, put_by};

use std::alloc::{AllocError, Global};
use tv_degrees::grade::GradedWeb;
use tv_partition::diagram::Diagram;
use tv_spec_plane::records::CompactEdge;

/// Whether exactly one corner of each compact edge is among the first `t`.
pub(crate) fn pending_flags(alloc: Global, web: &GradedWeb, t: u32) -> Result<Vec<bool>, AllocError>
    ensures { IfOk result (λ flags. flags.items ≡ map (is_pending t) (compact web.now)) }
{
    let edges = web.compact();
    edges.iter().map(|edge| is_pending(edge, t)).collect(alloc)
}

/// Whether each compact edge is met first at corner `t`.
pub(crate) fn new_flags(alloc: Global, web: &GradedWeb, t: u32) -> Result<Vec<bool>, AllocError>
    requires { t + 1 < 2 ^ 32 }
    ensures { IfOk result (λ flags. flags.items ≡ map (is_new t) (compact web.now)) }
{
    let edges = web.compact();
    edges.iter().map(|edge| is_new(edge, t)).collect(alloc)
}

fn is_met(edge: &CompactEdge, t: u32) -> bool
    ensures { result ≡ is_met t edge.now }
{
    edge.corner_c < t || edge.corner_d < t
}

fn is_pending(edge: &CompactEdge, t: u32) -> bool
    ensures { result ≡ is_pending t edge.now }
{
    if edge.corner_c < t {
        !(edge.corner_d < t)
    } else {
        edge.corner_d < t
    }
}

fn is_new(edge: &CompactEdge, t: u32) -> bool
    requires { t + 1 < 2 ^ 32 }
    ensures { result ≡ is_new t edge.now }
{
    is_met(edge, t + 1) && !is_met(edge, t)
}

/// The degrees at the edges that the flags name.
pub(crate) fn picked_degrees(
    alloc: Global,
    flags: &[bool],
    degrees: &[u64],
) -> Result<Vec<u64>, AllocError>
    ensures { IfOk result (λ picked. picked.items ≡ picks flags.now degrees.now) }
{
    let mut picked = Vec::new(alloc);
    for k in 0..degrees.len() {
        push_if(&mut picked, takes(flags, k), degrees[k])?;
    }
    Ok(picked)
}

fn push_if(picked: &mut Vec<u64>, take: bool, degree: u64) -> Result<(), AllocError>
    ensures { OnOk result (picked.new.items ≡ cond take (picked.old.items ++ degree ∷ []) picked.old.items) }
{
    if take {
        picked.push(degree)?;
    }
    Ok(())
}

/// The diagrams at those edges.
pub(crate) fn picked_diagrams(
    alloc: Global,
    flags: &[bool],
    diagrams: &[Diagram],
) -> Result<Vec<Diagram>, AllocError>
    ensures { IfOk result (λ picked. picked.items ≡ picks flags.now diagrams.now) }
{
    let mut picked = Vec::new(alloc);
    for k in 0..diagrams.len() {
        copy_if(&mut picked, takes(flags, k), &diagrams[k])?;
    }
    Ok(picked)
}

fn copy_if(picked: &mut Vec<Diagram>, take: bool, diagram: &Diagram) -> Result<(), AllocError>
    ensures { OnOk result (picked.new.items ≡ cond take (picked.old.items ++ diagram.now ∷ []) picked.old.items) }
{
    if take {
        picked.push(diagram.clone()?)?;
    }
    Ok(())
}

/// The diagrams `base`, with those of the choice, in their order, at the edges that the flags name.
pub(crate) fn put(
    alloc: Global,
    flags: &[bool],
    choice: &[Diagram],
    base: &[Diagram],
) -> Result<Vec<Diagram>, AllocError>
    ensures { IfOk result (λ all. all.items ≡ put_by flags.now choice.now base.now) }
{
    let mut all = Vec::new(alloc);
    let mut next = 0;
    for k in 0..base.len() {
        next = put_one(&mut all, takes(flags, k), choice, next, &base[k])?;
    }
    Ok(all)
}

// Puts in the next diagram of the choice, if one is taken here and there is one, else that of the base; and what is next then.
fn put_one(
    all: &mut Vec<Diagram>,
    take: bool,
    choice: &[Diagram],
    next: usize,
    base: &Diagram,
) -> Result<usize, AllocError>
    ensures put { OnOk result (all.new.items ≡ all.old.items ++ cond (take && nat_lt next (length choice.now)) (slice_index_or choice.now next []) base.now ∷ []) }
    ensures next { IfOk result (λ after. after ≡ cond (take && nat_lt next (length choice.now)) (next + 1) next) }
{
    if take && next < choice.len() {
        all.push(choice[next].clone()?)?;
        Ok(next + 1)
    } else {
        all.push(base.clone()?)?;
        Ok(next)
    }
}

/// The empty diagram on every compact edge.
pub(crate) fn nothing(alloc: Global, web: &GradedWeb) -> Result<Vec<Diagram>, AllocError>
    ensures { IfOk result (λ all. all.items ≡ nothing (compact web.now)) }
{
    let mut all = Vec::new(alloc);
    for k in 0..web.compact().len() {
        all.push(Diagram::empty(alloc))?;
    }
    Ok(all)
}

/// Whether flag number `k` is set.
pub(crate) fn takes(flags: &[bool], k: usize) -> bool
    ensures { result ≡ slice_index_or flags.now k false }
{
    match flags.get(k) {
        Some(flag) => *flag,
        None => false,
    }
}
