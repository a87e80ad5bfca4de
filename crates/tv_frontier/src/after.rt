//! The states after some corners, one corner after the other. How a corner is joined is not known here.

ghost use Rattle.std.specs.Prelude.{◌≡◌, ◌≤◌, length, unsigned_abs, IfOk, IfErr};
ghost use Rattle.tv_assigned_series.specs.FamilyFaults.{OnWide, IsCrowded};
ghost use Rattle.tv_frontier.specs.Joining.{IsSpan};
ghost use Rattle.tv_frontier.specs.Bounds.{uptos, AllReach};
ghost use Rattle.tv_frontier.specs.Layers.{IsLayer};

use crate::first::first_layer;
use crate::joining::Stage;
use crate::layer::{Layer, next_layer};
use crate::lowest::{lesser, lowest_of};
use crate::plan::plan_of;
use std::alloc::{AllocError, Global};
use tv_assigned_series::{Corners, GlueFault};
use tv_degrees::grade::GradedWeb;
use tv_ring::Ring;
use tv_spec_plane::limits::GREATEST_DEGREE;

/// The exponents at which a number can stand before the last corner: the first and the last of them.
pub(crate) fn span_of(
    alloc: Global,
    web: &GradedWeb,
    d: u32,
    n: i64,
) -> Result<(i64, i64), AllocError>
    requires degree { d ≤ GREATEST_DEGREE }
    requires order { unsigned_abs n ≤ 100000000 }
    ensures { IfOk result (λ span. IsSpan web.now d n span.0 span.1) }
{
    let low = lowest_of(alloc, web, d)?;
    let upto = n - low;
    Ok((lesser(low, upto + 1), upto))
}

/// The states after the first corners, as many as the stage says, each through its order at least.
pub(crate) fn layer_after<C: Ring>(
    alloc: Global,
    stage: &Stage,
    corners: &mut Corners<C>,
) -> Result<Layer<C>, GlueFault>
    requires span { IsSpan stage.now.web.now stage.now.d stage.now.n stage.now.floor stage.now.upto }
    requires corners { stage.now.t ≤ length stage.now.web.now.triangles }
    ensures reach { IfOk result (λ layer. AllReach stage.now.n (uptos layer.parts.items)) }
    ensures layer { IfOk result (λ layer. IsLayer C.IsValue C.ring stage.now.web.now stage.now.d stage.now.n stage.now.t layer.keys.items layer.parts.items) }
    ensures wide { IfErr result (λ e. OnWide e (IsCrowded C.ring stage.now.web.now stage.now.d stage.now.n)) }
{
    let plan = plan_of(alloc, stage)?;
    let mut layer = first_layer(alloc, stage)?;
    for t in 0..stage.t {
        let here = Stage {
            web: stage.web,
            d: stage.d,
            n: stage.n,
            floor: stage.floor,
            upto: stage.upto,
            t,
        };
        let bounds = plan[(stage.t - 1 - t) as usize].each();
        layer = next_layer(alloc, &here, &layer, bounds, corners)?;
    }
    Ok(layer)
}
