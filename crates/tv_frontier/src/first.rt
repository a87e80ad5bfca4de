//! The one state before all corners: class zero, with one at exponent 0. Nothing is joined here.

ghost use Rattle.std.specs.Prelude.{◌≡◌, [], ◌∷◌, pos, IfOk, IfErr, IsOkUnless};
ghost use Rattle.tv_laws_series.specs.Terms.{terms};
ghost use Rattle.tv_frontier.specs.Joining.{IsSpan, moved_terms};
ghost use Rattle.tv_frontier.specs.Rows.{IsPart};
ghost use Rattle.tv_frontier.specs.Bounds.{uptos};
ghost use Rattle.tv_frontier.specs.Layers.{IsLayer};

use crate::joining::{Stage, moved};
use crate::layer::{Layer, without_classes};
use crate::picks::nothing;
use std::alloc::Global;
use tv_assigned_series::{GlueFault, class_of};
use tv_assignment::Assignment;
use tv_graded::Graded;
use tv_laurent::Series;
use tv_ring::{Ring, RingFault};

/// The states before all corners, with all that is kept.
pub(crate) fn first_layer<C: Ring>(alloc: Global, stage: &Stage) -> Result<Layer<C>, GlueFault>
    requires span { IsSpan stage.now.web.now stage.now.d stage.now.n stage.now.floor stage.now.upto }
    ensures layer { IfOk result (λ layer. IsLayer C.IsValue C.ring stage.now.web.now stage.now.d stage.now.n 0 layer.keys.items layer.parts.items) }
    ensures upto { IfOk result (λ layer. uptos layer.parts.items ≡ stage.now.upto ∷ []) }
    ensures memory { IfErr result (λ e. e ≡ GlueFault.Memory) }
{
    let mut keys = Vec::new(alloc);
    keys.push(Assignment::new(Vec::new(alloc)))?;
    let mut parts = Vec::new(alloc);
    parts.push(first_part(alloc, stage)?)?;
    Ok(Layer { keys, parts })
}

fn first_part<C: Ring>(alloc: Global, stage: &Stage) -> Result<Graded<C>, GlueFault>
    requires span { IsSpan stage.now.web.now stage.now.d stage.now.n stage.now.floor stage.now.upto }
    ensures part { IfOk result (λ part. IsPart C.IsValue C.ring stage.now.web.now stage.now.d stage.now.n 0 [] part) }
    ensures upto { IfOk result (λ part. part.upto ≡ stage.now.upto) }
    ensures memory { IfErr result (λ e. e ≡ GlueFault.Memory) }
{
    stage.web.known();
    let mut family = without_classes(alloc, stage, stage.upto)?;
    let empty = Assignment::new(nothing(alloc, stage.web)?);
    let class = class_of(alloc, stage.web, &empty)?;
    let series = match first_series(alloc, stage) {
        Ok(series) => series,
        Err(_) => return Err(GlueFault::Memory),
    };
    series.known();
    match family.add_into(class, series) {
        Ok(()) => Ok(family),
        Err(_) => Err(GlueFault::Memory),
    }
}

// One at exponent 0, as far as exponents are kept.
fn first_series<C: Ring>(alloc: Global, stage: &Stage) -> Result<Series<C>, RingFault>
    requires span { IsSpan stage.now.web.now stage.now.d stage.now.n stage.now.floor stage.now.upto }
    ensures value { IfOk result (λ series. series ≡ moved_terms C.ring stage.now.floor stage.now.upto (terms (pos 0) (C.ring.unit ∷ [])) (pos 0)) }
    ensures never_wide { IsOkUnless result RingFault.Memory }
{
    let mut ones = Vec::new(alloc);
    ones.push(C::one(alloc)?)?;
    let one = Series::new(0, ones);
    moved(alloc, stage, &one, 0)
}
