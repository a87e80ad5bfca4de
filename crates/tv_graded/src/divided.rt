//! Rows whose series are divided by one series. It keeps each class, and knows no heights.

ghost use Rattle.std.specs.Prelude.{◌≡◌, IfOk, IfErr, map};
ghost use Rattle.std.specs.List.{AllByRecursion};
ghost use Rattle.tv_laws_series.specs.Quotients.{IsUnitSeries};
ghost use Rattle.tv_laurent.specs.QuotientCalls.{QuotientReaches};
ghost use Rattle.tv_spec_series.specs.Families.{divided_row};
ghost use Rattle.tv_graded.specs.Calls.{OnWideClass, IsRowWide, IsAmongWide};

use crate::fault::GradedFault;
use crate::kept::Kept;
use std::alloc::Global;
use tv_laurent::{Series, SeriesFault};
use tv_ring::Ring;

fn divided_row<C: Ring>(row: &Kept<C>, zero: &Series<C>) -> Result<Kept<C>, GradedFault>
    requires unit { IsUnitSeries C.ring zero.now }
    requires reaches { QuotientReaches C.ring row.now.series zero.now }
    ensures value { IfOk result (λ divided. divided ≡ divided_row C.ring zero.now row.now) }
    ensures wide { IfErr result (λ e. OnWideClass e (IsRowWide C.ring zero.now row.now)) }
{
    let class = row.class().copy()?;
    match row.series().div_unit(zero) {
        Ok(series) => Ok(Kept::new(class, series)),
        Err(SeriesFault::Wide(exponent)) => Err(GradedFault::Wide { class, exponent }),
        Err(SeriesFault::Memory) => Err(GradedFault::Memory),
    }
}

/// Each row with its series divided by `zero`.
pub fn divided_rows<C: Ring>(
    alloc: Global,
    rows: &[Kept<C>],
    zero: &Series<C>,
) -> Result<Vec<Kept<C>>, GradedFault>
    requires unit { IsUnitSeries C.ring zero.now }
    requires reaches { AllByRecursion (λ row. QuotientReaches C.ring row.series zero.now) rows.now }
    ensures value { IfOk result (λ divided. divided.items ≡ map (divided_row C.ring zero.now) rows.now) }
    ensures wide { IfErr result (λ e. OnWideClass e (IsAmongWide C.ring zero.now rows.now)) }
{
    let mut divided = Vec::with_capacity(alloc, rows.len())?;
    for row in rows {
        divided.push(divided_row(row, zero)?)?;
    }
    Ok(divided)
}
