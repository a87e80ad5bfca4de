//! A class with its series, as a family keeps it. It does not know the family's heights.

ghost use Rattle.std.specs.Prelude.{◌≡◌, IfOk};
ghost use Rattle.tv_laws_series.specs.Terms.{IsWithin};
ghost use Rattle.tv_spec_series.specs.Families.{row, cut_row};

use std::alloc::AllocError;
use std::marker::Model;
use tv_lattice::class::Class;
use tv_laurent::Series;
use tv_ring::Ring;

/// A row of a family: a class and its series.
#[derive(Drop)]
pub struct Kept<C: Ring> {
    class: Class,
    series: Series<C>,
}

impl<C: Ring> Model for Kept<C> {
    ghost use Rattle.tv_spec_series.specs.Families.{Row, row};

    ghost Value = { Row C };

    ghost view = { λ kept. row kept.class kept.series };
}

impl<C: Ring> Kept<C> {
    /// The row of this class with this series. It takes no memory.
    pub fn new(class: Class, series: Series<C>) -> Kept<C>
        ensures value { result ≡ row class series }
    {
        Kept { class, series }
    }

    /// The row's class.
    pub fn class(&self) -> &Class
        ensures value { result.now ≡ self.now.class }
    {
        &self.class
    }

    /// The series of its class.
    pub fn series(&self) -> &Series<C>
        ensures value { result.now ≡ self.now.series }
    {
        &self.series
    }

    /// The same row once more.
    pub fn copy(&self) -> Result<Kept<C>, AllocError>
        ensures value { IfOk result (λ copy. copy ≡ self.now) }
    {
        let class = self.class.copy()?;
        let series = self.series.copy()?;
        Ok(Kept { class, series })
    }

    /// Forgets the coefficients beyond `upto`.
    pub fn truncate(&mut self, upto: i64)
        requires within { IsWithin upto }
        ensures value { self.new ≡ cut_row upto self.old }
    {
        self.series.truncate(upto);
    }
}
