//! Truncated Laurent series over a ring: dense coefficients from a lowest exponent on.
//! It knows of no classes and no degrees, and keeps zeros as they are.

ghost use Rattle.std.specs.Prelude.{◌≡◌, ◌+◌, ◌-◌, ◌<◌, ◌≤◌, ◌+ℤ◌, ◌≤ℤ◌, ◌^◌, pos, min, length, IfOk, IfErr};
ghost use Rattle.tv_ring.specs.Sums.{at, AreValues};
ghost use Rattle.tv_laws_series.specs.Terms.{terms, above, upto, IsWithin, IsBounded};
ghost use Rattle.tv_laws_series.specs.Series.{series_sum, product_upto, series_product, series_scale, series_shift, series_cut, IsSeries};
ghost use Rattle.tv_laws_series.specs.Quotients.{series_quotient, IsUnitSeries};
ghost use Rattle.tv_laurent.specs.QuotientCalls.{QuotientReaches, IsQuotientWide};
ghost use Rattle.tv_laurent.specs.SeriesCalls.{Tells, ReachesAddUp, ReachesAddTo, OnWide, IsSumWide, IsProductWide, IsMultipleWide};

use crate::coefficient::Coefficient;
use crate::copies::copies;
use crate::exponents::places;
use crate::fault::SeriesFault;
use crate::products::{multiples, products};
use crate::quotients::quotients;
use crate::sums::sums;
use std::alloc::AllocError;
use std::marker::Model;
use tv_ring::Ring;

/// A series that is zero below its lowest exponent and known through its last one.
///
/// Exponents lie between -2^60 and 2^60. A series that knows nothing has its last exponent one below its lowest.
#[derive(Drop)]
pub struct Series<C: Ring> {
    low: i64,
    coefficients: Vec<C>,
}

impl<C: Ring> Model for Series<C> {
    ghost use Rattle.tv_laws_series.specs.Terms.{Terms, terms};
    ghost use Rattle.tv_laws_series.specs.Series.{IsSeries};

    ghost Value = { Terms C };

    ghost view = { λ s. terms s.low s.coefficients.items };

    ghost invariant = { λ s. IsSeries C.IsValue C.ring (terms s.low s.coefficients.items) };
}

/// Answers nothing, and tells a proof that each coefficient is a value.
fn all_known<C: Ring>(coefficients: &[C])
    ensures values { AreValues C.IsValue (at C.ring coefficients.now) }
{
    for coefficient in coefficients {
        coefficient.known();
    }
}

impl<C: Ring> Series<C> {
    /// The series of these coefficients, the first at `low`, known through `low + length - 1`.
    pub fn new(low: i64, coefficients: Vec<C>) -> Series<C>
        requires bounded { IsBounded (terms low coefficients.items) }
        ensures value { result ≡ terms low coefficients.items }
    {
        all_known(&coefficients);
        Series { low, coefficients }
    }

    /// The lowest exponent.
    pub fn low(&self) -> i64
        ensures value { result ≡ self.now.low }
    {
        self.low
    }

    /// The exponent through which it is known, at least `low - 1`.
    pub fn upto(&self) -> i64
        ensures value { result ≡ upto self.now }
    {
        self.low + self.coefficients.len() as i64 - 1
    }

    /// The coefficient at an exponent.
    pub fn coefficient(&self, n: i64) -> Coefficient<'_, C>
        ensures told { Tells C.ring self.now n result }
    {
        if n > self.upto() {
            Coefficient::Beyond
        } else if n < self.low {
            Coefficient::Zero
        } else {
            Coefficient::Is(&self.coefficients[(n - self.low) as usize])
        }
    }

    /// The sum, from the lesser low, known through the lesser last exponent.
    pub fn add(&self, other: &Series<C>) -> Result<Series<C>, SeriesFault>
        ensures value { IfOk result (λ s. s ≡ series_sum C.ring self.now other.now) }

        // Wide only where the sizes of both coefficients at that exponent add up to more than the limit.
        ensures wide { IfErr result (λ e. OnWide e (IsSumWide C.ring self.now other.now)) }
    {
        let low = self.low.min(other.low);
        let before = places(low, self.low);
        let before_other = places(low, other.low);
        let count = (before + self.coefficients.len()).min(before_other + other.coefficients.len());
        let alloc = *self.coefficients.allocator();
        let coefficients = sums(
            alloc,
            low,
            count,
            &self.coefficients,
            before,
            &other.coefficients,
            before_other,
        )?;
        Ok(Series { low, coefficients })
    }

    /// The product, from the sum of both lows, known through the lesser of `low + other.upto` and `other.low + upto`.
    pub fn mul(&self, other: &Series<C>) -> Result<Series<C>, SeriesFault>
        requires low { IsWithin (self.now.low +ℤ other.now.low) }
        requires upto { IsWithin (product_upto self.now other.now) }
        requires reaches { ReachesAddUp C.ring self.now.coefficients other.now.coefficients }
        ensures value { IfOk result (λ s. s ≡ series_product C.ring self.now other.now) }

        // Wide only where the sizes of the products of the pairs that meet at that exponent add up to more than the limit.
        ensures wide { IfErr result (λ e. OnWide e (IsProductWide C.ring self.now other.now)) }
    {
        let low = self.low + other.low;
        let count = self.coefficients.len().min(other.coefficients.len());
        let alloc = *self.coefficients.allocator();
        let coefficients = products(alloc, low, count, &self.coefficients, &other.coefficients)?;
        Ok(Series { low, coefficients })
    }

    /// The quotient by a series that begins with one at exponent 0.
    ///
    /// It begins at this series' low, and is known through the lesser of `upto` and `low + by.upto`.
    pub fn div_unit(&self, by: &Series<C>) -> Result<Series<C>, SeriesFault>
        requires unit { IsUnitSeries C.ring by.now }
        requires reaches { QuotientReaches C.ring self.now by.now }
        ensures value { IfOk result (λ s. s ≡ series_quotient C.ring self.now by.now) }

        // Wide only where the size of the coefficient at that exponent, and the sizes of the products that are taken from it, add up to more than the limit.
        ensures wide { IfErr result (λ e. OnWide e (IsQuotientWide C.ring self.now by.now)) }
    {
        let low = self.low;
        let count = self.coefficients.len().min(by.coefficients.len());
        let alloc = *self.coefficients.allocator();
        let coefficients = quotients(alloc, low, count, &self.coefficients, &by.coefficients)?;
        Ok(Series { low, coefficients })
    }

    /// Each coefficient multiplied by `factor`.
    pub fn scale(&self, factor: &C) -> Result<Series<C>, SeriesFault>
        requires reaches { ReachesAddTo C.ring factor.now self.now.coefficients }
        ensures value { IfOk result (λ s. s ≡ series_scale C.ring factor.now self.now) }

        // Wide only where the size of the coefficient there times that of the factor exceeds the limit.
        ensures wide { IfErr result (λ e. OnWide e (IsMultipleWide C.ring factor.now self.now)) }
    {
        factor.known();
        let alloc = *self.coefficients.allocator();
        let coefficients = multiples(alloc, self.low, factor, &self.coefficients)?;
        Ok(Series {
            low: self.low,
            coefficients,
        })
    }

    /// The same series once more.
    pub fn copy(&self) -> Result<Series<C>, AllocError>
        ensures value { IfOk result (λ s. s ≡ self.now) }
    {
        let coefficients = copies(*self.coefficients.allocator(), &self.coefficients)?;
        Ok(Series {
            low: self.low,
            coefficients,
        })
    }

    /// Moves each exponent by `k`. It takes no memory.
    pub fn shift(self, k: i64) -> Series<C>
        requires bounded { IsBounded (series_shift k self) }
        ensures value { result ≡ series_shift k self }
    {
        Series {
            low: self.low + k,
            coefficients: self.coefficients,
        }
    }

    /// Forgets the coefficients beyond `upto`. It takes no memory.
    pub fn cut(self, upto: i64) -> Series<C>
        requires within { IsWithin upto }
        ensures value { result ≡ series_cut upto self }
    {
        let mut series = self;
        series.truncate(upto);
        series
    }

    /// Forgets the coefficients beyond `upto`, in place.
    pub fn truncate(&mut self, upto: i64)
        requires within { IsWithin upto }
        ensures value { self.new ≡ series_cut upto self.old }
    {
        let low = self.low.min(upto + 1);
        self.coefficients.truncate((upto + 1 - low) as usize);
        self.low = low;
    }

    /// Answers nothing, and tells a proof that exponents are bounded and coefficients are values.
    pub fn known(&self)
        ensures value { IsSeries C.IsValue C.ring self.now }
    {
        let _opened = &self.low;
    }
}
