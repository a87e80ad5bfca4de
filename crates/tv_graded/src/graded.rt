//! A family of series by class: its rows are sorted by degree, then by entries. It does not know which classes a web has.

ghost use Rattle.std.specs.Prelude.{◌≡◌, ◌≤◌, ◌↔◌, ◌≤ℤ◌, pos, length, Some, None, IsNone, IfSome, IfErr, OnOk, OnErr, IfOk, MatchOption, slice_get, map};
ghost use Rattle.std.specs.List.{AllByRecursion};
ghost use Rattle.tv_laws_series.specs.Terms.{upto, IsWithin};
ghost use Rattle.tv_laws_series.specs.Quotients.{quotient_upto, IsUnitSeries};
ghost use Rattle.tv_laurent.specs.SeriesCalls.{OnWide};
ghost use Rattle.tv_laurent.specs.QuotientCalls.{QuotientReaches};
ghost use Rattle.tv_lattice.specs.Limits.{IsHeight};
ghost use Rattle.tv_spec_plane.specs.Web.{degree_of};
ghost use Rattle.tv_spec_series.specs.Families.{row, find, added, divided, cut, without_rows, HasPlace, IsFamily};
ghost use Rattle.tv_graded.specs.Listing.{with_degree};
ghost use Rattle.tv_graded.specs.Calls.{IsAddedWide, OnWideClass, IsDividedWide};

use crate::divided::divided_rows;
use crate::entries::Entries;
use crate::entry::Entry;
use crate::fault::GradedFault;
use crate::kept::Kept;
use crate::order::{is_at, place_of};
use crate::rows::{copies, truncate_each};
use std::alloc::{AllocError, Global};
use std::marker::Model;
use tv_lattice::class::Class;
use tv_laurent::{Series, SeriesFault};
use tv_ring::Ring;

/// A family of series by class.
///
/// Each class has an entry for each height and a degree from 0 to `top`, and each series is known through `upto`.
/// Rows are sorted by degree, then by entries.
#[derive(Drop)]
pub struct Graded<C: Ring> {
    heights: Vec<i64>,
    top: i64,
    upto: i64,
    rows: Vec<Kept<C>>,
}

impl<C: Ring> Model for Graded<C> {
    ghost use Rattle.tv_spec_series.specs.Families.{Family};
    ghost use Rattle.tv_graded.specs.Listing.{with_degree};
    ghost use Rattle.tv_graded.specs.Calls.{IsHeld};

    ghost Value = { Family C };

    ghost view = { λ g. record { heights = g.heights.items; top = g.top; upto = g.upto; rows = g.rows.items } };

    ghost invariant = { λ g. IsHeld C.IsValue C.ring (record { heights = g.heights.items; top = g.top; upto = g.upto; rows = g.rows.items }) };
}

impl<C: Ring> Graded<C> {
    /// The family that has no class yet. It takes no memory. The exponent `upto` is at most 2^60 in absolute value.
    pub fn new(alloc: Global, heights: Vec<i64>, top: i64, upto: i64) -> Graded<C>
        requires small { AllByRecursion IsHeight heights.items }
        requires within { IsWithin upto }
        ensures value { result ≡ without_rows heights.items top upto }
    {
        Graded {
            heights,
            top,
            upto,
            rows: Vec::new(alloc),
        }
    }

    /// The heights by which degrees are taken.
    pub fn heights(&self) -> &[i64]
        ensures value { result.now ≡ self.now.heights }
        ensures small { AllByRecursion IsHeight result.now }
    {
        &self.heights
    }

    /// The greatest degree of a class.
    pub fn top(&self) -> i64
        ensures value { result ≡ self.now.top }
    {
        self.top
    }

    /// The exponent through which each series is known.
    pub fn upto(&self) -> i64
        ensures value { result ≡ self.now.upto }
        ensures within { IsWithin result }
    {
        self.upto
    }

    /// The number of classes.
    pub fn len(&self) -> usize
        ensures value { result ≡ length self.now.rows }
    {
        self.rows.len()
    }

    /// Class number `k`, counted from 0.
    pub fn at(&self, k: usize) -> Option<Entry<'_, C>>
        ensures none { IsNone result ↔ (length self.now.rows ≤ k) }
        ensures row { IfSome result (λ entry. slice_get self.now.rows k ≡ Some (row entry.class.now entry.series.now)) }
        ensures degree { IfSome result (λ entry. entry.degree ≡ degree_of self.now.heights entry.class.now) }
    {
        match self.rows.get(k) {
            Some(row) => Some(Entry {
                class: row.class(),
                degree: row.class().degree(&self.heights),
                series: row.series(),
            }),
            None => None,
        }
    }

    /// Each class once, in order, with its degree and its series.
    pub fn iter(&self) -> Entries<'_, C>
        ensures value { result ≡ map (with_degree self.now.heights) self.now.rows }
    {
        Entries::new(&self.heights, &self.rows)
    }

    /// The series of a class.
    pub fn get(&self, class: &Class) -> Option<&Series<C>>
        ensures value { MatchOption result (find class.now self.now.rows ≡ None) (λ series. find class.now self.now.rows ≡ Some (row class.now series.now)) }
    {
        if class.entries().len() != self.heights.len() {
            return None;
        }
        let place = place_of(&self.heights, &self.rows, class);
        if is_at(&self.rows, place, class) {
            Some(self.rows[place].series())
        } else {
            None
        }
    }

    /// Adds the series into the class, through the family's exponent. On an error nothing has changed.
    pub fn add_into(&mut self, class: Class, series: Series<C>) -> Result<(), SeriesFault>
        requires place { HasPlace self.old.heights self.old.top class }
        requires known { self.old.upto ≤ℤ upto series }
        ensures ok { OnOk result (self.new ≡ added C.ring class series self.old) }
        ensures err { OnErr result (self.new ≡ self.old) }

        // Wide only where the class is there, and the sizes of both coefficients at that exponent add up to more than the limit.
        ensures wide { IfErr result (λ e. OnWide e (IsAddedWide C.ring class series self.old)) }
    {
        series.known();
        let place = place_of(&self.heights, &self.rows, &class);
        if is_at(&self.rows, place, &class) {
            let sum = self.rows[place].series().add(&series)?;
            self.rows[place] = Kept::new(class, sum.cut(self.upto));
            Ok(())
        } else {
            let cut = series.cut(self.upto);
            Ok(self.rows.insert(place, Kept::new(class, cut))?)
        }
    }

    /// The family with each series divided by `zero`, which begins with one at exponent 0.
    pub fn div_zero(&self, zero: &Series<C>) -> Result<Graded<C>, GradedFault>
        requires unit { IsUnitSeries C.ring zero.now }
        requires known { AllByRecursion (λ row. self.now.upto ≤ℤ quotient_upto row.series zero.now) self.now.rows }
        requires reaches { AllByRecursion (λ row. QuotientReaches C.ring row.series zero.now) self.now.rows }
        ensures value { IfOk result (λ family. family ≡ divided C.ring zero.now self.now) }

        // Wide only where the class is there, and the quotient of its series is too wide at that exponent.
        ensures wide { IfErr result (λ e. OnWideClass e (IsDividedWide C.ring zero.now self.now)) }
    {
        zero.known();
        let alloc = *self.rows.allocator();
        let rows = divided_rows(alloc, &self.rows, zero)?;
        Ok(Graded {
            heights: self.heights.to_vec(alloc)?,
            top: self.top,
            upto: self.upto,
            rows,
        })
    }

    /// The same family once more.
    pub fn copy(&self) -> Result<Graded<C>, AllocError>
        ensures value { IfOk result (λ family. family ≡ self.now) }
    {
        let alloc = *self.rows.allocator();
        let heights = self.heights.to_vec(alloc)?;
        let rows = copies(alloc, &self.rows)?;
        Ok(Graded {
            heights,
            top: self.top,
            upto: self.upto,
            rows,
        })
    }

    /// Forgets the coefficients beyond `upto`, which the family knows. It takes no memory.
    pub fn cut(self, upto: i64) -> Graded<C>
        requires within { IsWithin upto }
        requires known { upto ≤ℤ self.upto }
        ensures value { result ≡ cut upto self }
    {
        let mut family = self;
        family.truncate(upto);
        family
    }

    /// Forgets the coefficients beyond `upto`, in place.
    pub fn truncate(&mut self, upto: i64)
        requires within { IsWithin upto }
        requires known { upto ≤ℤ self.old.upto }
        ensures value { self.new ≡ cut upto self.old }
    {
        truncate_each(&mut self.rows, upto);
        self.upto = upto;
    }

    /// Answers nothing, and tells a proof what holds of each family that is kept.
    pub fn known(&self)
        ensures family { IsFamily C.IsValue C.ring self.now }
        ensures heights { AllByRecursion IsHeight self.now.heights }
    {
        let _opened = &self.top;
    }
}
