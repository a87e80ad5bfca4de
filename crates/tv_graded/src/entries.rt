//! The classes of a family in order, one after the other. It copies nothing.

ghost use Rattle.std.specs.Prelude.{◌≡◌, map};
ghost use Rattle.std.specs.Iterator.{YieldsFirstBy, item_count};
ghost use Rattle.tv_spec_series.specs.Families.{row};
ghost use Rattle.tv_graded.specs.Listing.{with_degree, IsListing};

use crate::entry::Entry;
use crate::kept::Kept;
use std::marker::Model;
use tv_ring::Ring;

/// The classes that are left, in the family's order, seen as the list of their rows with their degrees.
#[derive(Drop)]
pub struct Entries<'a, C: Ring> {
    heights: &'a [i64],
    rows: &'a [Kept<C>],
}

impl<'a, C: Ring> Model for Entries<'a, C> {
    ghost use Rattle.std.specs.Prelude.{ℤ, List, map};
    ghost use Rattle.tv_spec_series.specs.Families.{Row};
    ghost use Rattle.tv_graded.specs.Listing.{with_degree, IsListing};

    ghost Value = { List (Row C × ℤ) };

    ghost view = { λ entries. map (with_degree entries.heights.now) entries.rows.now };

    ghost invariant = { λ entries. IsListing entries.heights.now entries.rows.now };
}

impl<'a, C: Ring> Entries<'a, C> {
    /// All of these rows.
    pub(crate) fn new(heights: &'a [i64], rows: &'a [Kept<C>]) -> Entries<'a, C>
        requires listing { IsListing heights.now rows.now }
        ensures value { result ≡ map (with_degree heights.now) rows.now }
    {
        Entries { heights, rows }
    }
}

impl<'a, C: Ring> Iterator for Entries<'a, C> {
    type Item = Entry<'a, C>;

    ghost next_gives = { YieldsFirstBy (λ entry. (row entry.class.now entry.series.now, entry.degree)) (λ rest. rest) };

    ghost remaining = { item_count (λ rest. rest) };

    fn next(&mut self) -> Option<Entry<'a, C>> {
        let (first, rest) = self.rows.split_first()?;
        self.rows = rest;
        Some(Entry {
            class: first.class(),
            degree: first.class().degree(self.heights),
            series: first.series(),
        })
    }
}
