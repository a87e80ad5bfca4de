//! The products over corners without legs, one for each number of them, kept as far as they were asked for. A corner with a
//! leg is not known here.

ghost use Rattle.std.specs.Prelude.{◌≡◌, ◌+◌, ◌<◌, ◌≤◌, ◌^◌, [], IfOk, IfSome, IsErrOf, IsOkUnless};
ghost use Rattle.tv_cells.specs.Extras.{empty_legs};
ghost use Rattle.tv_assigned_series.specs.Terms.{front_terms, IsCornerFrom, IsBeyond};
ghost use Rattle.tv_assigned_series.specs.Empties.{empties, IsPower};

use crate::steps::{unit, with_corner};
use std::alloc::Global;
use std::marker::Model;
use tv_laurent::Series;
use tv_ring::{Ring, RingFault};

/// The product over one corner without legs, that over two, and so on.
#[derive(Drop)]
pub(crate) struct Powers<C: Ring> {
    products: Vec<Series<C>>,
}

impl<C: Ring> Model for Powers<C> {
    ghost use Rattle.std.specs.Prelude.{List};
    ghost use Rattle.tv_laws_series.specs.Terms.{Terms};
    ghost use Rattle.tv_assigned_series.specs.Empties.{ArePowers};

    ghost Value = { List (Terms C) };

    ghost view = { λ a. a.products.items };

    ghost invariant = { λ a. ArePowers C.ring a.products.items };
}

impl<C: Ring> Powers<C> {
    /// No product yet. It takes no memory.
    pub(crate) fn new(alloc: Global) -> Powers<C>
        ensures { result ≡ [] }
    {
        Powers {
            products: Vec::new(alloc),
        }
    }

    /// The product over `count` corners without legs, of each of which this is the series, known through `k`. It begins with
    /// the most corners whose product is kept that far, and keeps what it multiplies.
    pub(crate) fn power(
        &mut self,
        alloc: Global,
        corner: &Series<C>,
        count: usize,
        k: u32,
    ) -> Result<Series<C>, RingFault>
        requires known { k < 2 ^ 29 }
        requires corner { IsCornerFrom C.ring empty_legs k corner.now }
        ensures value { IfOk result (λ s. s ≡ front_terms C.ring (empties count) k) }
        // Wide only where the ways to split at most k boxes over some of them, or the count at one, times the size of one,
        // exceed the limit.
        ensures wide { IsErrOf result RingFault.Wide → IsBeyond C.ring (empties count) k }
    {
        let (begun, first) = self.begun(alloc, count, k)?;
        let mut product = first;
        for place in begun..count {
            product = with_corner(&product, corner)?;
            self.keep(place, product.copy()?)?;
        }
        Ok(product)
    }

    // The most corners, at most `count`, whose product is kept through `k`, and that product.
    fn begun(&self, alloc: Global, count: usize, k: u32) -> Result<(usize, Series<C>), RingFault>
        requires { k < 2 ^ 29 }
        ensures within { IfOk result (λ b. b.0 ≤ count) }
        ensures value { IfOk result (λ b. b.1 ≡ front_terms C.ring (empties b.0) k) }
        ensures never_wide { IsOkUnless result RingFault.Memory }
    {
        for place in (0..count).rev() {
            if let Some(product) = self.kept(place, k)? {
                return Ok((place + 1, product));
            }
        }
        Ok((0, unit(alloc, k)?))
    }

    // The product at that place through `k`, where it is kept that far.
    fn kept(&self, place: usize, k: u32) -> Result<Option<Series<C>>, RingFault>
        requires { k < 2 ^ 29 }
        ensures value { IfOk result (λ found. IfSome found (λ s. s ≡ front_terms C.ring (empties (place + 1)) k)) }
        ensures never_wide { IsOkUnless result RingFault.Memory }
    {
        if place < self.products.len() {
            let product = &self.products[place];
            if product.upto() >= i64::from(k) {
                return Ok(Some(product.copy()?.cut(i64::from(k))));
            }
        }
        Ok(None)
    }

    // Puts the product at that place, the next one after those that are kept or one of them; beyond them it keeps nothing.
    fn keep(&mut self, place: usize, product: Series<C>) -> Result<(), RingFault>
        requires { IsPower C.ring (place + 1) product }
        ensures never_wide { IsOkUnless result RingFault.Memory }
    {
        if place < self.products.len() {
            self.products[place] = product;
        } else if place == self.products.len() {
            self.products.push(product)?;
        }
        Ok(())
    }
}
