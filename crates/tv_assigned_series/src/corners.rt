//! The series of corners, kept by the least image of their legs: one series does for all six. One that is kept is computed
//! anew only where more is asked for than it tells. Which corners a web has is not known here.

ghost use Rattle.std.specs.Prelude.{◌≡◌, ◌<◌, ◌≤◌, ◌*◌, ◌^◌, ℕ, [], Some, length, slice_get, IfOk, IsErrOf, OnErr, OnOk};
ghost use Rattle.std.specs.Map.{values_of};
ghost use Rattle.tv_ring.specs.Operations.{limit};
ghost use Rattle.tv_cells.specs.Extras.{count, empty_legs};
ghost use Rattle.tv_images.specs.Least.{least};
ghost use Rattle.tv_assigned_series.specs.Terms.{front_terms, IsBeyond};
ghost use Rattle.tv_assigned_series.specs.Empties.{empties};
ghost use Rattle.tv_assigned_series.specs.Kept.{IsPlaceOf, Keeps, KeepsMore};

use crate::empties::Powers;
use crate::steps::unit;
use indexmap::IndexMap;
use std::alloc::Global;
use std::marker::Model;
use tv_cells::legs::Legs;
use tv_images::least_image;
use tv_laurent::Series;
use tv_partition::diagram::Diagram;
use tv_ring::{Ring, RingFault};
use tv_vertex::corner_series;

/// The series that were asked for, each as far as it was asked for at most, and the powers of that of the corner without
/// legs.
#[derive(Drop)]
pub struct Corners<C: Ring> {
    kept: IndexMap<Legs, Series<C>>,
    powers: Powers<C>,
}

impl<C: Ring> Model for Corners<C> {
    ghost use Rattle.std.specs.Prelude.{List};
    ghost use Rattle.tv_cells.specs.declared.legs.Legs.{Legs};
    ghost use Rattle.tv_laws_series.specs.Terms.{Terms};
    ghost use Rattle.tv_assigned_series.specs.Kept.{AreKept};

    ghost Value = { List (Legs × Terms C) };

    ghost view = { λ a. a.kept.entries };

    ghost invariant = { λ a. AreKept C.ring a.kept.entries };
}

impl<C: Ring> Corners<C> {
    /// No series yet. It takes no memory.
    pub fn new(alloc: Global) -> Corners<C>
        ensures { result ≡ [] }
    {
        Corners {
            kept: IndexMap::new(alloc),
            powers: Powers::new(alloc),
        }
    }

    /// The place of the series of the corner with these legs, known through `k` at least. It is that of their least image, and
    /// is computed where it is not kept or known less far. On an error what is kept stays as it was.
    pub fn place_of(&mut self, alloc: Global, legs: &Legs, k: u32) -> Result<usize, RingFault>
        requires { k < 2 ^ 29 }
        ensures value { IfOk result (λ i. IsPlaceOf C.ring legs.now k self.new i) }
        ensures kept { OnOk result (Keeps C.ring (least legs.now) k self.new) }
        ensures more { OnOk result (KeepsMore C.ring self.old self.new) }

        // Wide only where one of the numbers through k, times the size of one, exceeds the limit.
        ensures wide { IsErrOf result RingFault.Wide → (i : ℕ) × (i ≤ k) × (limit < count legs.now i * C.ring.size C.ring.unit) }
        ensures err { OnErr result (self.new ≡ self.old) }
    {
        let image = least_image(legs)?;
        self.place_under(alloc, &image, k)
    }

    /// The same of the series that is kept under the legs themselves.
    pub fn place_under(&mut self, alloc: Global, legs: &Legs, k: u32) -> Result<usize, RingFault>
        requires { k < 2 ^ 29 }
        ensures value { IfOk result (λ i. IsPlaceOf C.ring legs.now k self.new i) }
        ensures kept { OnOk result (Keeps C.ring legs.now k self.new) }
        ensures more { OnOk result (KeepsMore C.ring self.old self.new) }

        // Wide only where one of the numbers through k, times the size of one, exceeds the limit.
        ensures wide { IsErrOf result RingFault.Wide → (i : ℕ) × (i ≤ k) × (limit < count legs.now i * C.ring.size C.ring.unit) }
        ensures err { OnErr result (self.new ≡ self.old) }
    {
        if let Some(place) = self.kept.get_index_of(legs) {
            if self.kept[place].upto() >= i64::from(k) {
                return Ok(place);
            }
        }
        let series = corner_series(alloc, legs, k)?;
        let (place, _) = self.kept.insert_full(legs.clone()?, series)?;
        Ok(place)
    }

    /// The series at that place.
    pub fn at(&self, place: usize) -> &Series<C>
        requires { place < length self.now }
        ensures { slice_get (values_of self.now) place ≡ Some result.now }
    {
        &self.kept[place]
    }

    /// The product over `count` corners without legs, known through `k`.
    pub(crate) fn empties_product(
        &mut self,
        alloc: Global,
        count: usize,
        k: u32,
    ) -> Result<Series<C>, RingFault>
        requires { k < 2 ^ 29 }
        ensures value { IfOk result (λ s. s ≡ front_terms C.ring (empties count) k) }

        // Wide only where the ways to split at most k boxes over some of them, or the count at one, times the size of one,
        // exceed the limit.
        ensures wide { IsErrOf result RingFault.Wide → IsBeyond C.ring (empties count) k }
    {
        if count == 0 {
            return unit(alloc, k);
        }
        let place = self.place_under(alloc, &without_legs(alloc), k)?;
        self.powers.power(alloc, &self.kept[place], count, k)
    }
}

// The corner whose legs have no cell. It takes no memory.
fn without_legs(alloc: Global) -> Legs
    ensures { result ≡ empty_legs }
{
    Legs {
        along_x: Diagram::empty(alloc),
        along_y: Diagram::empty(alloc),
        along_z: Diagram::empty(alloc),
    }
}
