//! The values of one class by rising genus. It doesn't know the class.

ghost use Rattle.std.specs.Prelude.{◌≡◌, OnOk, OnErr, slice_get};
ghost use Rattle.tv_integers.specs.Places.{genus_place, has_genus};
ghost use Rattle.tv_integers.specs.Rows.{put_value};

use crate::genus_value::GenusValue;
use std::alloc::AllocError;

// How many values in front have a lesser genus.
fn genus_place(values: &[GenusValue], genus: u32) -> usize
    ensures value { result ≡ genus_place genus values.now }
{
    for k in 0..values.len() {
        if genus <= values[k].genus {
            return k;
        }
    }
    values.len()
}

// Whether the value at that place has the genus.
fn is_there(values: &[GenusValue], place: usize, genus: u32) -> bool
    ensures value { result ≡ has_genus genus (slice_get values.now place) }
{
    match values.get(place) {
        Some(value) => value.genus == genus,
        None => false,
    }
}

/// Puts the value in, in place of one of its genus. On an error nothing has changed.
pub fn put_value(values: &mut Vec<GenusValue>, value: GenusValue) -> Result<(), AllocError>
    ensures ok { OnOk result (values.new.items ≡ put_value value values.old.items) }
    ensures err { OnErr result (values.new.items ≡ values.old.items) }
{
    let place = genus_place(values, value.genus);
    if is_there(values, place, value.genus) {
        values[place] = value;
        Ok(())
    } else {
        Ok(values.insert(place, value)?)
    }
}
