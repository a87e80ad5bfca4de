//! The members of the object that a file in JSON is. What their arrays say is read elsewhere.

ghost use Rattle.std.specs.Prelude.{◌≡◌, ◌≢◌, IsTrue, ◌↔◌, pos, MatchOption, string_bytes};
ghost use Rattle.serde_json.specs.Data.{Data, Members, member};
ghost use Rattle.serde_json.specs.View.{view, members_view};
ghost use Rattle.tv_spec_json.specs.Files.{whole};
ghost use Rattle.tv_json.specs.Parts.{file_object};

use crate::number::count;
use serde_json::Value;
use std::collections::btree_map::Iter;

// The arrays of a file, not yet read.
#[derive(Clone, Copy)]
pub(crate) struct Parts<'a> {
    pub heights: &'a Value,
    pub points: &'a Value,
    pub triangles: &'a Value,
}

// The arrays of an object that has exactly the keys of a file, with `tv` 1. An object has its keys in the order of their
// codes.
pub(crate) fn parts_of<'a>(value: &'a Value) -> Option<Parts<'a>>
    ensures { MatchOption result
        ((h p t : Data) → view value.now ≢ file_object h p t)
        (λ r. view value.now ≡ file_object (view r.heights.now) (view r.points.now) (view r.triangles.now)) }
{
    let mut members = value.as_object()?.iter();
    let heights = next_member(&mut members, "heights")?;
    let points = next_member(&mut members, "points")?;
    let triangles = next_member(&mut members, "triangles")?;
    let form = next_member(&mut members, "tv")?;
    if !is_one(form) {
        return None;
    }
    if members.next().is_some() {
        return None;
    }
    Some(Parts {
        heights,
        points,
        triangles,
    })
}

// The value of the next member, where that has this key.
fn next_member<'a>(members: &mut Iter<'a, String, Value>, key: &str) -> Option<&'a Value>
    ensures { MatchOption result
        ((d : Data) (ms : Members) → members_view members.old ≢ member key.now d ms)
        (λ v. members_view members.old ≡ member key.now (view v.now) (members_view members.new)) }
{
    let (name, value) = members.next()?;
    if is_key(name, key) { Some(value) } else { None }
}

fn is_key(name: &String, key: &str) -> bool
    ensures { IsTrue result ↔ (string_bytes name.now ≡ key.now) }
{
    name.as_str() == key
}

fn is_one(value: &Value) -> bool
    ensures { IsTrue result ↔ (view value.now ≡ whole (pos 1)) }
{
    count(value) == Some(1)
}
