//! A file in JSON. How its numbers and arrays are spelled is the concern of the modules below.

ghost use Rattle.std.specs.Prelude.{◌≡◌, IfOk, MatchOption, MatchResult};
ghost use Rattle.serde_json.specs.View.{view};
ghost use Rattle.tv_spec_plane.specs.Web.{Web};
ghost use Rattle.tv_spec_json.specs.Files.{SpellsValue, IsFileJson};
ghost use Rattle.tv_json.specs.Faults.{IsJson, IsJsonFault, IsFormFault};

use crate::items::{numbers, points, triangles};
use crate::members::parts_of;
use serde_json::Value;
use std::alloc::{AllocError, Global};
use tv_lattice::excess::limits;
use tv_lattice::fault::{FileFault, InputError};
use tv_lattice::file::{FileData, RawFile};
use tv_spec_plane::limits::MOST_BYTES;

/// The file that the bytes are in JSON, whatever their first byte is. They are refused where they are more than `MOST_BYTES`,
/// else where they have no reading or their value is of another form, else by the first limit that the file passes. Want of
/// memory may come at any time after the bytes are counted.
pub fn read_json(alloc: Global, bytes: &[u8]) -> Result<FileData, InputError>
    ensures { MatchResult result (IsJson bytes.now) (IsJsonFault bytes.now) }
{
    if bytes.len() > MOST_BYTES {
        return Err(InputError::Fault(FileFault::TooLong));
    }
    let file = read_value(alloc, bytes)?;
    limits(alloc, file)
}

fn read_value(alloc: Global, bytes: &[u8]) -> Result<RawFile, InputError>
    ensures { MatchResult result (IsFileJson bytes.now) (IsFormFault bytes.now) }
{
    match Value::from_slice(alloc, bytes) {
        Ok(value) => match file_of(alloc, &value)? {
            Some(file) => Ok(file),
            None => Err(InputError::Fault(FileFault::Json)),
        },
        Err(error) => {
            if error.is_memory() {
                return Err(InputError::Memory);
            }
            Err(InputError::Fault(FileFault::Json))
        }
    }
}

// The file that the value spells, if it spells one.
fn file_of(alloc: Global, value: &Value) -> Result<Option<RawFile>, AllocError>
    ensures { IfOk result (λ file. MatchOption file
        ((w : Web) → SpellsValue (view value.now) w → ⊥)
        (SpellsValue (view value.now))) }
{
    let Some(parts) = parts_of(value) else {
        return Ok(None);
    };
    let Some(heights) = numbers(alloc, parts.heights)? else {
        return Ok(None);
    };
    let Some(points) = points(alloc, parts.points)? else {
        return Ok(None);
    };
    let Some(triangles) = triangles(alloc, parts.triangles)? else {
        return Ok(None);
    };
    Ok(Some(RawFile {
        points,
        triangles,
        heights,
    }))
}
