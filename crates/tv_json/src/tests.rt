//! Files in JSON, and texts that are none: each refused value differs from a file in one place.

use crate::file::read_json;
use std::alloc::Global;
use std::test::Fail;
use tv_lattice::fault::{Excess, FileFault, InputError};
use tv_spec_plane::limits::MOST_BYTES;

const CONIFOLD: &str =
    "{\"tv\":1,\"points\":[[0,0],[1,0],[1,1],[0,1]],\"triangles\":[[0,1,2],[0,2,3]],\"heights\":[0,1,0,0]}";

// With blanks, another order of the keys, a key written by an escape, and a key that stands twice, of which the last counts.
const SPACED: &str =
    " \n{ \"heights\" : [0,1,0,0], \"tv\" : 7, \"points\" : [[0,0],[1,0],[1,1],[0,1]], \"\\u0074v\" : 1, \"triangles\" : [[0,1,2],[0,2,3]] }\t";

fn fault(alloc: Global, bytes: &[u8]) -> Result<Option<FileFault>, Fail> {
    match read_json(alloc, bytes) {
        Ok(_) => Ok(None),
        Err(InputError::Fault(fault)) => Ok(Some(fault)),
        Err(InputError::Memory) => Err(InputError::Memory)?,
    }
}

#[test]
fn reads_the_conifold(rt: HostRuntime) -> Result<(), Fail> {
    for text in [CONIFOLD, SPACED] {
        let file = read_json(rt.alloc(), text.as_bytes())?;
        assert_eq!(rt; file.points.len(), 4);
        assert_eq!(rt; file.points[2].x(), 1);
        assert_eq!(rt; file.points[3].x(), 0);
        assert_eq!(rt; file.triangles.len(), 2);
        assert_eq!(rt; file.triangles[1].c, 3);
        assert_eq!(rt; file.heights.as_slice(), [0, 1, 0, 0].as_slice());
    }
    Ok(())
}

#[test]
fn refuses_other_forms(rt: HostRuntime) -> Result<(), Fail> {
    for text in [
        // no value, two values, a value behind a byte order mark
        "",
        "{} {}",
        "\u{feff}{\"tv\":1,\"points\":[],\"triangles\":[],\"heights\":[]}",
        // no object, a key less, a key more, another form
        "[]",
        "{\"points\":[],\"triangles\":[],\"heights\":[]}",
        "{\"tv\":1,\"points\":[],\"triangles\":[],\"heights\":[],\"name\":0}",
        "{\"tv\":2,\"points\":[],\"triangles\":[],\"heights\":[]}",
        "{\"tv\":\"1\",\"points\":[],\"triangles\":[],\"heights\":[]}",
        // numbers with a fraction or an exponent, -0, and numbers of ten digits
        "{\"tv\":1.0,\"points\":[],\"triangles\":[],\"heights\":[]}",
        "{\"tv\":1,\"points\":[[1.0,0]],\"triangles\":[],\"heights\":[]}",
        "{\"tv\":1,\"points\":[],\"triangles\":[],\"heights\":[1e2]}",
        "{\"tv\":1,\"points\":[],\"triangles\":[],\"heights\":[-0]}",
        "{\"tv\":1,\"points\":[],\"triangles\":[],\"heights\":[1000000000]}",
        "{\"tv\":1,\"points\":[],\"triangles\":[],\"heights\":[-1000000000]}",
        // a number beyond 64 bits, and one without a reading, even where a later equal key would replace it
        "{\"tv\":1,\"points\":[],\"triangles\":[],\"heights\":[18446744073709551616]}",
        "{\"tv\":1e999,\"tv\":1,\"points\":[],\"triangles\":[],\"heights\":[]}",
        // a point of three numbers, a triangle of two, a count below 0
        "{\"tv\":1,\"points\":[[0,0,0]],\"triangles\":[],\"heights\":[]}",
        "{\"tv\":1,\"points\":[],\"triangles\":[[0,1]],\"heights\":[]}",
        "{\"tv\":1,\"points\":[],\"triangles\":[[0,1,-2]],\"heights\":[]}",
    ] {
        assert_eq!(rt; fault(rt.alloc(), text.as_bytes())?, Some(FileFault::Json));
    }
    Ok(())
}

#[test]
fn looks_at_limits_last(rt: HostRuntime) -> Result<(), Fail> {
    let far =
        "{\"tv\":1,\"points\":[[0,0],[101,0]],\"triangles\":[],\"heights\":[-999999999,999999999]}";
    assert_eq!(rt;
        fault(rt.alloc(), far.as_bytes())?,
        Some(FileFault::TooMany(Excess::Coordinate(1)))
    );
    let mut bytes = Vec::new(rt.alloc());
    for _ in 0..MOST_BYTES {
        bytes.push(b' ')?;
    }
    assert_eq!(rt; fault(rt.alloc(), &bytes)?, Some(FileFault::Json));
    bytes.push(b' ')?;
    assert_eq!(rt; fault(rt.alloc(), &bytes)?, Some(FileFault::TooLong));
    Ok(())
}
