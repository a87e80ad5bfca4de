//! Files that are accepted, and the first check that others fail.

use crate::accept;
use std::alloc::Global;
use std::test::Fail;
use tv_degrees::grade::GradedWeb;
use tv_lattice::fault::{FileFault, InputError};

const CONIFOLD: &[u8] =
    b"tv 1\npoint 0 0\npoint 1 0\npoint 1 1\npoint 0 1\ntriangle 0 1 2\ntriangle 0 2 3\nheights 0 1 0 0\nend\n";

const IN_JSON: &[u8] =
    b"{\"tv\":1,\"points\":[[0,0],[1,0],[0,1]],\"triangles\":[[0,1,2]],\"heights\":[0,0,0]}";

// With flat heights, the curve has the degree 0.
const FLAT_HEIGHTS: &[u8] =
    b"tv 1\npoint 0 0\npoint 1 0\npoint 1 1\npoint 0 1\ntriangle 0 1 2\ntriangle 0 2 3\nheights 0 0 0 0\nend\n";

fn edges(answer: Result<GradedWeb, InputError>) -> Option<usize> {
    match answer {
        Ok(web) => Some(web.compact().len()),
        Err(_) => None,
    }
}

fn is_refused(answer: Result<GradedWeb, InputError>, fault: FileFault) -> bool {
    match answer {
        Err(InputError::Fault(found)) => found == fault,
        _ => false,
    }
}

fn has_edges(alloc: Global, bytes: &[u8], count: usize) -> bool {
    edges(accept(alloc, bytes)) == Some(count)
}

#[test]
fn accepts_a_text_and_json(rt: HostRuntime) -> Result<(), Fail> {
    assert!(rt; has_edges(rt.alloc(), CONIFOLD, 1));
    assert!(rt; has_edges(rt.alloc(), IN_JSON, 0));
    Ok(())
}

#[test]
fn names_the_first_check_that_fails(rt: HostRuntime) -> Result<(), Fail> {
    assert!(rt;
        is_refused(
            accept(rt.alloc(), b"tv 1\npoint 0 x\n".as_slice()),
            FileFault::Line(2)
        )
    );
    assert!(rt;
        is_refused(
            accept(rt.alloc(), b"{\"tv\":2}".as_slice()),
            FileFault::Json
        )
    );
    assert!(rt; is_refused(accept(rt.alloc(), FLAT_HEIGHTS), FileFault::Degree(0, 2, 0)));
    Ok(())
}
