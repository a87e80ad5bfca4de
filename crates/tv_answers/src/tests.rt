//! The answers of each command over a small web, and refusals.

use crate::answer::{Answer, Failure, Outcome, in_text, refuse, reject};
use crate::check::check_answer;
use crate::grids::{generate_answer, summary_answer};
use crate::gv::gv_answer;
use crate::series::series_answer;
use crate::status::Status;
use std::alloc::Global;
use std::test::Fail;
use tv_acceptance::accept;
use tv_degrees::grade::GradedWeb;
use tv_lattice::fault::FileFault;
use tv_text::refusal::Refusal;
use tv_text::series::Kind;

const CONIFOLD: &[u8] =
    b"tv 1\npoint 0 0\npoint 1 0\npoint 1 1\npoint 0 1\ntriangle 0 1 2\ntriangle 0 2 3\nheights 0 1 0 0\nend\n";

const CHECK: &[u8] =
    b"report check\npoints 4\ntriangles 2\ncompact 1\nopen 4\nedge 0 2 opposite 1 3 normal -1 -1 degree 1\nopen 0 1 corner 0\nopen 0 3 corner 1\nopen 1 2 corner 0\nopen 2 3 corner 1\nend\n";

const SERIES: &[u8] =
    b"report series full\nheights 0 1 0 0\ndegree 1\nupto 3\nclass 0 0 0 0 0\nterm 0 1\nterm 1 -2\nterm 2 7\nterm 3 -18\nclass 1 -1 1 -1 1\nterm 1 1\nterm 2 -4\nterm 3 14\nend\n";

const REDUCED: &[u8] =
    b"report series reduced\nheights 0 1 0 0\ndegree 1\nupto 3\nclass 0 0 0 0 0\nterm 0 1\nclass 1 -1 1 -1 1\nterm 1 1\nterm 2 -2\nterm 3 3\nend\n";

const INTEGERS: &[u8] =
    b"report gv\nheights 0 1 0 0\ndegree 1\nupto 2\nclass 0 0 0 0 0\nterm 0 1\nclass 1 -1 1 -1 1\nterm 1 1\nterm 2 -2\ninteger 0 1\nend\n";

const GRID: &[u8] =
    b"tv 1\npoint 0 0\npoint 1 0\npoint 0 1\npoint 1 1\ntriangle 0 1 3\ntriangle 0 3 2\nheights 0 1 1 1\nend\n";

const SUMMARY: &[u8] =
    b"report summary\ngrid 1\ndegree 0\nupto 4\nclasses 1\nterms 5\nzero 47\nsum 35\nend\n";

fn conifold(alloc: Global) -> Result<GradedWeb, Fail> {
    Ok(accept(alloc, CONIFOLD)?)
}

fn says(answer: Result<Answer, Failure>, status: Status, text: &[u8]) -> bool {
    match answer {
        Ok(answer) => answer.status == status && answer.text.as_slice() == text,
        Err(_) => false,
    }
}

fn is_text(outcome: Result<Outcome, Failure>) -> bool {
    match outcome {
        Ok(Outcome::Text(answer)) => answer.status == Status::Done,
        _ => false,
    }
}

#[test]
fn answers_over_the_resolved_conifold(rt: HostRuntime) -> Result<(), Fail> {
    let web = conifold(rt.alloc())?;
    assert!(rt; says(check_answer(rt.alloc(), &web), Status::Done, CHECK));
    assert!(rt;
        says(
            series_answer(rt.alloc(), &web, Kind::Full, 1, 3),
            Status::Done,
            SERIES
        )
    );
    assert!(rt;
        says(
            series_answer(rt.alloc(), &web, Kind::Reduced, 1, 3),
            Status::Done,
            REDUCED
        )
    );
    assert!(rt; says(gv_answer(rt.alloc(), &web, 1, 2), Status::Done, INTEGERS));
    Ok(())
}

#[test]
fn answers_over_a_grid(rt: HostRuntime) -> Result<(), Fail> {
    assert!(rt; says(generate_answer(rt.alloc(), 1), Status::Done, GRID));
    assert!(rt; says(summary_answer(rt.alloc(), 1, 0, 4), Status::Done, SUMMARY));
    assert!(rt; is_text(in_text(generate_answer(rt.alloc(), 1))));
    Ok(())
}

#[test]
fn refuses_in_one_line(rt: HostRuntime) -> Result<(), Fail> {
    assert!(rt;
        says(
            reject(rt.alloc(), FileFault::Flat),
            Status::File,
            b"refused file 6\n".as_slice()
        )
    );
    assert!(rt;
        says(
            refuse(rt.alloc(), Status::Words, &Refusal::Words(2)),
            Status::Words,
            b"refused words 2\n".as_slice()
        )
    );
    assert_eq!(rt; Status::Words.code(), 2);
    Ok(())
}
