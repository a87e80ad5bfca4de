//! Whole runs over memory: the reports, refusals that read nothing, and faults of reads and writes in turn.

ghost use Rattle.std.specs.Prelude.{◌≤◌};

use crate::{Status, run};
use std::alloc::Global;
use std::test::Fail;
use tv_outside::{MemSink, MemSource};

const ONE_CORNER: &[u8] =
    b"tv 1\npoint 0 0\npoint 1 0\npoint 0 1\ntriangle 0 1 2\nheights 0 0 0\nend\n";

const REPORT: &[u8] =
    b"report series full\nheights 0 0 0\ndegree 0\nupto 4\nclass 0 0 0 0\nterm 0 1\nterm 1 -1\nterm 2 3\nterm 3 -6\nterm 4 13\nend\n";

const CONIFOLD: &[u8] =
    b"tv 1\npoint 0 0\npoint 1 0\npoint 1 1\npoint 0 1\ntriangle 0 1 2\ntriangle 0 2 3\nheights 0 1 0 0\nend\n";

const CONIFOLD_CHECK: &[u8] =
    b"report check\npoints 4\ntriangles 2\ncompact 1\nopen 4\nedge 0 2 opposite 1 3 normal -1 -1 degree 1\nopen 0 1 corner 0\nopen 0 3 corner 1\nopen 1 2 corner 0\nopen 2 3 corner 1\nend\n";

const CONIFOLD_SERIES: &[u8] =
    b"report series full\nheights 0 1 0 0\ndegree 1\nupto 4\nclass 0 0 0 0 0\nterm 0 1\nterm 1 -2\nterm 2 7\nterm 3 -18\nterm 4 47\nclass 1 -1 1 -1 1\nterm 1 1\nterm 2 -4\nterm 3 14\nterm 4 -42\nend\n";

fn words(alloc: Global, texts: &[&str]) -> Result<Vec<String>, Fail> {
    let mut words = Vec::new(alloc);
    for text in texts {
        words.push(String::from_str(alloc, text)?)?;
    }
    Ok(words)
}

fn source(alloc: Global, fails: &[u64]) -> Result<MemSource, Fail> {
    Ok(MemSource::new(ONE_CORNER.to_vec(alloc)?, 16, fails.to_vec(alloc)?))
}

fn sink(alloc: Global, piece: usize, fails: &[u64]) -> Result<MemSink, Fail>
    requires { 1 ≤ piece }
{
    Ok(MemSink::new(alloc, 1_048_576, piece, fails.to_vec(alloc)?)?)
}

#[test]
fn prints_one_corner(rt: HostRuntime) -> Result<(), Fail> {
    let alloc = rt.alloc();
    let words = words(alloc, &["series", "full", "0", "4"])?;
    let mut from = source(alloc, &[])?;
    let mut to = sink(alloc, 10, &[])?;
    let status = run(alloc, &words, &mut from, &mut to);
    assert!(rt; status == Status::Done);
    assert_eq!(rt; status.code(), 0);
    assert!(rt; to.bytes() == REPORT);
    Ok(())
}

// A run over one corner in which read k fails, if there is one: its status, the count of faults, and what was written.
fn with_failed_read(alloc: Global, k: u64) -> Result<(Status, u64, MemSink), Fail> {
    let words = words(alloc, &["series", "full", "0", "4"])?;
    let mut from = source(alloc, &[k])?;
    let mut to = sink(alloc, 10, &[])?;
    let status = run(alloc, &words, &mut from, &mut to);
    Ok((status, from.faults(), to))
}

// The same with a write that fails: its status and what was written.
fn with_failed_write(alloc: Global, k: u64) -> Result<(Status, MemSink), Fail> {
    let words = words(alloc, &["series", "full", "0", "4"])?;
    let mut from = source(alloc, &[])?;
    let mut to = sink(alloc, 10, &[k])?;
    let status = run(alloc, &words, &mut from, &mut to);
    Ok((status, to))
}

fn is_read_fault(status: Status, bytes: &[u8]) -> bool {
    status == Status::ReadFault && bytes == b"refused read\n".as_slice()
}

fn is_done(status: Status, bytes: &[u8]) -> bool {
    status == Status::Done && bytes == REPORT
}

// Sixteen bytes a read: five reads take the file, and the sixth finds its end.
#[test]
fn a_failed_read_is_told(rt: HostRuntime) -> Result<(), Fail> {
    for k in 0..6u64 {
        let (status, faults, to) = with_failed_read(rt.alloc(), k)?;
        assert_eq!(rt; faults, 1, "read {k}");
        assert!(rt; is_read_fault(status, to.bytes()), "read {k}");
        assert_eq!(rt; status.code(), 7);
    }
    Ok(())
}

#[test]
fn a_read_that_is_not_made_cannot_fail(rt: HostRuntime) -> Result<(), Fail> {
    let (status, faults, to) = with_failed_read(rt.alloc(), 6)?;
    assert_eq!(rt; faults, 0);
    assert!(rt; is_done(status, to.bytes()));
    Ok(())
}

// Ten bytes a write: twelve writes tell the report.
#[test]
fn a_failed_write_leaves_a_beginning(rt: HostRuntime) -> Result<(), Fail> {
    for k in 0..12usize {
        let (status, to) = with_failed_write(rt.alloc(), k as u64)?;
        assert!(rt; status == Status::WriteFault, "write {k}");
        assert!(rt; to.bytes().len() == 10 * k, "write {k}");
        assert!(rt; REPORT.starts_with(to.bytes()), "write {k}");
    }
    Ok(())
}

#[test]
fn a_write_that_is_not_made_cannot_fail(rt: HostRuntime) -> Result<(), Fail> {
    let (status, to) = with_failed_write(rt.alloc(), 12)?;
    assert!(rt; is_done(status, to.bytes()));
    assert_eq!(rt; to.faults(), 0);
    Ok(())
}

#[test]
fn refused_words_read_nothing(rt: HostRuntime) -> Result<(), Fail> {
    let alloc = rt.alloc();
    let words = words(alloc, &["series", "full", "25", "4"])?;
    let mut from = source(alloc, &[0])?;
    let mut to = sink(alloc, 10, &[])?;
    let status = run(alloc, &words, &mut from, &mut to);
    assert!(rt; status == Status::Words);
    assert!(rt; to.bytes() == b"refused words 2\n".as_slice());
    assert_eq!(rt; from.faults(), 0);
    Ok(())
}

#[test]
fn checks_the_resolved_conifold(rt: HostRuntime) -> Result<(), Fail> {
    let alloc = rt.alloc();
    let words = words(alloc, &["check"])?;
    let mut from = MemSource::new(CONIFOLD.to_vec(alloc)?, 16, Vec::new(alloc));
    let mut to = sink(alloc, 10, &[])?;
    let status = run(alloc, &words, &mut from, &mut to);
    assert!(rt; status == Status::Done);
    assert!(rt; to.bytes() == CONIFOLD_CHECK);
    Ok(())
}

#[test]
fn prints_the_series_of_the_resolved_conifold(rt: HostRuntime) -> Result<(), Fail> {
    let alloc = rt.alloc();
    let words = words(alloc, &["series", "full", "1", "4"])?;
    let mut from = MemSource::new(CONIFOLD.to_vec(alloc)?, 16, Vec::new(alloc));
    let mut to = sink(alloc, 10, &[])?;
    let status = run(alloc, &words, &mut from, &mut to);
    assert!(rt; status == Status::Done);
    assert!(rt; to.bytes() == CONIFOLD_SERIES);
    Ok(())
}

const GRID: &[u8] =
    b"tv 1\npoint 0 0\npoint 1 0\npoint 0 1\npoint 1 1\ntriangle 0 1 3\ntriangle 0 3 2\nheights 0 1 1 1\nend\n";

const SUMMARY: &[u8] =
    b"report summary\ngrid 1\ndegree 0\nupto 4\nclasses 1\nterms 5\nzero 47\nsum 35\nend\n";

// The source would fail at once.
#[test]
fn a_grid_reads_nothing(rt: HostRuntime) -> Result<(), Fail> {
    let alloc = rt.alloc();
    let words = words(alloc, &["generate", "1"])?;
    let mut from = source(alloc, &[0])?;
    let mut to = sink(alloc, 10, &[])?;
    let status = run(alloc, &words, &mut from, &mut to);
    assert!(rt; status == Status::Done);
    assert!(rt; to.bytes() == GRID);
    assert_eq!(rt; from.faults(), 0);
    Ok(())
}

#[test]
fn a_summary_reads_nothing(rt: HostRuntime) -> Result<(), Fail> {
    let alloc = rt.alloc();
    let words = words(alloc, &["summary", "1", "0", "4"])?;
    let mut from = source(alloc, &[0])?;
    let mut to = sink(alloc, 10, &[])?;
    let status = run(alloc, &words, &mut from, &mut to);
    assert!(rt; status == Status::Done);
    assert!(rt; to.bytes() == SUMMARY);
    assert_eq!(rt; from.faults(), 0);
    Ok(())
}

const TWO_BOXES: &[u8] =
    b"report boxes\nheights 0 0 0\nchi 2\nclass 0 0 0 0\nsign 1\nconfig\nbox 0 1 0 0\nbox 0 0 0 0\nconfig\nbox 0 0 0 0\nbox 0 0 0 1\nconfig\nbox 0 0 0 0\nbox 0 0 1 0\nend\n";

#[test]
fn tells_two_boxes_at_one_corner(rt: HostRuntime) -> Result<(), Fail> {
    let alloc = rt.alloc();
    let words = words(alloc, &["boxes", "2", "0", "0", "0"])?;
    let mut from = source(alloc, &[])?;
    let mut to = sink(alloc, 10, &[])?;
    let status = run(alloc, &words, &mut from, &mut to);
    assert!(rt; status == Status::Done);
    assert!(rt; to.bytes() == TWO_BOXES);
    Ok(())
}

#[test]
fn a_class_with_an_entry_too_few_is_refused(rt: HostRuntime) -> Result<(), Fail> {
    let alloc = rt.alloc();
    let words = words(alloc, &["boxes", "2", "0", "0"])?;
    let mut from = source(alloc, &[])?;
    let mut to = sink(alloc, 10, &[])?;
    let status = run(alloc, &words, &mut from, &mut to);
    assert!(rt; status == Status::Words);
    assert!(rt; to.bytes() == b"refused words 4\n".as_slice());
    Ok(())
}

const CONIFOLD_INTEGERS: &[u8] =
    b"report gv\nheights 0 1 0 0\ndegree 1\nupto 2\nclass 0 0 0 0 0\nterm 0 1\nclass 1 -1 1 -1 1\nterm 1 1\nterm 2 -2\ninteger 0 1\nend\n";

#[test]
fn verifies_the_integers_of_the_resolved_conifold(rt: HostRuntime) -> Result<(), Fail> {
    let alloc = rt.alloc();
    let words = words(alloc, &["verify"])?;
    let mut from = MemSource::new(CONIFOLD_INTEGERS.to_vec(alloc)?, 16, Vec::new(alloc));
    let mut to = sink(alloc, 10, &[])?;
    let status = run(alloc, &words, &mut from, &mut to);
    assert!(rt; status == Status::Done);
    assert!(rt; to.bytes() == b"report verify\nverdict yes\nend\n".as_slice());
    Ok(())
}
