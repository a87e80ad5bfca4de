//! A report that is read, and reports that are refused, by their lines.

use crate::{ReportError, read_report};
use std::alloc::Global;
use std::test::Fail;
use tv_lattice::fault::ReportFault;

const CONIFOLD: &str =
    "report gv\nheights 0 1 0 0\ndegree 1\nupto 5\nclass 0 0 0 0 0\nterm 0 1\nclass 1 -1 1 -1 1\nterm 1 1\nterm 2 -2\nterm 3 3\nterm 4 -4\nterm 5 5\ninteger 0 1\nend\n";

const CUT: &str = "report gv\nheights 0 1 0 0\ndegree 1\nupto 5\nclass 0 0 0 0 0\nterm 0 1\n";

const OUT_OF_ORDER: &str =
    "report gv\nheights 0 1 0 0\ndegree 2\nupto 5\nclass 0 0 0 0 0\nterm 0 1\nclass 2 -2 2 -2 2\nclass 1 -1 1 -1 1\nend\n";

#[test]
fn reads_the_conifold(rt: HostRuntime) -> Result<(), Fail> {
    match read_report(rt.alloc(), CONIFOLD.as_bytes()) {
        Ok(report) => {
            assert_eq!(rt; report.series.len(), 2);
            assert_eq!(rt; report.series.top(), 1);
            assert_eq!(rt; report.series.upto(), 5);
            assert_eq!(rt; report.integers.len(), 1);
            Ok(())
        }
        Err(error) => {
            assert_eq!(rt; Some(error), None);
            Ok(())
        }
    }
}

fn refused(alloc: Global, text: &str) -> Option<ReportError> {
    match read_report(alloc, text.as_bytes()) {
        Ok(_) => None,
        Err(error) => Some(error),
    }
}

#[test]
fn names_the_line_after_a_cut(rt: HostRuntime) {
    assert_eq!(rt;
        refused(rt.alloc(), CUT),
        Some(ReportError::Fault(ReportFault::Line(7)))
    );
}

#[test]
fn names_a_class_out_of_order(rt: HostRuntime) {
    assert_eq!(rt;
        refused(rt.alloc(), OUT_OF_ORDER),
        Some(ReportError::Fault(ReportFault::Line(8)))
    );
}
