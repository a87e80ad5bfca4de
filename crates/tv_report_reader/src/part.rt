//! The parts of a report, as they are read.

use crate::heights::ReportHeights;
use std::marker::Model;
use tv_lattice::class::Class;
use tv_text::series::Term;

/// A genus and its integer.
#[derive(Clone, Copy, Debug)]
pub(crate) struct Integer {
    pub(crate) genus: u32,
    pub(crate) value: i128,
}

impl Model for Integer {
    ghost use Rattle.tv_spec_reports.specs.IntegerLines.{GenusValue};

    ghost Value = { GenusValue };

    ghost view = { λ i. record { genus = i.genus; value = i.value } };

    ghost inverse = { λ i. record { genus = i.genus; value = i.value } };
}

/// A class by its degree and its entries, with the terms of its series and its integers.
#[derive(Drop)]
pub(crate) struct Part {
    pub(crate) degree: i64,
    pub(crate) class: Class,
    pub(crate) terms: Vec<Term>,
    pub(crate) integers: Vec<Integer>,
}

impl Model for Part {
    ghost use Rattle.tv_spec_reports.specs.IntegerLines.{GvSection};
    ghost use Rattle.tv_report_reader.specs.Checks.{section_by};

    ghost Value = { GvSection };

    ghost view = { λ p. section_by p.degree p.class p.terms.items p.integers.items };
}

/// The data of a report: the heights, the greatest degree, the last exponent, and the sections.
#[derive(Drop)]
pub(crate) struct Data {
    pub(crate) heights: ReportHeights,
    pub(crate) degree: i64,
    pub(crate) upto: i64,
    pub(crate) sections: Vec<Part>,
}

impl Model for Data {
    ghost use Rattle.tv_spec_reports.specs.Grammar.{GvData};

    ghost Value = { GvData };

    ghost view = { λ d. record { heights = d.heights; degree = d.degree; upto = d.upto; sections = d.sections.items } };
}
