//! A report while it is read, one line after another. It does not say which line is refused, only that one is.

ghost use Rattle.std.specs.Prelude.{◌≡◌, ◌↔◌, IsTrue, IfOk, OnOk};
ghost use Rattle.std.specs.List.{AllByRecursion};
ghost use Rattle.tv_spec_text.specs.Lines.{IsNumber};
ghost use Rattle.tv_spec_text.specs.Files.{end_line};
ghost use Rattle.tv_spec_text.specs.Reports.{term_line};
ghost use Rattle.tv_spec_reports.specs.IntegerLines.{integer_line};
ghost use Rattle.tv_spec_reports.specs.Grammar.{IntegerFits};
ghost use Rattle.tv_text.specs.Rows.{texts};
ghost use Rattle.tv_report_reader.specs.Rows.{class_words, TermFits};
ghost use Rattle.tv_report_reader.specs.Stages.{IsFresh, IsWithinSection, data_of};
ghost use Rattle.tv_report_reader.specs.Drafts.{seen_of, Takes, Closes};
ghost use Rattle.tv_report_reader.specs.declared.stage.Stage.TheVariants.{Opening, Heights, Degree, Upto, Zero, One, Closed, Terms, Done};

use crate::checks::{
    are_heights, genera_rise_to, is_degree, is_one, is_order, is_within, is_zero_class, opens,
    rises_to,
};
use crate::draft::Draft;
use crate::heights::ReportHeights;
use crate::part::{Data, Integer, Part};
use crate::row::{Row, class_row, degree_row, heights_row, is_title, read_row, term_row, upto_row};
use crate::stage::Stage;
use std::alloc::{AllocError, Global};
use std::mem::replace;
use tv_lattice::class::Class;
use tv_text::series::Term;

impl Draft {
    pub(crate) fn new(alloc: Global) -> Draft
        ensures stage { result.stage ≡ Opening }
        ensures fresh { IsFresh (seen_of result) }
    {
        Draft {
            stage: Stage::Opening,
            heights: ReportHeights::none(alloc),
            degree: 0,
            upto: 0,
            closed: Vec::new(alloc),
            opened_degree: 0,
            opened_class: Class::new(Vec::new(alloc)),
            terms: Vec::new(alloc),
            integers: Vec::new(alloc),
        }
    }

    // Takes the line, or answers false where no report goes on with it.
    pub(crate) fn step(&mut self, alloc: Global, words: &[&[u8]]) -> Result<bool, AllocError>
        ensures { IfOk result (Takes self.old (texts words.now) self.new) }
    {
        match self.stage {
            Stage::Opening => Ok(self.take_title(words)),
            Stage::Heights => self.take_heights(alloc, words),
            Stage::Degree => Ok(self.take_degree(words)),
            Stage::Upto => Ok(self.take_upto(words)),
            Stage::Zero => self.take_zero(alloc, words),
            Stage::One => self.take_one(words),
            Stage::Closed | Stage::Terms | Stage::Integers => self.take_row(alloc, words),
            Stage::Done => Ok(false),
        }
    }

    // What the lines say, with the open section closed.
    pub(crate) fn into_data(self) -> Result<Data, AllocError>
        ensures { IfOk result (λ read. read ≡ data_of (seen_of self)) }
    {
        let mut sections = self.closed;
        sections.push(Part {
            degree: self.opened_degree,
            class: self.opened_class,
            terms: self.terms,
            integers: self.integers,
        })?;
        Ok(Data {
            heights: self.heights,
            degree: self.degree,
            upto: self.upto,
            sections,
        })
    }

    pub(crate) fn is_done(&self) -> bool
        ensures { IsTrue result ↔ (self.now.stage ≡ Done) }
    {
        matches!(self.stage, Stage::Done)
    }

    fn takes_terms(&self) -> bool
        ensures { IsTrue result ↔ (self.now.stage ≡ Terms) }
    {
        matches!(self.stage, Stage::Terms)
    }

    fn is_closed(&self) -> bool
        ensures { IsTrue result ↔ (self.now.stage ≡ Closed) }
    {
        matches!(self.stage, Stage::Closed)
    }

    fn take_row(&mut self, alloc: Global, words: &[&[u8]]) -> Result<bool, AllocError>
        requires { IsWithinSection self.old.stage }
        ensures { IfOk result (Takes self.old (texts words.now) self.new) }
    {
        let Some(row) = read_row(alloc, words)? else {
            return Ok(false);
        };
        match row {
            Row::Term(term) => self.take_term(term),
            Row::Integer(integer) => self.take_integer(integer),
            Row::Class(degree, entries) => self.take_class(alloc, degree, entries),
            Row::End => Ok(self.take_end()),
        }
    }

    fn take_title(&mut self, words: &[&[u8]]) -> bool
        requires { self.old.stage ≡ Opening }
        ensures { Takes self.old (texts words.now) self.new result }
    {
        if !is_title(words) {
            return false;
        }
        self.stage = Stage::Heights;
        true
    }

    fn take_heights(&mut self, alloc: Global, words: &[&[u8]]) -> Result<bool, AllocError>
        requires { self.old.stage ≡ Heights }
        ensures { IfOk result (Takes self.old (texts words.now) self.new) }
    {
        let Some(heights) = heights_row(alloc, words)? else {
            return Ok(false);
        };
        if !are_heights(&heights) {
            return Ok(false);
        }
        self.heights = ReportHeights::new(heights);
        self.stage = Stage::Degree;
        Ok(true)
    }

    fn take_degree(&mut self, words: &[&[u8]]) -> bool
        requires { self.old.stage ≡ Degree }
        ensures { Takes self.old (texts words.now) self.new result }
    {
        let Some(degree) = degree_row(words) else {
            return false;
        };
        if !is_degree(degree) {
            return false;
        }
        self.degree = degree;
        self.stage = Stage::Upto;
        true
    }

    fn take_upto(&mut self, words: &[&[u8]]) -> bool
        requires { self.old.stage ≡ Upto }
        ensures { Takes self.old (texts words.now) self.new result }
    {
        let Some(upto) = upto_row(words) else {
            return false;
        };
        if !is_order(upto) {
            return false;
        }
        self.upto = upto;
        self.stage = Stage::Zero;
        true
    }

    fn take_zero(&mut self, alloc: Global, words: &[&[u8]]) -> Result<bool, AllocError>
        requires { self.old.stage ≡ Zero }
        ensures { IfOk result (Takes self.old (texts words.now) self.new) }
    {
        let Some((degree, entries)) = class_row(alloc, words)? else {
            return Ok(false);
        };
        if !is_zero_class(self.heights.values(), degree, &entries) {
            return Ok(false);
        }
        self.opened_degree = degree;
        self.opened_class = Class::new(entries);
        self.stage = Stage::One;
        Ok(true)
    }

    fn take_one(&mut self, words: &[&[u8]]) -> Result<bool, AllocError>
        requires { self.old.stage ≡ One }
        ensures { IfOk result (Takes self.old (texts words.now) self.new) }
    {
        let Some(term) = term_row(words) else {
            return Ok(false);
        };
        if !is_one(&term) {
            return Ok(false);
        }
        self.terms.push(term)?;
        self.stage = Stage::Closed;
        Ok(true)
    }

    fn take_term(&mut self, term: Term) -> Result<bool, AllocError>
        requires stage { IsWithinSection self.old.stage }
        requires fits { TermFits term }
        ensures { IfOk result (Takes self.old (term_line term) self.new) }
    {
        if !self.takes_terms() {
            return Ok(false);
        }
        if !is_within(&term, self.upto) {
            return Ok(false);
        }
        if !rises_to(&self.terms, &term) {
            return Ok(false);
        }
        self.terms.push(term)?;
        Ok(true)
    }

    fn take_integer(&mut self, integer: Integer) -> Result<bool, AllocError>
        requires stage { IsWithinSection self.old.stage }
        requires fits { IntegerFits integer }
        ensures { IfOk result (Takes self.old (integer_line integer) self.new) }
    {
        if self.is_closed() {
            return Ok(false);
        }
        if !genera_rise_to(&self.integers, &integer) {
            return Ok(false);
        }
        self.integers.push(integer)?;
        self.stage = Stage::Integers;
        Ok(true)
    }

    fn take_class(
        &mut self,
        alloc: Global,
        degree: i64,
        entries: Vec<i64>,
    ) -> Result<bool, AllocError>
        requires stage { IsWithinSection self.old.stage }
        requires degree { IsNumber degree }
        requires entries { AllByRecursion IsNumber entries.items }
        ensures { IfOk result (Takes self.old (class_words degree entries.items) self.new) }
    {
        if entries.len() != self.heights.values().len() {
            return Ok(false);
        }
        let class = Class::new(entries);
        if !opens(
            self.heights.values(),
            self.degree,
            self.opened_degree,
            &self.opened_class,
            degree,
            &class,
        ) {
            return Ok(false);
        }
        self.close(alloc, degree, class)?;
        self.stage = Stage::Terms;
        Ok(true)
    }

    // Closes the open section, and opens one of the class, without terms and integers.
    fn close(&mut self, alloc: Global, degree: i64, class: Class) -> Result<(), AllocError>
        ensures { OnOk result (Closes self.old degree class self.new) }
    {
        let part = Part {
            degree: replace(&mut self.opened_degree, degree),
            class: replace(&mut self.opened_class, class),
            terms: replace(&mut self.terms, Vec::new(alloc)),
            integers: replace(&mut self.integers, Vec::new(alloc)),
        };
        self.closed.push(part)?;
        Ok(())
    }

    fn take_end(&mut self) -> bool
        requires stage { IsWithinSection self.old.stage }
        ensures { Takes self.old end_line self.new result }
    {
        self.stage = Stage::Done;
        true
    }
}
