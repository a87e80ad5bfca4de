//! A file while it is read, one line after another. It does not say which line is refused, only that one is.

ghost use Rattle.std.specs.Prelude.{◌≡◌, ◌↔◌, [], IsTrue, IfOk, MatchBool, OnOk};
ghost use Rattle.tv_text.specs.Rows.{texts};
ghost use Rattle.tv_text.specs.Stages.{web_with, IsAt};
ghost use Rattle.tv_text.specs.Drafts.{web_of, Reads, Refuses};

use crate::row::{Row, read_row};
use crate::stage::Stage;
use std::alloc::{AllocError, Global};
use tv_lattice::file::RawFile;
use tv_lattice::{RawPoint, Triple};

#[derive(Drop)]
pub(crate) struct Draft {
    stage: Stage,
    points: Vec<RawPoint>,
    triangles: Vec<Triple>,
    heights: Vec<i64>,
}

impl Draft {
    pub(crate) fn new(alloc: Global) -> Draft
        ensures { IsAt result.stage (web_of result) [] }
    {
        Draft {
            stage: Stage::Opening,
            points: Vec::new(alloc),
            triangles: Vec::new(alloc),
            heights: Vec::new(alloc),
        }
    }

    // Takes the line, or answers false where no file goes on with it.
    pub(crate) fn step(&mut self, alloc: Global, words: &[&[u8]]) -> Result<bool, AllocError>
        ensures { IfOk result (λ taken. MatchBool taken (Reads self.old (texts words.now) self.new) (Refuses self.old (texts words.now))) }
    {
        let Some(row) = read_row(alloc, words)? else {
            return Ok(false);
        };
        let Some(stage) = self.stage.after(&row) else {
            return Ok(false);
        };
        self.put(row)?;
        self.stage = stage;
        Ok(true)
    }

    fn put(&mut self, row: Row) -> Result<(), AllocError>
        ensures { OnOk result (web_of self.new ≡ web_with (web_of self.old) row) }
    {
        match row {
            Row::Point(point) => self.points.push(point)?,
            Row::Triangle(triangle) => self.triangles.push(triangle)?,
            Row::Heights(heights) => self.heights = heights,
            Row::First | Row::End => {}
        }
        Ok(())
    }

    pub(crate) fn is_done(&self) -> bool
        ensures { IsTrue result ↔ (self.now.stage ≡ Stage.Done) }
    {
        matches!(self.stage, Stage::Done)
    }

    pub(crate) fn file(self) -> RawFile
        ensures { result ≡ web_of self }
    {
        RawFile {
            points: self.points,
            triangles: self.triangles,
            heights: self.heights,
        }
    }
}
