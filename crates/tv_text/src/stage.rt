//! How far a file is read: which kinds of line may follow. The lines themselves are kept elsewhere.

ghost use Rattle.std.specs.Prelude.{◌≡◌};
ghost use Rattle.tv_text.specs.Stages.{stage_after};

use crate::row::Row;

#[derive(Clone, Copy)]
pub(crate) enum Stage {
    Opening,
    Points,
    Triangles,
    Closing,
    Done,
}

impl Stage {
    // The stage after the row; None where the row may not follow.
    pub(crate) fn after(self, row: &Row) -> Option<Stage>
        ensures { result ≡ stage_after self row.now }
    {
        match (self, row) {
            (Stage::Opening, Row::First) => Some(Stage::Points),
            (Stage::Points, Row::Point(_)) => Some(Stage::Points),
            (Stage::Points | Stage::Triangles, Row::Triangle(_)) => Some(Stage::Triangles),
            (Stage::Points | Stage::Triangles, Row::Heights(_)) => Some(Stage::Closing),
            (Stage::Closing, Row::End) => Some(Stage::Done),
            _ => None,
        }
    }
}
