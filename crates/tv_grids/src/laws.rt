//! What is true of grids and of printed files, as laws: each function does nothing, and its contract is the law.

ghost use Rattle.tv_grids.specs.Laws.{GridsAreAccepted, GridsHaveTexts, FilesReadBack};

/// Each grid is within the limits of files, its triangles tile, and each of its compact edges has the degree 1.
pub fn grids_are_accepted()
    ensures { GridsAreAccepted }
{}

/// The text of each grid is a file, namely that grid.
pub fn grids_have_texts()
    ensures { GridsHaveTexts }
{}

/// The text of a file whose numbers have at most nine digits reads back as that file.
pub fn files_read_back()
    ensures { FilesReadBack }
{}
