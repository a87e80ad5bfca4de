//! How a run ends. The number of a status is what the program exits with.

ghost use Rattle.std.specs.Prelude.{◌≡◌};
ghost use Rattle.tv_answers.specs.Status.{code_of};

/// How a run ends.
#[derive(Clone, Copy, Debug, PartialEq, Eq)]
pub enum Status {
    /// The report was written.
    Done,
    /// The words are no command, or ask for a class that doesn't suit the file.
    Words,
    /// The file, or the report, is refused.
    File,
    /// A number that the command needs exceeds 2^127 - 1. A series is told by residues there, and never ends so.
    Wide,
    /// A series and the product over its integers differ.
    Differs,
    /// Memory was wanting.
    Memory,
    /// The input could not be read.
    ReadFault,
    /// The output could not be written.
    WriteFault,
}

impl Status {
    /// The number with which the program exits.
    pub fn code(&self) -> u8
        ensures { result ≡ code_of self.now }
    {
        match self {
            Status::Done => 0,
            Status::Words => 2,
            Status::File => 3,
            Status::Wide => 4,
            Status::Differs => 5,
            Status::Memory => 6,
            Status::ReadFault => 7,
            Status::WriteFault => 8,
        }
    }
}
