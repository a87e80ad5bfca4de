//! What makes the answer of the reader exact, as laws about its definitions. Nothing runs here.

ghost use Rattle.tv_text.specs.Laws.{HasOneReading, HasOnePlace, HasOneFault, RefusesNoText};

/// Lines spell at most one file.
pub fn one_reading()
    ensures { HasOneReading }
{}

/// There is at most one first line with which no file goes on.
pub fn one_place()
    ensures { HasOnePlace }
{}

/// Bytes are refused for one reason at most.
pub fn one_fault()
    ensures { HasOneFault }
{}

/// A file within the limits is not refused.
pub fn no_refusal_of_a_file()
    ensures { RefusesNoText }
{}
