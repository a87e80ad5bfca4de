//! What makes the answer of the reader exact, as laws about its definitions. Nothing runs here.

ghost use Rattle.tv_report_reader.specs.Laws.{HasOneReading, HasOnePlace, HasOneFault, RefusesNoReport};

/// Lines spell at most one report.
pub fn one_reading()
    ensures { HasOneReading }
{}

/// There is at most one first line with which no report goes on.
pub fn one_place()
    ensures { HasOnePlace }
{}

/// Bytes are refused for one reason at most.
pub fn one_fault()
    ensures { HasOneFault }
{}

/// A report is not refused.
pub fn no_refusal_of_a_report()
    ensures { RefusesNoReport }
{}
