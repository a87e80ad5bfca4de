//! Laws of printed reports of integers: each function does nothing, and its contract is a law. The grammar is that in which
//! `verify` reads.

ghost use Rattle.tv_laws_reports.specs.Laws.{SectionsReadBack, ReportsReadBack, AllReportsReadBack, OnlyLengthIsRefused};

/// The text of every report that fits the grammar reads back as that report, and as no other.
pub fn sections_read_back()
    ensures { SectionsReadBack }
{}

/// The text of every report of the integers of a graded web, with a height for each point, reads back as the report of its own
/// sections, and as no other: where the heights, the degree and the order are within the limits of the grammar, and each entry,
/// exponent and genus that it prints has at most nine digits.
pub fn reports_read_back()
    ensures { ReportsReadBack }
{}

/// So does the text of every report of the integers of a web that a file may hold, with a height for each point, each compact
/// edge with its rule and a degree of at least 1, in degrees to at most 24 and through an exponent from 1 to 64: what it prints
/// never has more digits.
pub fn all_reports_read_back()
    ensures { AllReportsReadBack }
{}

/// The only fault that the reader can find with such a text is that it is longer than a report may be.
pub fn only_length_is_refused()
    ensures { OnlyLengthIsRefused }
{}
