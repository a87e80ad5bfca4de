//! Laws of reports of integers that are read back and verified: each function does nothing, and its contract is a law.

ghost use Rattle.tv_laws_reports.specs.Verdicts.{SeriesHaveTheirTerms, FamiliesAreTold, IntegersAreTold, ReportsAreVerified, OnlyYesIsTold};

/// The series that rising terms tell has their coefficients, and 0 elsewhere.
pub fn series_have_their_terms()
    ensures { SeriesHaveTheirTerms }
{}

/// The sections of a report of integers tell the reduced family of its web: at every class, also where they don't name it, at every
/// exponent through the last one.
pub fn families_are_told()
    ensures { FamiliesAreTold }
{}

/// They tell its integers, in their order.
pub fn integers_are_told()
    ensures { IntegersAreTold }
{}

/// Of what is read back from the text of a report of integers, of a web as in `all_reports_read_back`, Katz's product over the
/// integers is the series.
pub fn reports_are_verified()
    ensures { ReportsAreVerified }
{}

/// So the only right verdict on it is yes, and `verify`, which tells no other, answers yes, too wide or want of memory.
pub fn only_yes_is_told()
    ensures { OnlyYesIsTold }
{}
