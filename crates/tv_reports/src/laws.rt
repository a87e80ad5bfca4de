//! The laws of what is printed, as calls that do nothing and whose contracts are the laws.

ghost use Rattle.tv_reports.specs.Sections.{SectionsTell};
ghost use Rattle.tv_reports.specs.IntegerSections.{TextTells};
ghost use Rattle.tv_reports.specs.LeastRemainders.{RemainderIsLeast, TimesOfResidues};
ghost use Rattle.tv_reports.specs.Residues.{ResidueSectionsTell};

/// The sections of a family have each coefficient other than 0 that the family knows, and nothing else.
pub fn sections_tell_series()
    ensures law { SectionsTell }
{}

/// The text of a family's sections with integers is the report of that family and of these integers.
pub fn text_tells_integers()
    ensures law { TextTells }
{}

/// The sections by residues have, of each whole series whose remainders the two families have, each coefficient with a
/// remainder other than 0, and nothing else.
pub fn residue_sections_tell()
    ensures law { ResidueSectionsTell }
{}

/// A remainder modulo a number of at least 1 is less than that number, and differs from what it is of by a whole multiple.
pub fn remainder_is_least()
    ensures law { RemainderIsLeast }
{}

/// Among the remainders modulo a number a whole number times one is its remainder.
pub fn times_of_residues()
    ensures law { TimesOfResidues }
{}
