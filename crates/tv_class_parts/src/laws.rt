//! Laws of tables of classes: each function does nothing, and its contract is a law.

ghost use Rattle.tv_class_parts.specs.Progress.{StepsOn, EndsWell, PartsAreWide, ReadingIsWide, DifferenceIsSeen};
ghost use Rattle.tv_class_parts.specs.Tables.{PartsAreKatz, TableGoesOn};

/// Where a table has the product over the integers of some classes of a closed list, what these classes add to the next one is
/// what the recurrence needs.
pub fn parts_are_katz()
    ensures { PartsAreKatz }
{}

/// With the next class, its product and its powers it is the table after that class.
pub fn table_goes_on()
    ensures { TableGoesOn }
{}

/// So a family is read class by class, as long as series and product agree.
pub fn steps_on()
    ensures { StepsOn }
{}

/// Where no class is left these are all integers of the family, and their product agrees with it.
pub fn ends_well()
    ensures { EndsWell }
{}

/// A coefficient of the product that is too wide makes the majorant so.
pub fn parts_are_wide()
    ensures { PartsAreWide }
{}

/// An integer, or a power of one, that is too wide makes the majorant so.
pub fn reading_is_wide()
    ensures { ReadingIsWide }
{}

/// The first difference that is seen is the mismatch of the family.
pub fn difference_is_seen()
    ensures { DifferenceIsSeen }
{}
