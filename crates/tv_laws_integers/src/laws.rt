//! Laws of the integers of a family: each function does nothing, and its contract is a law. A family is normalized where class
//! zero has the series 1 and every other class a degree of at least 1. A list of classes of degree 1 to D is closed where it is
//! in order and has the classes of the family in these degrees and, with any two of its classes, their sum of degree at most D.
//! Coefficients of a family are 0 beyond what it knows; who wants the integers of a series asks for a family that is known to
//! degree D and through exponent 1.

ghost use Rattle.tv_laws_integers.specs.Laws.{ReducedNormalized, IntegersAre, IntegersOnly, OnlyWhereTheyBegin, IntegersListed};
ghost use Rattle.tv_laws_integers.specs.Laws.{ReducedClassesAddUp, IntegersAtClasses};
ghost use Rattle.tv_laws_integers.specs.Laws.{IntegersGoOn, AgreeEverywhere, SlopeOfSeries};
ghost use Rattle.tv_laws_integers.specs.Laws.{MismatchFirst, MismatchOnly, NoMismatch, MismatchSeen};

/// The reduced family, through an exponent of at least 0, of a graded web that has a height for each point and no diagrams on
/// its open edges is normalized.
pub fn reduced_is_normalized()
    ensures { ReducedNormalized }
{}

/// The reduced family, to degree d, of a graded web that has no diagrams on its open edges has with any two of its classes
/// their sum, where the degree of that is at most d.
pub fn reduced_classes_add_up()
    ensures { ReducedClassesAddUp }
{}

/// The integers of a reduced family, through an exponent of at least 1, of a graded web that has a height for each point and no
/// diagrams on its open edges stand at classes of the family, each of which is that of some assignment of diagrams.
pub fn integers_at_classes()
    ensures { IntegersAtClasses }
{}

/// What is read off a normalized family class by class, and in each class from the greatest genus down, are its integers: at
/// every class of degree at most D, Katz's product over them and the family agree at every exponent at most 1.
pub fn integers_are()
    ensures { IntegersAre }
{}

/// No other list has that, of integers other than 0 at classes of degree 1 to D, listed from the last class and the least genus
/// on.
pub fn integers_only()
    ensures { IntegersOnly }
{}

/// Two lists of integers in that order are the same where their products agree at the classes of the integers of both, at the
/// exponents 1 - genus.
pub fn only_where_they_begin()
    ensures { OnlyWhereTheyBegin }
{}

/// The integers of a normalized family stand only at classes that every closed list has.
pub fn integers_listed()
    ensures { IntegersListed }
{}

/// Over a closed list what was read of its first classes goes on to the integers, and these classes keep their product.
pub fn integers_go_on()
    ensures { IntegersGoOn }
{}

/// Where the product over integers at classes of a closed list and a normalized family agree through N at the classes of that
/// list, they do at all classes of degree at most D.
pub fn agree_everywhere()
    ensures { AgreeEverywhere }
{}

/// The greatest slope of the integers, the least c with genus - 1 at most c times the degree for each, is the least c such that
/// each series begins at - c times its degree or above.
pub fn slope_of_series()
    ensures { SlopeOfSeries }
{}

/// The mismatch of a normalized family is the first class of degree at most D, and in it the first exponent at most N, at
/// which it differs from the product over what is read off it.
pub fn mismatch_first()
    ensures { MismatchFirst }
{}

/// A family has at most one mismatch.
pub fn mismatch_only()
    ensures { MismatchOnly }
{}

/// It has none where product and family agree at all classes of degree at most D, through N.
pub fn no_mismatch()
    ensures { NoMismatch }
{}

/// Where the classes of a closed list are read in order and compared through N, it is the first difference.
pub fn mismatch_seen()
    ensures { MismatchSeen }
{}
