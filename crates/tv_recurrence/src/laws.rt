//! Laws of the recurrence on numbers: each function does nothing, and its contract is a law.

ghost use Rattle.tv_recurrence.specs.KatzParts.{CoefficientIsKatz, KatzPartsAreExact, SizesOfKatzParts};
ghost use Rattle.tv_recurrence.specs.Products.{CoefficientIsProduct, PartsAreExact, SizesOfParts};

/// Where the rows hold a product's coefficients at the lower classes, the number that degree times is the total of the parts is
/// the product's coefficient.
pub fn coefficient_is_product()
    ensures { CoefficientIsProduct }
{}

/// The degree divides that total.
pub fn parts_are_exact()
    ensures { PartsAreExact }
{}

/// And the sizes of all terms add up to at most degree times the product without signs.
pub fn sizes_of_parts()
    ensures { SizesOfParts }
{}

/// So where the rows hold the coefficients of Katz's product over integers, the number is its coefficient.
pub fn coefficient_is_katz()
    ensures { CoefficientIsKatz }
{}

/// The degree divides the total.
pub fn katz_parts_are_exact()
    ensures { KatzPartsAreExact }
{}

/// And the sizes of all terms add up to at most degree times Katz's product without signs.
pub fn sizes_of_katz_parts()
    ensures { SizesOfKatzParts }
{}
