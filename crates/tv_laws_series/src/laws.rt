//! The laws of series and polynomials, as calls that do nothing and whose contracts are the laws.
//! They speak of the same sums and products as the contracts of the calls do.

ghost use Rattle.tv_ring.specs.Operations.{RingLaws, SizeLaws};
ghost use Rattle.tv_laws_series.specs.Polynomials.{IsPoly, polynomials};
ghost use Rattle.tv_laws_series.specs.SeriesLaws.{SeriesLaws};
ghost use Rattle.tv_laws_series.specs.Coefficients.{SumUpto, SumCoefficients, ProductUpto, ProductCoefficients, QuotientUpto, QuotientCoefficients};
ghost use Rattle.tv_laws_series.specs.QuotientLaws.{QuotientTimesDivisor, DivisionUndoes, OnlyQuotient, QuotientHasValues};

use tv_ring::Ring;

/// Sums and products of series are commutative, associative and distributive to the order that both sides know.
pub fn sums_and_products_of_series<C: Ring>()
    ensures laws { SeriesLaws C.IsValue C.ring }
{}

/// A quotient times its divisor, which begins with one, is the dividend as far as the quotient is known, and no other series is;
/// a product divided by its second factor is the first.
pub fn quotients_of_series<C: Ring>()
    ensures product { QuotientTimesDivisor C.IsValue C.ring }
    ensures undoes { DivisionUndoes C.IsValue C.ring }
    ensures only { OnlyQuotient C.IsValue C.ring }
    ensures values { QuotientHasValues C.IsValue C.ring }
{}

/// A sum is known through the lesser last exponent, and each coefficient of it is the sum of both.
pub fn coefficients_of_sums<C: Ring>()
    ensures upto { SumUpto C.ring }
    ensures coefficients { SumCoefficients C.IsValue C.ring }
{}

/// A product is known through the lesser of both sums of a low and the other's last exponent, and each coefficient of it is the
/// sum of the products of all pairs of coefficients that meet there.
pub fn coefficients_of_products<C: Ring>()
    ensures upto { ProductUpto C.ring }
    ensures coefficients { ProductCoefficients C.IsValue C.ring }
{}

/// A quotient by a series that begins with one is known through the lesser of the dividend's last exponent and the sum of its
/// low and the divisor's last exponent, and with the divisor it gives each coefficient of the dividend so far.
pub fn coefficients_of_quotients<C: Ring>()
    ensures upto { QuotientUpto C.ring }
    ensures coefficients { QuotientCoefficients C.IsValue C.ring }
{}

/// Laurent polynomials over a ring are a ring, whose sizes and reaches are bounded as a ring's are.
pub fn polynomials_are_a_ring<C: Ring>()
    ensures laws { RingLaws (IsPoly C.IsValue C.ring) (polynomials C.ring) }
    ensures sizes { SizeLaws (IsPoly C.IsValue C.ring) (polynomials C.ring) }
{}
