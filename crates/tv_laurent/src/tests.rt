//! Values from outside, each call once with ample memory through a bound, and each fault.
//! What the contracts say is not tried again. Each value is made and compared by helpers, so that a test has few exits.

ghost use Rattle.std.specs.Prelude.{◌≡◌, ◌≤◌, IsTrue, unsigned_abs};
ghost use Rattle.tv_laws_series.specs.Terms.{upto};
ghost use Rattle.tv_laurent.specs.QuotientCalls.{QuotientReaches};

use crate::{Coefficient, LPoly, Series, SeriesFault};
use std::alloc::Global;
use std::test::Fail;
use tv_laws_series::laws;
use tv_ring::{Residue, Ring, RingFault, Whole};

// 2^126
const HALF: i128 = 85070591730234615865843651857942052864;

// The first exponent of a series, and its coefficients.
type Listed<'a> = (i64, &'a [i128]);

fn series_of(alloc: Global, (low, numbers): Listed) -> Result<Series<Whole>, SeriesFault> {
    let mut coefficients = Vec::new(alloc);
    for number in numbers {
        coefficients.push(Whole::new(*number).ok_or(SeriesFault::Memory)?)?;
    }
    if -99 <= low && low <= 99 && coefficients.len() <= 99 {
        Ok(Series::new(low, coefficients))
    } else {
        Err(SeriesFault::Memory)
    }
}

// Whether the series begins and ends at small exponents.
fn is_small(series: &Series<Whole>) -> bool
    ensures low { IsTrue result → unsigned_abs series.now.low ≤ 99 }
    ensures upto { IsTrue result → unsigned_abs (upto series.now) ≤ 99 }
{
    let low = series.low();
    let upto = series.upto();
    -99 <= low && low <= 99 && -99 <= upto && upto <= 99
}

// Whether these are the coefficients, and nothing is known beyond them.
fn has(series: &Series<Whole>, (low, numbers): Listed) -> bool {
    series.known();
    if series.low() != low
        || !matches!(series.coefficient(low.wrapping_sub(1)), Coefficient::Zero)
    {
        return false;
    }
    let mut n = low;
    for number in numbers {
        match series.coefficient(n) {
            Coefficient::Is(whole) if whole.get() == *number => {}
            _ => return false,
        }
        n = n.wrapping_add(1);
    }
    series.upto() == n.wrapping_sub(1) && matches!(series.coefficient(n), Coefficient::Beyond)
}

fn shows(answer: Result<Series<Whole>, SeriesFault>, want: Listed) -> bool {
    match answer {
        Ok(series) => has(&series, want),
        Err(_) => false,
    }
}

fn is_wide_at(answer: Result<Series<Whole>, SeriesFault>, exponent: i64) -> bool {
    matches!(answer, Err(SeriesFault::Wide(n)) if n == exponent)
}

fn sum(alloc: Global, a: Listed, b: Listed) -> Result<Series<Whole>, SeriesFault> {
    series_of(alloc, a)?.add(&series_of(alloc, b)?)
}

// The product, where all exponents are small.
fn product(alloc: Global, a: Listed, b: Listed) -> Result<Series<Whole>, SeriesFault> {
    let a = series_of(alloc, a)?;
    let b = series_of(alloc, b)?;
    if is_small(&a) && is_small(&b) {
        a.mul(&b)
    } else {
        Err(SeriesFault::Memory)
    }
}

fn multiple(alloc: Global, a: Listed, factor: i128) -> Result<Series<Whole>, SeriesFault> {
    let factor = Whole::new(factor).ok_or(SeriesFault::Memory)?;
    series_of(alloc, a)?.scale(&factor)
}

#[test]
fn sums_and_products(rt: HostRuntime) {
    let alloc = rt.alloc();
    let ones: Listed = (0, &[1, 1, 1, 1]);
    let later: Listed = (2, &[1, 0, 0]);
    assert!(rt;
        shows(
            product(alloc, (0, &[1, -1, 0, 0]), ones),
            (0, &[1, 0, 0, 0])
        ) && shows(product(alloc, later, ones), (2, &[1, 1, 1]))
            && shows(sum(alloc, later, ones), (0, &[1, 1, 2, 1]))
            && shows(multiple(alloc, later, 3), (2, &[3, 0, 0]))
    );
}

#[test]
fn wide_sums_and_products(rt: HostRuntime) {
    let alloc = rt.alloc();
    let ones: Listed = (-1, &[1, 1]);
    let most: Listed = (-1, &[0, i128::MAX]);
    let half: Listed = (-1, &[0, HALF]);
    assert!(rt;
        shows(product(alloc, ones, most), (-2, &[0, i128::MAX]))
            && is_wide_at(sum(alloc, ones, most), 0)
            && is_wide_at(multiple(alloc, half, 2), 0)
            && is_wide_at(product(alloc, half, (0, &[2, 0])), 0)
            && is_wide_at(product(alloc, ones, (-1, &[HALF, HALF])), -1)
    );
}

// The same coefficients four exponents earlier.
fn earlier(alloc: Global, a: Listed) -> Result<Series<Whole>, SeriesFault> {
    let series = series_of(alloc, a)?;
    if is_small(&series) {
        Ok(series.shift(-4))
    } else {
        Err(SeriesFault::Memory)
    }
}

// A copy of the series, known through 3 alone.
fn shortened(alloc: Global, a: Listed) -> Result<Series<Whole>, SeriesFault> {
    let mut short = series_of(alloc, a)?.copy()?;
    short.truncate(3);
    Ok(short)
}

fn cut_before(alloc: Global, a: Listed) -> Result<Series<Whole>, SeriesFault> {
    Ok(series_of(alloc, a)?.cut(-2))
}

#[test]
fn shifts_copies_and_cuts(rt: HostRuntime) {
    let later: Listed = (2, &[1, 0, 0]);
    assert!(rt;
        shows(earlier(rt.alloc(), later), (-2, &[1, 0, 0]))
            && shows(shortened(rt.alloc(), later), (2, &[1, 0]))
            && shows(cut_before(rt.alloc(), later), (-1, &[]))
    );
}

// The quotient, where the divisor begins with one at 0.
fn quotient<C: Ring>(a: &Series<C>, b: &Series<C>, one: &C) -> Result<Series<C>, SeriesFault>
    requires one { one.now ≡ C.ring.unit }
    requires reaches { QuotientReaches C.ring a.now b.now }
{
    match b.coefficient(0) {
        Coefficient::Is(first) if b.low() == 0 && first.same(one) => a.div_unit(b),
        _ => Err(SeriesFault::Memory),
    }
}

fn divided(alloc: Global, a: Listed, b: Listed) -> Result<Series<Whole>, SeriesFault> {
    let one = Whole::new(1).ok_or(SeriesFault::Memory)?;
    quotient(&series_of(alloc, a)?, &series_of(alloc, b)?, &one)
}

#[test]
fn quotients(rt: HostRuntime) {
    let alloc = rt.alloc();
    let root: Listed = (0, &[1, -1, 3, -6, 13]);
    assert!(rt;
        shows(divided(alloc, (0, &[1, -2, 7, -18, 47]), root), root)
            && shows(
                divided(alloc, (-1, &[1, 0, 0, 0]), (0, &[1, -1, 3])),
                (-1, &[1, 1, -2])
            )
            && is_wide_at(
                divided(alloc, (-1, &[1, i128::MAX]), (0, &[1, -1, 0, 0])),
                0
            )
    );
}

// 1 / (1 + x) modulo 7, through 1.
fn alternating(alloc: Global) -> Result<Series<Residue<7>>, SeriesFault> {
    let one = Residue::<7>::one(alloc).ok().ok_or(SeriesFault::Memory)?;
    let a = Series::new(0, vec![in alloc; one, Residue::new(0)]?);
    let b = Series::new(0, vec![in alloc; one; 2]?);
    quotient(&a, &b, &one)
}

// Whether the coefficient at n is this remainder.
fn has_remainder(series: &Series<Residue<7>>, n: i64, want: u64) -> bool {
    matches!(series.coefficient(n), Coefficient::Is(residue) if residue.get() == want)
}

#[test]
fn quotients_of_remainders(rt: HostRuntime) -> Result<(), Fail> {
    let found = alternating(rt.alloc())?;
    assert!(rt; has_remainder(&found, 0, 1) && has_remainder(&found, 1, 6));
    Ok(())
}

const FAR: i64 = 1000000000000;

// The power `n` of the variable times `c`, where `n` is at most `FAR` and `c` reaches little.
fn term<C: Ring>(alloc: Global, n: i64, c: C) -> Result<LPoly<C>, RingFault> {
    if -FAR <= n && n <= FAR && c.reach() <= 4 {
        LPoly::term(alloc, n, c)
    } else {
        Err(RingFault::Memory)
    }
}

// The power `n` of the variable times this number.
fn power(alloc: Global, n: i64, number: i128) -> Result<LPoly<Whole>, RingFault> {
    term(alloc, n, Whole::new(number).ok_or(RingFault::Memory)?)
}

// x * y, where the exponents are small.
fn small_product<C: Ring>(x: &C, y: &C) -> Result<C, RingFault> {
    if x.reach() <= 4 && y.reach() <= 4 {
        x.mul(y)
    } else {
        Err(RingFault::Memory)
    }
}

// (x + y) * (x - y), where the exponents are small.
fn difference_of_squares<C: Ring>(x: &C, y: &C) -> Result<C, RingFault> {
    let sum = x.add(y)?;
    let difference = x.add(&y.neg()?)?;
    small_product(&sum, &difference)
}

// Whether these are the coefficients from `low` on, and there are no others.
fn spells(polynomial: &LPoly<Whole>, low: i64, numbers: &[i128]) -> bool {
    let mut n = low;
    for number in numbers {
        match polynomial.coefficient(n) {
            Some(whole) if whole.get() == *number => {}
            _ => return false,
        }
        n = n.wrapping_add(1);
    }
    polynomial.coefficient(n).is_none() && polynomial.coefficient(low.wrapping_sub(1)).is_none()
}

// Whether its exponents go from 0 to 2.
fn spans_two<C: Ring>(polynomial: &LPoly<C>) -> bool {
    matches!(polynomial.span(), Some((0, 2))) && polynomial.reach() == 2
}

// Whether it is its copy, and not its double.
fn is_told<C: Ring>(polynomial: &LPoly<C>) -> Result<bool, RingFault> {
    let double = polynomial.add(polynomial)?;
    Ok(polynomial.same(&polynomial.copy()?) && !polynomial.same(&double))
}

// 1 - x^2, as a product.
fn one_without_a_square(alloc: Global) -> Result<LPoly<Whole>, RingFault> {
    difference_of_squares(&LPoly::one(alloc)?, &power(alloc, 1, 1)?)
}

#[test]
fn polynomials(rt: HostRuntime) -> Result<(), Fail> {
    let squares = one_without_a_square(rt.alloc())?;
    assert!(rt; spells(&squares, 0, &[1, 0, -1]) && spans_two(&squares) && is_told(&squares)?);
    Ok(())
}

// Whether x less itself is zero, which has no exponents and adds nothing.
fn is_cancelled(alloc: Global, x: &LPoly<Whole>) -> Result<bool, RingFault> {
    let nought = x.add(&x.neg()?)?;
    nought.known();
    Ok(
        nought.span().is_none()
            && nought.same(&LPoly::zero(alloc)?)
            && x.add(&nought)?.same(x)
            && nought.add(x)?.same(x),
    )
}

#[test]
fn polynomials_that_are_zero(rt: HostRuntime) -> Result<(), Fail> {
    let far = power(rt.alloc(), FAR, 1)?;
    assert!(rt; is_cancelled(rt.alloc(), &far)?);
    Ok(())
}

fn is_wide(answer: Result<LPoly<Whole>, RingFault>) -> bool {
    matches!(answer, Err(RingFault::Wide))
}

fn doubled(alloc: Global, number: i128) -> Result<LPoly<Whole>, RingFault> {
    let half = power(alloc, -3, number)?;
    half.add(&half)
}

fn squared(alloc: Global, number: i128) -> Result<LPoly<Whole>, RingFault> {
    let half = power(alloc, 1, number)?;
    small_product(&half, &half)
}

#[test]
fn wide_polynomials(rt: HostRuntime) {
    assert!(rt; is_wide(doubled(rt.alloc(), HALF)) && is_wide(squared(rt.alloc(), HALF)));
}

// Whether the coefficient at n has these coefficients, from `low` on, and no others.
fn spells_at(polynomial: &LPoly<LPoly<Whole>>, n: i64, low: i64, numbers: &[i128]) -> bool {
    match polynomial.coefficient(n) {
        Some(inner) => spells(inner, low, numbers),
        None => false,
    }
}

// s^2 - x^2 as a product, where s is the variable of the coefficients.
fn squares_of_two(alloc: Global) -> Result<LPoly<LPoly<Whole>>, RingFault> {
    let s = term(alloc, 0, power(alloc, 1, 1)?)?;
    let x = term(alloc, 1, LPoly::one(alloc)?)?;
    difference_of_squares(&s, &x)
}

#[test]
fn polynomials_over_polynomials(rt: HostRuntime) -> Result<(), Fail> {
    let squares = squares_of_two(rt.alloc())?;
    assert!(rt;
        spans_two(&squares)
            && spells_at(&squares, 0, 2, &[1])
            && spells_at(&squares, 1, 0, &[])
            && spells_at(&squares, 2, 0, &[-1])
    );
    Ok(())
}

#[test]
fn laws_over_whole_numbers() {
    laws::sums_and_products_of_series::<Whole>();
    laws::quotients_of_series::<Whole>();
    laws::polynomials_are_a_ring::<Whole>();
}
