//! Signs and differences of whole numbers.

ghost use Rattle.std.specs.Prelude.{◌≡◌, ◌<◌, ◌+◌, ◌^◌, IfOk, IsErrOf, IsOkUnless, pos, ◌-ℤ◌, ◌*ℤ◌, unsigned_abs};
ghost use Rattle.tv_ring.specs.Operations.{limit};
ghost use Rattle.tv_spec_katz.specs.Binomials.{power_sign};

use tv_ring::{Ring, RingFault, Whole};

/// The number as a whole one.
pub fn whole(n: u64) -> Whole
    ensures value { result ≡ pos n }
{
    match Whole::new(n as i128) {
        Some(number) => number,
        None => unreachable!(),
    }
}

/// The number times the power of -1.
pub fn signed(number: &Whole, exponent: usize) -> Whole
    ensures value { result ≡ power_sign exponent *ℤ number.now }
{
    if exponent.is_multiple_of(2) {
        *number
    } else {
        match number.neg() {
            Ok(negative) => negative,
            Err(_) => unreachable!(),
        }
    }
}

/// The difference. Wide exactly where its absolute value is.
pub fn less(x: &Whole, y: &Whole) -> Result<Whole, RingFault>
    ensures value { IfOk result (λ z. z ≡ x.now -ℤ y.now) }
    ensures wide { IsErrOf result RingFault.Wide → limit < unsigned_abs (x.now -ℤ y.now) }
    ensures no_memory { IsOkUnless result RingFault.Wide }
{
    x.add(&signed(y, 1))
}
