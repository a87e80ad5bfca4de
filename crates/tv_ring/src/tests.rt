//! Values from outside, each call of the trait once at a concrete type through its bound, and each fault.
//! What the contracts say is not tried again.

ghost use Rattle.std.specs.Prelude.{◌≡◌};

use crate::fault::RingFault;
use crate::residue::Residue;
use crate::ring::Ring;
use crate::whole::Whole;
use std::alloc::Global;
use std::test::Fail;

// 2^126
const HALF: i128 = 85070591730234615865843651857942052864;

// (1 + x) - x - 0 where that is 1, else 0, by each call of the trait but `mul` and `reach`
fn one_again<C: Ring>(alloc: Global, x: &C) -> Result<C, RingFault> {
    x.known();
    let one = C::one(alloc)?;
    let zero = C::zero(alloc)?;
    let more = one.add(x)?;
    let less = more.add(&x.neg()?)?;
    let again = less.add(&zero)?;
    if again.same(&one) {
        again.copy()
    } else {
        Ok(zero)
    }
}

// x * x, where x reaches no exponent
fn square<C: Ring>(x: &C) -> Result<Option<C>, RingFault> {
    if x.reach() == 0 {
        Ok(Some(x.mul(x)?))
    } else {
        Ok(None)
    }
}

#[test]
fn whole_numbers(rt: HostRuntime) -> Result<(), Fail> {
    let limit = Whole::new(i128::MAX).ok_or("within")?;
    let one = Whole::one(rt.alloc())?;
    let twelve = Whole::new(-12).ok_or("within")?;
    assert_eq!(rt; Whole::new(i128::MIN), None);
    assert_eq!(rt; limit.add(&one).err(), Some(RingFault::Wide));
    assert_eq!(rt; limit.add(&one.neg()?)?.get(), i128::MAX - 1);
    let half = Whole::new(HALF).ok_or("within")?;
    let two = Whole::new(2).ok_or("within")?;
    assert_eq!(rt; half.mul(&two).err(), Some(RingFault::Wide));
    assert_eq!(rt; half.mul(&two.neg()?).err(), Some(RingFault::Wide));
    assert_eq!(rt; limit.neg()?.add(&one.neg()?).err(), Some(RingFault::Wide));
    assert_eq!(rt; one_again(rt.alloc(), &twelve)?.get(), 1);
    assert_eq!(rt; square(&twelve)?.ok_or("no exponent")?.get(), 144);
    assert!(rt; twelve.same(&twelve) && !twelve.same(&one));
    Ok(())
}

#[test]
fn remainders(rt: HostRuntime) -> Result<(), Fail> {
    let five = Residue::<7>::new(5);
    let three = Residue::<7>::new(17);
    assert_eq!(rt; five.mul(&three)?.get(), 1);
    assert_eq!(rt; five.add(&three)?.get(), 1);
    assert_eq!(rt; Residue::<7>::zero(rt.alloc())?.neg()?.get(), 0);
    assert_eq!(rt; one_again(rt.alloc(), &five)?.get(), 1);
    assert_eq!(rt; square(&five)?.ok_or("no exponent")?.get(), 4);
    assert!(rt; five.same(&five) && !five.same(&three));
    assert_eq!(rt; Residue::<0>::one(rt.alloc())?.get(), 0);
    let most = Residue::<18446744073709551615>::new(18446744073709551614);
    assert_eq!(rt; most.mul(&most)?.get(), 1);
    assert_eq!(rt; most.add(&most)?.get(), 18446744073709551613);
    Ok(())
}
