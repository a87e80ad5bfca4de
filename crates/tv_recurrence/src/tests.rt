//! Each public call once on a small case: the coefficient of y^3 Q^2 in the product of (1 - y Q)^-1, (1 - y^2 Q)^-2 and
//! (1 - y^3 Q^2)^-5, which is 1 * 2 + 5.

ghost use Rattle.std.specs.Prelude.{◌≡◌, pos, negsuc, neg_ℤ, [], ◌∷◌};

use crate::fault::RowFault;
use crate::numbers::whole;
use crate::part::{Part, Power};
use crate::quotients::coefficient;
use crate::row::coefficients;
use std::alloc::Global;
use std::test::Fail;
use tv_ring::{Ring, RingFault, Whole};

fn negative(n: u64) -> Whole
    ensures value { result ≡ neg_ℤ (pos n) }
{
    match whole(n).neg() {
        Ok(number) => number,
        Err(_) => unreachable!(),
    }
}

// the parts of a class of degree 1 and of its double, with the numbers of two lines
fn third<'p, 'r>(
    alloc: Global,
    powers: &'p [Power],
    double: &'p [Power],
    line: &'r [Whole],
    unit: &'r [Whole],
) -> Result<Whole, RingFault>
    requires powers { powers.now ≡ record { step = 1; power = negsuc 0 } ∷ record { step = 2; power = negsuc 1 } ∷ [] }
    requires double { double.now ≡ record { step = 3; power = negsuc 4 } ∷ [] }
    requires line { line.now ≡ pos 0 ∷ pos 1 ∷ pos 2 ∷ [] }
    requires unit { unit.now ≡ pos 1 ∷ [] }
{
    let rows = vec![in alloc; line, unit]?;
    let first = Part::new(1, powers, rows);
    let second = Part::new(2, double, vec![in alloc; unit]?);
    coefficient(2, &[first, second], 3)
}

// one power and one row, with no degree to divide by
fn alone<'p, 'r>(alloc: Global, powers: &'p [Power], row: &'r [Whole]) -> Result<Whole, RingFault> {
    let part = Part::new(1, powers, vec![in alloc; row]?);
    coefficient(1, &[part], 0)
}

// the same at the weights 0 and 1
fn two(alloc: Global, powers: &[Power], row: &[Whole]) -> Result<Vec<Whole>, RowFault> {
    let part = Part::new(1, powers, vec![in alloc; row]?);
    coefficients(alloc, 1, &[part], 2)
}

#[test]
fn sizes(rt: HostRuntime) -> Result<(), Fail> {
    let row = [Whole::new(i128::MAX).ok_or("within")?];
    let twice = [Power {
        step: 0,
        power: negative(2),
    }];
    let none = [Power {
        step: 0,
        power: whole(0),
    }];
    assert_eq!(rt;
        alone(rt.alloc(), &twice, &row).err(),
        Some(RingFault::Wide)
    );
    assert_eq!(rt; alone(rt.alloc(), &none, &row)?.get(), 0);
    let later = [Power {
        step: 1,
        power: negative(2),
    }];
    assert_eq!(rt;
        two(rt.alloc(), &later, &row).err(),
        Some(RowFault::Wide(1))
    );
    let both = two(rt.alloc(), &later, &[whole(3)])?;
    assert_eq!(rt; both.as_slice(), [whole(0), whole(6)].as_slice());
    Ok(())
}

#[test]
fn two_parts(rt: HostRuntime) -> Result<(), Fail> {
    let line = [whole(0), whole(1), whole(2)];
    let powers = [
        Power {
            step: 1,
            power: negative(1),
        },
        Power {
            step: 2,
            power: negative(2),
        },
    ];
    let double = [Power {
        step: 3,
        power: negative(5),
    }];
    let third = third(rt.alloc(), &powers, &double, &line, &[whole(1)])?;
    assert_eq!(rt; third.get(), 7);
    Ok(())
}
