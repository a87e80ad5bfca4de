//! Each public call once: a class with one integer of genus 0, and one with integers of genus 2, 1 and 0.

use crate::differences::first_difference;
use crate::gathered::gathered_powers;
use crate::products::product_row;
use crate::reading::read;
use crate::signs::{signed, whole};
use std::test::Fail;

#[test]
fn genus_zero(rt: HostRuntime) -> Result<(), Fail> {
    let none = [whole(0), whole(0), whole(0)];
    let series = [whole(0), whole(1), signed(&whole(2), 1)];
    let reading = read(rt.alloc(), 0, &series, &none)?;
    assert_eq!(rt; reading.values.as_slice(), [whole(0), whole(1)].as_slice());
    assert_eq!(rt;
        reading.powers.as_slice(),
        [whole(0), whole(1), whole(2)].as_slice()
    );
    assert_eq!(rt; gathered_powers(rt.alloc(), &reading.powers)?.len(), 2);
    Ok(())
}

#[test]
fn higher_genus(rt: HostRuntime) -> Result<(), Fail> {
    let none = [whole(0), whole(0), whole(0), whole(0)];
    let series = [whole(1), whole(0), whole(0), whole(0)];
    let reading = read(rt.alloc(), 1, &series, &none)?;
    let values = [whole(1), signed(&whole(2), 1), signed(&whole(1), 1)];
    assert_eq!(rt; reading.values.as_slice(), values.as_slice());
    let powers = [whole(1), whole(0), whole(0), signed(&whole(2), 1)];
    assert_eq!(rt; reading.powers.as_slice(), powers.as_slice());
    Ok(())
}

#[test]
fn compared(rt: HostRuntime) -> Result<(), Fail> {
    let none = [whole(0), whole(0)];
    let powers = [whole(0), whole(3)];
    let product = product_row(rt.alloc(), &none, &powers)?;
    assert_eq!(rt;
        product.as_slice(),
        [whole(0), signed(&whole(3), 1)].as_slice()
    );
    let series = [whole(0), whole(2)];
    let row = [whole(0), signed(&whole(3), 1)];
    let found = first_difference(0, 2, &series, &row).ok_or("differ")?;
    assert_eq!(rt; found.weight, 1);
    assert_eq!(rt; found.product.get(), 3);
    Ok(())
}
