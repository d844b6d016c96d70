//! The largest numbers of the type: a linear program that comes to them says no more than that it can't go on.
use fraction_lp::Fraction;
use std::test::Fail;

fn fraction(top: i128, bottom: i128) -> Result<Fraction, Fail> {
    Ok(Fraction::new(top, bottom).ok_or("no fraction")?)
}

// Whether the largest number has a sum with 1, a difference from itself, and a product and an order with the
// least fraction above 0.
fn made_of_the_largest() -> Result<[bool; 4], Fail> {
    let most = fraction(i128::MAX, 1)?;
    let least = fraction(1, i128::MAX)?;
    Ok([
        most.plus(fraction(1, 1)?).is_some(),
        most.minus(most).is_some(),
        most.times(least).is_some(),
        most.order(least).is_some(),
    ])
}

#[test]
fn what_is_no_number_of_the_type_is_none(rt: HostRuntime) -> Result<(), Fail> {
    assert!(rt; Fraction::new(i128::MIN, 1).is_none());
    assert_eq!(rt; made_of_the_largest()?, [false, true, true, false]);
    Ok(())
}
