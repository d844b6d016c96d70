ghost use Rattle.std.specs.Prelude.{◌≡◌, ℕ, ◌+◌, ◌*◌, ◌^◌, ◌<◌, pos, nat_abs, ◌<ℤ◌, ◌*ℤ◌, ◌+ℤ◌, ◌-ℤ◌, Some, None, IfSome, [], ◌∷◌};
ghost use Rattle.std.specs.Prelude.{T};
ghost use Rattle.fraction_lp.specs.Ratio.{is_reduced, is_zero, is_below_zero, is_above_zero, negated, zero_ratio, one_ratio, ratio, where_they_fit, plus, minus, times, over, turned, order, new_ratio};

use crate::divisor::greatest_common_divisor;
use std::cmp::Ordering;
use std::marker::Model;

/// A whole number over a positive one, reduced, each of absolute value at most 2^127 - 1.
#[derive(Clone, Copy, Debug, Drop)]
pub struct Fraction {
    top: i128,
    bottom: u128,
    ghost reduced: { T (is_reduced top bottom) },
}

impl Model for Fraction {
    ghost use Rattle.std.specs.Prelude.{◌<◌, ◌^◌, nat_abs};
    ghost use Rattle.fraction_lp.specs.Ratio.{Ratio, ratio_code};

    ghost Value = { Ratio };

    ghost coded = { ratio_code };

    ghost view = { λ f. record { top = f.top; bottom = f.bottom; reduced = f.reduced } };

    ghost inverse = { λ x. record { top = x.top; bottom = x.bottom; reduced = x.reduced } };

    ghost invariant = { λ f. (nat_abs f.top < 2 ^ 127) × (f.bottom < 2 ^ 127) };
}

impl Fraction {
    /// The fraction of a whole number over another, reduced; none where the bottom is below 1 or the
    /// top is the least number of its type.
    pub fn new(top: i128, bottom: i128) -> Option<Fraction>
        ensures { result ≡ new_ratio top bottom }
    {
        if bottom < 1 || top == i128::MIN {
            None
        } else {
            Some(reduce(top, bottom as u128))
        }
    }

    pub fn top(self) -> i128
        ensures value { result ≡ self.top }
        ensures size { nat_abs result < 2 ^ 127 }
    {
        self.top
    }

    pub fn bottom(self) -> i128
        ensures value { result ≡ pos self.bottom }
        ensures size { nat_abs result < 2 ^ 127 }
        ensures positive { pos 0 <ℤ result }
    {
        self.bottom as i128
    }

    /// The sum, where both products, their sum and the product of the bottoms fit.
    pub fn plus(self, other: Fraction) -> Option<Fraction>
        ensures { result ≡ plus self other }
    {
        let (left, right) = self.cross_products(other)?;
        let top = formed_sum(left, right)?;
        over_both(top, self.whole(), other.whole())
    }

    /// The difference, where both products, their difference and the product of the bottoms fit.
    pub fn minus(self, other: Fraction) -> Option<Fraction>
        ensures { result ≡ minus self other }
    {
        let (left, right) = self.cross_products(other)?;
        let top = formed_difference(left, right)?;
        over_both(top, self.whole(), other.whole())
    }

    /// The product, where the product of the tops and that of the bottoms fit.
    pub fn times(self, other: Fraction) -> Option<Fraction>
        ensures { result ≡ times self other }
    {
        let top = formed_product(self.top(), other.top())?;
        over_both(top, self.whole(), other.whole())
    }

    /// The quotient, where the other isn't 0 and each top times the other's bottom fits.
    pub fn over(self, other: Fraction) -> Option<Fraction>
        ensures { result ≡ over self other }
    {
        let divisor = other.top();
        if divisor == 0 {
            return None;
        }
        let top = formed_product(self.top(), other.bottom())?;
        over_both(flip_by(top, divisor), self.whole(), divisor.unsigned_abs())
    }

    /// Which of two is greater, where each top times the other's bottom fits.
    pub fn order(self, other: Fraction) -> Option<Ordering>
        ensures { result ≡ order self other }
    {
        let (left, right) = self.cross_products(other)?;
        Some(left.cmp(&right))
    }

    pub(crate) fn negate(self) -> Fraction
        ensures { result ≡ negated self }
    {
        Fraction {
            top: -self.top,
            bottom: self.bottom,
        }
    }

    pub(crate) fn is_zero(self) -> bool
        ensures { result ≡ is_zero self }
    {
        self.top == 0
    }

    pub(crate) fn is_below_zero(self) -> bool
        ensures { result ≡ is_below_zero self }
    {
        self.top < 0
    }

    pub(crate) fn is_above_zero(self) -> bool
        ensures { result ≡ is_above_zero self }
    {
        self.top > 0
    }

    pub(crate) fn zero() -> Fraction
        ensures { result ≡ zero_ratio }
    {
        Fraction { top: 0, bottom: 1 }
    }

    pub(crate) fn one() -> Fraction
        ensures { result ≡ one_ratio }
    {
        Fraction { top: 1, bottom: 1 }
    }

    /// The bottom as a number without a sign.
    fn whole(self) -> u128
        ensures value { result ≡ self.bottom }
        ensures positive { 0 < result }
    {
        self.bottom
    }

    /// Each top times the other's bottom, where both fit.
    fn cross_products(self, other: Fraction) -> Option<(i128, i128)>
        ensures { result
            ≡ where_they_fit ((self.top *ℤ pos other.bottom) ∷ (other.top *ℤ pos self.bottom) ∷ [])
            ((self.top *ℤ pos other.bottom), (other.top *ℤ pos self.bottom)) }
    {
        let left = formed_product(self.top(), other.bottom())?;
        let right = formed_product(other.top(), self.bottom())?;
        Some((left, right))
    }
}

/// A top that fits over the product of two positive numbers, where that fits.
fn over_both(top: i128, a: u128, b: u128) -> Option<Fraction>
    requires top { nat_abs top < 2 ^ 127 }
    requires a { 0 < a }
    requires b { 0 < b }
    ensures { result ≡ where_they_fit (pos (a * b) ∷ []) (ratio top (a * b)) }
{
    let bottom = formed_bottom(a, b)?;
    Some(reduce(top, bottom))
}

/// A product of two positive numbers, where it is at most 2^127 - 1.
fn formed_bottom(a: u128, b: u128) -> Option<u128>
    requires a { 0 < a }
    requires b { 0 < b }
    ensures value { result ≡ where_they_fit (pos (a * b) ∷ []) (a * b) }
    ensures positive { IfSome result (λ product. 0 < product) }
{
    match a.checked_mul(b) {
        Some(product) if product <= i128::MAX as u128 => Some(product),
        _ => None,
    }
}

/// A number that fits, its sign changed where the divisor is negative.
fn flip_by(top: i128, divisor: i128) -> i128
    requires { nat_abs top < 2 ^ 127 }
    ensures value { result ≡ turned top divisor }
    ensures size { nat_abs result < 2 ^ 127 }
{
    if divisor < 0 { -top } else { top }
}

/// A fraction of numbers that fit.
fn reduce(top: i128, bottom: u128) -> Fraction
    requires top { nat_abs top < 2 ^ 127 }
    requires positive { 0 < bottom }
    requires bottom { bottom < 2 ^ 127 }
    ensures { result ≡ ratio top bottom }
{
    let divisor = greatest_common_divisor(top.unsigned_abs(), bottom);
    if divisor == 1 {
        return Fraction { top, bottom };
    }
    Fraction {
        top: top / divisor as i128,
        bottom: bottom / divisor,
    }
}

/// A product, where its absolute value is at most 2^127 - 1.
fn formed_product(a: i128, b: i128) -> Option<i128>
    ensures { result ≡ where_they_fit ((a *ℤ b) ∷ []) (a *ℤ b) }
{
    match a.checked_mul(b) {
        Some(product) if product != i128::MIN => Some(product),
        _ => None,
    }
}

/// A sum, where its absolute value is at most 2^127 - 1.
fn formed_sum(a: i128, b: i128) -> Option<i128>
    ensures { result ≡ where_they_fit ((a +ℤ b) ∷ []) (a +ℤ b) }
{
    match a.checked_add(b) {
        Some(sum) if sum != i128::MIN => Some(sum),
        _ => None,
    }
}

/// A difference, where its absolute value is at most 2^127 - 1.
fn formed_difference(a: i128, b: i128) -> Option<i128>
    ensures { result ≡ where_they_fit ((a -ℤ b) ∷ []) (a -ℤ b) }
{
    match a.checked_sub(b) {
        Some(difference) if difference != i128::MIN => Some(difference),
        _ => None,
    }
}
