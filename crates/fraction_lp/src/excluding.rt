ghost use Rattle.std.specs.Prelude.{◌≡◌, ◌<◌, length};
ghost use Rattle.fraction_lp.specs.Dictionary.{plus_times};
ghost use Rattle.fraction_lp.specs.Excluding as spec;
ghost use Rattle.fraction_lp.specs.declared.column.Column.TheVariants.{Unknown};

use crate::Fraction;
use crate::column::Column;
use crate::rows::{Row, Rows};

/// Whether multipliers show that no point satisfies the rows: there is one a row and none is negative,
/// the rows times them have no negative coefficient, and the bounds times them are below 0 (Farkas). It
/// is false where a sum on the way leaves the type. Takes no memory. Time: the rows times the unknowns.
pub fn excludes(rows: &Rows, multipliers: &[Fraction]) -> bool
    ensures { result ≡ spec.excludes rows.now multipliers.now }
{
    let lines = rows.rows();
    if multipliers.len() != lines.len() {
        return false;
    }
    if !multipliers_pass(multipliers) {
        return false;
    }
    if !unknowns_pass(lines, multipliers, rows.unknowns()) {
        return false;
    }
    is_formed_below(column_sum(lines, multipliers, Column::Bounds))
}

// Whether no multiplier is negative.
fn multipliers_pass(multipliers: &[Fraction]) -> bool
    ensures { result
        ≡ spec.each_below (length multipliers.now) (spec.multiplier_passes multipliers.now) }
{
    for i in 0..multipliers.len() {
        if !multiplier_passes(multipliers, i) {
            return false;
        }
    }
    true
}

fn multiplier_passes(multipliers: &[Fraction], i: usize) -> bool
    requires { i < length multipliers.now }
    ensures { result ≡ spec.multiplier_passes multipliers.now i }
{
    !multipliers[i].is_below_zero()
}

// Whether no unknown's sum is negative.
fn unknowns_pass(rows: &[Row], multipliers: &[Fraction], unknowns: u32) -> bool
    requires { length multipliers.now ≡ length rows.now }
    ensures { result ≡ spec.each_below unknowns (spec.unknown_passes rows.now multipliers.now) }
{
    for unknown in 0..unknowns {
        if !unknown_passes(rows, multipliers, unknown) {
            return false;
        }
    }
    true
}

fn unknown_passes(rows: &[Row], multipliers: &[Fraction], unknown: u32) -> bool
    requires { length multipliers.now ≡ length rows.now }
    ensures { result ≡ spec.unknown_passes rows.now multipliers.now unknown }
{
    match column_sum(rows, multipliers, Column::Unknown(unknown)) {
        Some(sum) => !sum.is_below_zero(),
        None => false,
    }
}

fn is_formed_below(sum: Option<Fraction>) -> bool
    ensures { result ≡ spec.is_formed_below sum }
{
    match sum {
        Some(sum) => sum.is_below_zero(),
        None => false,
    }
}

// The entries of a column times the multipliers, added up row by row; none where a number leaves the type.
fn column_sum(rows: &[Row], multipliers: &[Fraction], column: Column) -> Option<Fraction>
    requires { length multipliers.now ≡ length rows.now }
    ensures { result ≡ spec.column_sum column rows.now multipliers.now }
{
    let mut sum = Fraction::zero();
    for i in 0..rows.len() {
        sum = plus_times(sum, multiplier(multipliers, i), entry(rows, column, i))?;
    }
    Some(sum)
}

fn multiplier(multipliers: &[Fraction], i: usize) -> Fraction
    requires { i < length multipliers.now }
    ensures { result ≡ spec.multiplier_at multipliers.now i }
{
    multipliers[i]
}

fn entry(rows: &[Row], column: Column, i: usize) -> Fraction
    requires { i < length rows.now }
    ensures { result ≡ spec.entry_at column rows.now i }
{
    let row = &rows[i];
    row.entry(column)
}

// A product more.
fn plus_times(sum: Fraction, multiplier: Fraction, entry: Fraction) -> Option<Fraction>
    ensures { result ≡ plus_times sum multiplier entry }
{
    let product = multiplier.times(entry)?;
    sum.plus(product)
}
