//! Solving a linear program, and printing the end of the last time.
use crate::program;
use anyhow::{Result, bail};
use fraction_lp::{FractionList, LpAnswer, Rows, solve};
use std::mem::replace;

pub(crate) fn measure(rt: &HostRuntime, times: u32) -> Result<()> {
    let rows = program::read(rt)?;
    let end = end_of(&rows, times);
    drop(rows);
    let printed = print(rt, &end);
    drop(end);
    printed
}

// The end of the last time.
fn end_of(rows: &Rows, times: u32) -> LpAnswer {
    let mut end = solve(rows);
    for _time in 1..times {
        drop(replace(&mut end, solve(rows)));
    }
    end
}

fn print(rt: &HostRuntime, end: &LpAnswer) -> Result<()> {
    match end {
        LpAnswer::Point(point) => print_list(rt, "point", point),
        LpAnswer::Infeasible(multipliers) => print_list(rt, "infeasible", multipliers),
        LpAnswer::Overflow(made) => Ok(println!(rt; "overflow {made}")?),
        LpAnswer::Spent(made) => Ok(println!(rt; "spent {made}")?),
        LpAnswer::Memory => bail!("memory is short"),
    }
}

fn print_list(rt: &HostRuntime, name: &str, fractions: &FractionList) -> Result<()> {
    print!(rt; "{name}")?;
    for fraction in fractions.as_slice() {
        let top = fraction.top();
        let bottom = fraction.bottom();
        print!(rt; " {top}/{bottom}")?;
    }
    println!(rt; "")?;
    Ok(())
}
