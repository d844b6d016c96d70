//! A linear program as text: the number of unknowns on a line of its own, and then each row on a
//! line, its coefficients and its bound, each a whole number or `top/bottom`, with blanks between.
ghost use Rattle.std.specs.Prelude.{◌≡◌, OnOk};

use anyhow::{Context, Result, ensure};
use fraction_lp::{Fraction, Rows};
use std::alloc::{AllocError, Global};
use std::io::{BufRead, BufReader};

pub(crate) fn read(rt: &HostRuntime) -> Result<Rows> {
    let alloc = rt.alloc();
    let mut lines = BufReader::new(alloc, rt.reader())?.lines(alloc);
    let first = lines.next().context("no text")??;
    let unknowns = first
        .as_str()
        .trim()
        .parse::<u32>()
        .context("the number of unknowns")?;
    let mut rows = Rows::new(alloc, unknowns);
    for line in lines {
        let line = line?;
        add(alloc, &mut rows, unknowns, line.as_str())?;
    }
    Ok(rows)
}

fn add(alloc: Global, rows: &mut Rows, unknowns: u32, line: &str) -> Result<()>
    requires { rows.old.unknowns ≡ unknowns }
    ensures { OnOk result (rows.new.unknowns ≡ unknowns) }
{
    let mut numbers = Vec::new(alloc);
    for word in line.split_whitespace() {
        let number = fraction(word).context("a fraction")?;
        numbers.push(number).map_err(AllocError::from)?;
    }
    let (bound, row) = numbers.split_last().context("an empty row")?;
    ensure!(
        row.len() == unknowns as usize,
        "{unknowns} coefficients and a bound"
    );
    rows.add(row, *bound)?;
    Ok(())
}

fn fraction(word: &str) -> Option<Fraction> {
    match word.split_once('/') {
        Some((top, bottom)) => Fraction::new(top.parse().ok()?, bottom.parse().ok()?),
        None => Fraction::new(word.parse().ok()?, 1),
    }
}
