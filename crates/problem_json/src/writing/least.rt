ghost use Rattle.std.specs.Prelude.{◌≡◌, IfOk, OnOk, map, string_bytes};
ghost use Rattle.serde_json.specs.Written.{compact_text};
ghost use Rattle.fraction_lp.specs.declared.proof.Proof.TheVariants as said;
ghost use Rattle.problem_json.specs.Writing.{list_data};
ghost use Rattle.problem_json.specs.WritingLeast.{sign_text, fraction_text, fraction_data, claim_data};

use crate::writing::pieces::{push_comma, push_number};
use fraction_lp::{Fraction, Proof};
use lists::Memory;
use std::alloc::Global;
use text_writer::Pieces;
use wan_text::quoted;

/// Adds that so many rate steps are impossible, and what shows it. An Err is lack of memory for a fraction.
pub fn push_claim<P: Pieces>(
    alloc: Global,
    text: &mut P,
    steps: u32,
    proof: &Proof,
) -> Result<(), Memory>
    ensures { OnOk result (P.pushes text.old (compact_text (claim_data steps proof.now)) text.new) }
{
    match proof {
        Proof::Plain => push_plain(text, steps),
        Proof::Link(link) => push_with_link(text, *link, steps),
        Proof::Rows(rows) => return push_with_rows(alloc, text, rows.as_slice(), steps),
    }
    Ok(())
}

fn push_plain<P: Pieces>(text: &mut P, steps: u32)
    ensures { P.pushes text.old (compact_text (claim_data steps said.Plain)) text.new }
{
    text.push_str(r#"{"steps":"#);
    push_number(text, u64::from(steps));
    text.push_str("}");
}

fn push_with_link<P: Pieces>(text: &mut P, link: u32, steps: u32)
    ensures { P.pushes text.old (compact_text (claim_data steps (said.Link link))) text.new }
{
    text.push_str(r#"{"link":"#);
    push_number(text, u64::from(link));
    text.push_str(r#","steps":"#);
    push_number(text, u64::from(steps));
    text.push_str("}");
}

fn push_with_rows<P: Pieces>(
    alloc: Global,
    text: &mut P,
    rows: &[Fraction],
    steps: u32,
) -> Result<(), Memory>
    ensures { OnOk result
        (P.pushes text.old (compact_text (claim_data steps (said.Rows rows.now))) text.new) }
{
    text.push_str(r#"{"rows":"#);
    push_fractions(alloc, text, rows)?;
    text.push_str(r#","steps":"#);
    push_number(text, u64::from(steps));
    text.push_str("}");
    Ok(())
}

fn push_fractions<P: Pieces>(
    alloc: Global,
    text: &mut P,
    fractions: &[Fraction],
) -> Result<(), Memory>
    ensures { OnOk result
        (P.pushes text.old (compact_text (list_data (map fraction_data fractions.now))) text.new) }
{
    text.push_str("[");
    for (number, fraction) in fractions.iter().enumerate() {
        push_comma(text, number);
        push_fraction(alloc, text, fraction)?;
    }
    text.push_str("]");
    Ok(())
}

/// Adds a fraction between quotes.
fn push_fraction<P: Pieces>(alloc: Global, text: &mut P, fraction: &Fraction) -> Result<(), Memory>
    ensures { OnOk result
        (P.pushes text.old (compact_text (fraction_data fraction.now)) text.new) }
{
    let piece = fraction_piece(alloc, fraction)?;
    let name = quoted(alloc, &piece)?;
    text.push_str(name.as_str());
    Ok(())
}

fn fraction_piece(alloc: Global, fraction: &Fraction) -> Result<String, Memory>
    ensures { IfOk result (λ s. string_bytes s ≡ fraction_text fraction.now) }
{
    let sign = sign_of(fraction.top());
    let top = fraction.top().unsigned_abs();
    let bottom = fraction.bottom() as u128;
    let piece = format!(in alloc; "{sign}{top}/{bottom}")?;
    Ok(piece)
}

fn sign_of(top: i128) -> &'static str
    ensures { result.now ≡ sign_text top }
{
    if top < 0 { "-" } else { "" }
}
