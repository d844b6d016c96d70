ghost use Rattle.std.specs.Prelude.{◌≡◌, ◌+◌, ◌<◌, ◌≤◌, length, OnOk};
ghost use Rattle.serde_json.specs.Events.{items_len};
ghost use Rattle.json_data.specs.View.{view, items_view};
ghost use Rattle.problem_json.specs.GrammarResults.{Reads, Leaves, add_each};
ghost use Rattle.problem_json.specs.GrammarLeast.{most_multipliers, fraction_in, with_one_fraction, fractions_in, rows_proof, proof_of, claim_in, claim_of, claimed_of, claimed_in};

use super::read_data;
use crate::claim::{Claim, Claimed};
use crate::fault::InputFault;
use crate::key::Key;
use crate::place::{Part, Place};
use crate::read::documents::document_of;
use crate::read::values::{elements_of, number, number_of, text_of};
use crate::spelling::fraction_of_text;
use fraction_lp::{Fraction, FractionList, Proof};
use json_data::{Element, Elements, Scratch};
use std::alloc::Global;

/// How many multipliers a document may have.
const MOST_MULTIPLIERS: usize = 10_000;

/// Reads a document, and what it says of fewer rate steps at the key `least` of the same object: `steps`, and
/// perhaps `link`, or else `rows`, fractions each in its one shortest spelling. Without the key it says
/// nothing. Whether it shows what it says is not asked here.
///
/// # Errors
///
/// Those of [`read_problem`](crate::read_problem), at the first refused place of the document or after it at
/// that key, and [`InputFault::BadProof`] where a text is no fraction.
#[tactic(auto, using(crate::proofs::Steps::steps), unfolding(crate::specs::GrammarLeast::claimed_in))]
pub fn read_claimed(alloc: Global, bytes: &[u8]) -> Result<Claimed, InputFault>
    ensures { Reads result (claimed_in bytes.now) }
{
    let mut scratch = Scratch::new(alloc);
    let data = read_data(alloc, bytes, &mut scratch)?;
    claimed_of(alloc, &data.root())
}

#[tactic(auto, using(crate::proofs::Steps::steps), unfolding(crate::specs::GrammarLeast::claimed_of))]
fn claimed_of(alloc: Global, value: &Element<'_, '_>) -> Result<Claimed, InputFault>
    ensures { Reads result (claimed_of (view value.now)) }
{
    let document = document_of(alloc, value)?;
    match claim_of(alloc, value) {
        Ok(claim) => Ok(Claimed { document, claim }),
        Err(fault) => {
            drop(document);
            Err(fault)
        }
    }
}

/// What the object of a document says of fewer rate steps.
#[tactic(auto, using(crate::proofs::Steps::steps), unfolding(crate::specs::GrammarLeast::claim_of, crate::specs::GrammarLeast::claim_or_none))]
fn claim_of(alloc: Global, value: &Element<'_, '_>) -> Result<Option<Claim>, InputFault>
    ensures { Reads result (claim_of (view value.now)) }
{
    let Some(claim) = value.get(Key::Least.as_str()) else {
        return Ok(None);
    };
    Ok(Some(claim_in(alloc, &claim)?))
}

#[tactic(auto, using(crate::proofs::Steps::steps), unfolding(crate::specs::GrammarLeast::claim_in))]
fn claim_in(alloc: Global, value: &Element<'_, '_>) -> Result<Claim, InputFault>
    ensures { Reads result (claim_in (view value.now)) }
{
    let object = Place::of(Part::LeastTop);
    let place = Place::of(Part::LeastSteps);
    let steps = number_of(object, Key::Steps, place, u64::from(u32::MAX), value)?;
    let proof = proof_of(alloc, value)?;
    Ok(Claim {
        steps: steps as u32,
        proof,
    })
}

/// A link, where it is there, else multipliers, else nothing.
#[tactic(auto, using(crate::proofs::Steps::steps), unfolding(crate::specs::GrammarLeast::proof_of, crate::specs::GrammarLeast::link_or_rows))]
fn proof_of(alloc: Global, value: &Element<'_, '_>) -> Result<Proof, InputFault>
    ensures { Reads result (proof_of (view value.now)) }
{
    let Some(link) = value.get(Key::Link.as_str()) else {
        return rows_proof(alloc, value);
    };
    let link = number(Place::of(Part::LeastLink), u64::from(u32::MAX), &link)?;
    Ok(Proof::Link(link as u32))
}

#[tactic(auto, using(crate::proofs::Steps::steps), unfolding(crate::specs::GrammarLeast::rows_proof, crate::specs::GrammarLeast::rows_or_plain))]
fn rows_proof(alloc: Global, value: &Element<'_, '_>) -> Result<Proof, InputFault>
    ensures { Reads result (rows_proof (view value.now)) }
{
    let Some(rows) = value.get(Key::Rows.as_str()) else {
        return Ok(Proof::Plain);
    };
    Ok(Proof::Rows(fractions_in(alloc, &rows)?))
}

/// The fractions in a list.
#[tactic(auto, using(crate::proofs::Steps::steps), unfolding(crate::specs::GrammarLeast::fractions_in))]
fn fractions_in(alloc: Global, value: &Element<'_, '_>) -> Result<FractionList, InputFault>
    ensures { Reads result (fractions_in (view value.now)) }
{
    let elements = elements_of(Place::of(Part::LeastRows), MOST_MULTIPLIERS, value)?;
    let mut fractions = FractionList::new(alloc);
    add_fractions(&mut fractions, elements)?;
    Ok(fractions)
}

#[tactic(auto, using(crate::proofs::Steps::steps))]
fn add_fractions(fractions: &mut FractionList, elements: Elements<'_, '_>) -> Result<(), InputFault>
    requires { length fractions.old + items_len (items_view elements) ≤ most_multipliers }
    ensures { Leaves result fractions.new
        (add_each with_one_fraction (items_view elements.entry) fractions.old) }
{
    let mut left = elements;
    'each: while let Some(element) = left.next() {
        add_fraction(fractions, &element)?;
    }
    Ok(())
}

#[tactic(auto, using(crate::proofs::Steps::steps), unfolding(crate::specs::GrammarLeast::with_one_fraction))]
fn add_fraction(fractions: &mut FractionList, value: &Element<'_, '_>) -> Result<(), InputFault>
    requires { length fractions.old < most_multipliers }
    ensures added { Leaves result fractions.new (with_one_fraction (view value.now) fractions.old) }
    ensures longer { OnOk result (length fractions.new ≡ length fractions.old + 1) }
{
    let place = Place::at(Part::LeastRow, fractions.as_slice().len() as u32);
    let fraction = fraction_in(place, value)?;
    fractions.push(fraction)?;
    Ok(())
}

/// The fraction that a text is.
#[tactic(auto, using(crate::proofs::Steps::steps), unfolding(crate::specs::GrammarLeast::fraction_in))]
fn fraction_in(place: Place, value: &Element<'_, '_>) -> Result<Fraction, InputFault>
    ensures { Reads result (fraction_in place (view value.now)) }
{
    let text = text_of(place, value)?;
    fraction_of_text(text).ok_or(InputFault::BadProof(place))
}
