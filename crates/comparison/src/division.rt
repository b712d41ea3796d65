// What both rules give for an amount and its weights.
ghost use Rattle.std.specs.Prelude.{◌≡◌, length, IfOk, Some, vec_items};
ghost use Rattle.refusals.specs.First.{first_met};
ghost use Rattle.sharing.specs.Rule.{reasons};
ghost use Rattle.comparison.specs.Report.{MadeAs, word_of, place_text, places_of, division_of, division_text};

use crate::error::LineError;
use refusals::Refusal;
use sharing::{LeftOver, RunningTotal, SharingRule};
use std::alloc::{AllocError, Global};
use std::fmt;

/// What each rule gives a place.
#[derive(Clone, Copy)]
pub(crate) struct Place {
    number: usize,
    weight: u32,
    running: u32,
    left_over: u32,
}

impl Place {
    // Whether the rules give the place the same. A function of its own, so that an edit can turn the comparison alone.
    fn word(&self) -> &'static str
        ensures { result.now ≡ word_of self.now.running self.now.left_over }
    {
        if self.running == self.left_over {
            "same"
        } else {
            "differ"
        }
    }
}

impl fmt::Display for Place {
    ghost output = { λ place. Some (place_text place) };

    fn fmt<W: fmt::Write>(&self, f: &mut fmt::Formatter<W>) -> fmt::Result {
        let Place {
            number,
            weight,
            running,
            left_over,
        } = *self;
        let word = self.word();
        write!(
            f,
            "place {number} weight {weight} running-total {running} left-over {left_over} {word}"
        )
    }
}

/// What each rule gives for an amount, place by place.
#[derive(Drop)]
pub(crate) struct Division {
    amount: u32,
    places: Vec<Place>,
}

impl Division {
    /// The division of an amount over weights by both rules, or why they refuse it.
    pub(crate) fn of(heap: Global, amount: u32, weights: &[u32]) -> Result<Division, LineError>
        ensures { MadeAs (λ division. (division.amount, division.places.items)) result (division_of amount weights.now) }
    {
        let running = shares_by(heap, &RunningTotal, amount, weights)?;
        let left_over = shares_by(heap, &LeftOver, amount, weights)?;
        let places = places(heap, weights, running.as_slice(), left_over.as_slice())?;
        Ok(Division { amount, places })
    }
}

impl fmt::Display for Division {
    ghost output = { λ division. Some (division_text (division.amount, division.places.items)) };

    fn fmt<W: fmt::Write>(&self, f: &mut fmt::Formatter<W>) -> fmt::Result {
        let amount = self.amount;
        write!(f, "amount {amount}\n")?;
        for place in &self.places {
            write!(f, "{place}\n")?;
        }
        Ok(())
    }
}

// The shares by a rule, or why it refuses.
fn shares_by<R: SharingRule>(
    heap: Global,
    rule: &R,
    amount: u32,
    weights: &[u32],
) -> Result<Vec<u32>, LineError>
    ensures { MadeAs vec_items result (first_met (reasons amount weights.now (length weights.now)) (R.meaning rule.now amount weights.now)) }
{
    let mut shares = vec![in heap; 0; weights.len()]?;
    rule.split(amount, weights, shares.as_mut_slice())?;
    Ok(shares)
}

// The places of a division, with what each rule gives them.
fn places(
    heap: Global,
    weights: &[u32],
    running: &[u32],
    left_over: &[u32],
) -> Result<Vec<Place>, AllocError>
    ensures { IfOk result (λ places. places.items ≡ places_of weights.now running.now left_over.now) }
{
    weights
        .iter()
        .zip(running)
        .zip(left_over)
        .enumerate()
        .map(|(number, ((weight, running), left_over))| Place {
            number,
            weight: *weight,
            running: *running,
            left_over: *left_over,
        })
        .collect(heap)
}
