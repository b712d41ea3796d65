// The left-over rule.
ghost use Rattle.std.specs.Prelude.{◌≡◌, ◌+◌, ◌-◌, ◌^◌, ◌<◌, length, is_ok, if◌then◌else◌, sum, OnOk, MatchOption, slice_index, slice_set};
ghost use Rattle.refusals.specs.First.{first_met, Decides};
ghost use Rattle.sharing.specs.Rule.{TheOne, reasons};
ghost use Rattle.sharing.specs.LeftOver.{whole_parts, remainders, foremost, hand_out, left_over, ByRemainders};
ghost use Rattle.sharing.specs.LeftOverLaws.{left_over_laws};

use crate::SharingRule;
use crate::division::{Division, MOST_WEIGHTS};
use refusals::Refusal;

/// Each share is the whole part of amount × weight / (all weights). The units left go one each to the largest
/// remainders, the earlier place first among equals.
#[derive(Clone, Copy, Debug)]
pub struct LeftOver;

impl SharingRule for LeftOver {
    ghost meaning = { λ _ amount weights. left_over amount weights };

    ghost tolerance = { λ _. 1 };

    ghost laws = { λ rule. left_over_laws };

    #[tactic(auto, using(crate::specs::LeftOverLaws::length_of_left_over))]
    fn split(&self, amount: u32, weights: &[u32], shares: &mut [u32]) -> Result<(), Refusal>
        ensures answer { result ≡ first_met (reasons amount weights.now (length shares.old)) tt }
        ensures first_reason { Decides (reasons amount weights.now (length shares.old)) result }
        ensures buffer { shares.new ≡ (if is_ok result then left_over amount weights.now else shares.old) }
        ensures by_remainders { OnOk result (TheOne (ByRemainders amount weights.now) (length weights.now) shares.new) }
    {
        let division = Division::new(amount, weights, shares.len())?;
        write_by_remainders(&division, shares);
        Ok(())
    }
}

// Writes the whole parts, with the units that they leave handed out.
fn write_by_remainders(division: &Division, shares: &mut [u32])
    requires { length shares.old ≡ length division.now.weights.now }
    ensures shares { shares.new ≡ left_over division.now.amount division.now.weights.now }
    ensures by_remainders { TheOne (ByRemainders division.now.amount division.now.weights.now)
        (length division.now.weights.now) shares.new }
{
    // Room for the most weights, since nothing here allocates.
    let mut room = [0; MOST_WEIGHTS];
    let rests = &mut room[..division.weights.len()];
    let left = write_whole_parts(division, shares, rests);
    hand_out(left, rests, shares);
}

// Writes the whole parts, keeps what remains of each product, and says how many units are left.
fn write_whole_parts(division: &Division, shares: &mut [u32], rests: &mut [u32]) -> u32
    requires shares { length shares.old ≡ length division.now.weights.now }
    requires rests { length rests.old ≡ length division.now.weights.now }
    ensures parts { shares.new ≡ whole_parts division.now.amount division.now.weights.now }
    ensures rests { rests.new ≡ remainders division.now.amount division.now.weights.now }
    ensures left { result + sum (whole_parts division.now.amount division.now.weights.now)
        ≡ division.now.amount }
{
    let mut left = division.amount;
    // By place, since nothing would be known of what a loop over a `zip` with `iter_mut` wrote.
    for (i, weight) in division.weights.iter().enumerate() {
        let portion = division.portion_of(*weight);
        shares[i] = portion.units;
        rests[i] = portion.remainder;
        left -= portion.units;
    }
    left
}

// Adds one unit each to the shares with the largest remainders, the earlier place first among equals.
#[tactic(auto, using(crate::proofs::HandOut::sum_of_one_more, crate::proofs::HandOut::hand_out_next))]
fn hand_out(left: u32, rests: &mut [u32], shares: &mut [u32])
    requires alike { length rests.old ≡ length shares.old }
    requires fits { sum shares.old + left < 2 ^ 32 }
    ensures { shares.new ≡ hand_out left rests.old shares.old }
{
    // The units are alike, so nothing is counted but how often.
    for _ in 0..left {
        add_unit_to_largest(rests, shares);
    }
}

// Adds a unit to the earliest of the shares with the largest remainder. Nothing then remains there.
#[tactic(auto, using(crate::proofs::HandOut::unit_steps))]
fn add_unit_to_largest(rests: &mut [u32], shares: &mut [u32])
    requires alike { length rests.old ≡ length shares.old }
    requires fits { sum shares.old + 1 < 2 ^ 32 }
    ensures shares { shares.new
        ≡ slice_set shares.old (foremost rests.old) (slice_index shares.old (foremost rests.old) + 1) }
    ensures rests { rests.new ≡ slice_set rests.old (foremost rests.old) 0 }
{
    if let Some(place) = place_of_largest(rests) {
        // The place is what was found.
        shares[place] += 1;
        rests[place] = 0;
    }
}

// The earliest place of the largest remainder.
#[tactic(auto, using(crate::proofs::Foremost::scan))]
fn place_of_largest(rests: &[u32]) -> Option<usize>
    ensures { MatchOption result (length rests.now ≡ 0)
        (λ place. (place ≡ foremost rests.now) × (place < length rests.now)) }
{
    if rests.is_empty() {
        return None;
    }
    // One pass, where `max` and then `position` would take two.
    let mut first = 0;
    let mut largest = 0;
    for (place, rest) in rests.iter().enumerate() {
        // Among equals the earlier place stays.
        if *rest > largest {
            first = place;
            largest = *rest;
        }
    }
    Some(first)
}
