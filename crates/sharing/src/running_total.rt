// The running-total rule.
ghost use Rattle.std.specs.Prelude.{◌≡◌, ◌*◌, ◌/◌, ◌≤◌, length, is_ok, if◌then◌else◌, OnOk};
ghost use Rattle.refusals.specs.First.{first_met, Decides};
ghost use Rattle.sharing.specs.Rule.{TheOne, reasons};
ghost use Rattle.sharing.specs.RunningTotal.{running, ByRunningTotals};
ghost use Rattle.sharing.specs.RunningLaws.{running_laws};

use crate::SharingRule;
use crate::division::Division;
use refusals::Refusal;

/// Share `j` is the whole part of amount × (weights up to `j`) / (all weights), less the same for the places before `j`.
#[derive(Clone, Copy, Debug)]
pub struct RunningTotal;

impl SharingRule for RunningTotal {
    ghost meaning = { λ _ amount weights. running amount weights };

    ghost tolerance = { λ _. 1 };

    ghost laws = { λ rule. running_laws };

    #[tactic(auto, using(crate::specs::RunningLaws::length_of_running))]
    fn split(&self, amount: u32, weights: &[u32], shares: &mut [u32]) -> Result<(), Refusal>
        ensures answer { result ≡ first_met (reasons amount weights.now (length shares.old)) tt }
        ensures first_reason { Decides (reasons amount weights.now (length shares.old)) result }
        ensures buffer { shares.new ≡ (if is_ok result then running amount weights.now else shares.old) }
        ensures by_running_totals { OnOk result (TheOne (ByRunningTotals amount weights.now) (length weights.now) shares.new) }
    {
        let division = Division::new(amount, weights, shares.len())?;
        write_running_totals(&division, shares);
        Ok(())
    }
}

// Writes by how much each place raises what the places up to it have together.
fn write_running_totals(division: &Division, shares: &mut [u32])
    requires { length shares.old ≡ length division.now.weights.now }
    ensures shares { shares.new ≡ running division.now.amount division.now.weights.now }
    ensures by_running_totals { TheOne (ByRunningTotals division.now.amount division.now.weights.now)
        (length division.now.weights.now) shares.new }
{
    let mut reached = 0;
    let mut given = 0;
    // By place, since nothing would be known of what a loop over a `zip` with `iter_mut` wrote.
    for (i, weight) in division.weights.iter().enumerate() {
        reached += *weight;
        let together = units_together(division, reached);
        shares[i] = together - given;
        given = together;
    }
}

// What places have together whose weights come to `reached`.
fn units_together(division: &Division, reached: u32) -> u32
    requires { reached ≤ division.now.total }
    ensures { result ≡ division.now.amount * reached / division.now.total }
{
    division.portion_of(reached).units
}
