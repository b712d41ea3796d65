// An amount to divide over weights, and the exact part of a weight.
ghost use Rattle.std.specs.Prelude.{◌≡◌, ◌*◌, ◌/◌, ◌%◌, ◌≤◌, length, sum, IfOk, OnOk};
ghost use Rattle.std.specs.Result.{result_map_both};
ghost use Rattle.refusals.specs.First.{first_met};
ghost use Rattle.sharing.specs.Rule.{Admitted, reasons};

use refusals::Refusal;

/// The most weights over which one call divides.
pub(crate) const MOST_WEIGHTS: usize = 16;

/// The largest amount, and the largest sum of weights.
const LARGEST: u32 = 4_000_000_000;

/// An amount and the weights over which it is divided, of a call that meets no reason to refuse it.
#[derive(Clone, Copy)]
pub(crate) struct Division<'a> {
    pub(crate) amount: u32,
    pub(crate) weights: &'a [u32],
    /// The sum of the weights.
    pub(crate) total: u32,
    ghost admitted: { Admitted amount weights.now (length weights.now) total },
}

/// What amount × weight / total comes to: whole units, and what remains of the product.
#[derive(Clone, Copy, Default)]
pub(crate) struct Portion {
    pub(crate) units: u32,
    pub(crate) remainder: u32,
}

// The sum of the weights, which are few enough that it fits.
fn sum_of(weights: &[u32]) -> u64
    requires { length weights.now ≤ MOST_WEIGHTS }
    ensures { result ≡ sum weights.now }
{
    weights.iter().map(|weight| u64::from(*weight)).sum()
}

impl<'a> Division<'a> {
    /// The division, or why the call is refused.
    pub(crate) fn new(amount: u32, weights: &'a [u32], places: usize) -> Result<Self, Refusal>
        ensures answer { result_map_both (λ division. division.total) (λ refusal. refusal) result
            ≡ first_met (reasons amount weights.now places) (sum weights.now) }
        ensures places { OnOk result (length weights.now ≡ places) }
        ensures amount { IfOk result (λ division. division.amount ≡ amount) }
        ensures weights { IfOk result (λ division. division.weights.now ≡ weights.now) }
    {
        if weights.len() != places || weights.len() > MOST_WEIGHTS {
            return Err(Refusal::UnlikeLengths);
        }
        let total = sum_of(weights);
        if amount > LARGEST || total > u64::from(LARGEST) {
            return Err(Refusal::AmountTooLarge);
        }
        if total == 0 && amount != 0 {
            return Err(Refusal::NoWeight);
        }
        Ok(Division {
            amount,
            weights,
            total: total as u32,
        })
    }

    // In 64 bits, where the product of two amounts always fits.
    fn product(&self, weight: u32) -> u64
        ensures { result ≡ self.now.amount * weight }
    {
        u64::from(self.amount) * u64::from(weight)
    }

    /// The exact part of a weight. Without any weight, nothing is shared and nothing remains.
    pub(crate) fn portion_of(&self, weight: u32) -> Portion
        requires { weight ≤ self.now.total }
        ensures units { result.units ≡ self.now.amount * weight / self.now.total }
        ensures remainder { result.remainder ≡ self.now.amount * weight % self.now.total }
    {
        if self.total == 0 {
            return Portion::default();
        }
        let product = self.product(weight);
        let total = u64::from(self.total);
        Portion {
            units: (product / total) as u32,
            remainder: (product % total) as u32,
        }
    }
}
