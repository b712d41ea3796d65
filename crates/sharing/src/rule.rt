// What a sharing rule is, and the division by any rule.
ghost use Rattle.std.specs.Prelude.{◌≡◌, ℕ, List, length, is_ok, if◌then◌else◌, sum, IfOk};
ghost use Rattle.refusals.specs.First.{first_met, Decides};
ghost use Rattle.sharing.specs.Rule.{Laws, NearExact, reasons};

use refusals::Refusal;

/// A way to share an amount over a list of weights in whole units.
pub trait SharingRule {
    // The list of shares for each amount and each list of weights.
    ghost meaning: { Self → ℕ → List ℕ → List ℕ };

    // A share lies less than so many units from its exact part.
    ghost tolerance: { Self → ℕ };

    /// Writes the shares of `amount` over `weights` to `shares`, which stay as they are under a refusal.
    // Each rule writes out the check and the write: its `split` promises what no other rule does, which a body for all could not say.
    fn split(&self, amount: u32, weights: &[u32], shares: &mut [u32]) -> Result<(), Refusal>
        ensures answer { result ≡ first_met (reasons amount weights.now (length shares.old)) tt }
        ensures first_reason { Decides (reasons amount weights.now (length shares.old)) result }
        ensures buffer { shares.new ≡ (if is_ok result then meaning self.now amount weights.now else shares.old) };

    // What each rule must prove.
    ghost laws: { (rule : Self) → Laws (meaning rule) (tolerance rule) };
}

/// The shares of `amount` over any number of weights. They add up to the amount.
pub fn divide<R: SharingRule, const N: usize>(
    rule: &R,
    amount: u32,
    weights: &[u32; N],
) -> Result<[u32; N], Refusal>
    ensures answer { result ≡ first_met (reasons amount weights.now N) (R.meaning rule.now amount weights.now) }
    ensures nothing_lost { IfOk result (λ shares. sum shares ≡ amount) }
    ensures near_exact { IfOk result (NearExact (R.tolerance rule.now) amount weights.now) }
    ensures first_reason { Decides (reasons amount weights.now N) result }
{
    array_of_shares(rule, amount, weights)
}

// The shares in an array of their own.
fn array_of_shares<R: SharingRule, const N: usize>(
    rule: &R,
    amount: u32,
    weights: &[u32; N],
) -> Result<[u32; N], Refusal>
    ensures { result ≡ first_met (reasons amount weights.now N) (R.meaning rule.now amount weights.now) }
{
    // A rule writes to a buffer that it is lent, so there is one first.
    let mut shares = [0; N];
    rule.split(amount, weights, &mut shares)?;
    Ok(shares)
}
