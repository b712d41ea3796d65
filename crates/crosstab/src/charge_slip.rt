// A slip with four charges, and a mark whether any is above 0.
ghost use Rattle.std.specs.Prelude.{◌≡◌, ◌||◌};
ghost use Rattle.crosstab.specs.Amounts.{AllFit, any_charge};

use crate::{Card, Charges};

/// Charges, with a mark that never disagrees with them.
#[derive(Clone, Copy, PartialEq, Eq, Debug)]
pub struct ChargeSlip {
    charges: Charges,
    // A mark that is part of a slip, and no tag that says whether there are charges.
    charged: bool,
    // Each charge has 64 bits.
    ghost fits: { AllFit charges.transmission charges.distribution charges.ancillary_service charges.dispatch },
    // The mark is set exactly where a charge is above 0.
    ghost right_mark: { charged ≡ any_charge charges },
}

impl ChargeSlip {
    /// The slip of these charges.
    // Callers have it by this name; `From<Charges>` says the same.
    pub fn of(charges: Charges) -> ChargeSlip
        ensures charges { result.charges ≡ charges }
        ensures mark { result.charged ≡ any_charge charges }
    {
        ChargeSlip {
            charges,
            charged: charges != Charges::default(),
        }
    }

    /// The charges of the slip.
    pub fn charges(&self) -> Charges
        ensures { result ≡ self.now.charges }
    {
        self.charges
    }

    /// Whether a charge is above 0.
    pub fn is_charged(&self) -> bool
        ensures mark { result ≡ self.now.charged }
        ensures above_zero { result ≡ any_charge self.now.charges }
    {
        self.charged
    }
}

impl From<Charges> for ChargeSlip {
    ghost from_gives = { λ charges slip. (slip.charges ≡ charges) × (slip.charged ≡ any_charge charges) };

    fn from(charges: Charges) -> ChargeSlip {
        ChargeSlip::of(charges)
    }
}

impl Card for ChargeSlip {
    ghost use Rattle.crosstab.specs.Kinds.{empty_slip, joined_slips};
    ghost use Rattle.crosstab.specs.SlipLaws.{slip_laws};

    ghost blank = { empty_slip };

    ghost joined = { joined_slips };

    ghost laws = { slip_laws };

    fn empty() -> ChargeSlip {
        ChargeSlip::of(Charges::default())
    }

    // Charge by charge; the mark is set if either is. One text with period cards, over arrays of four, would turn each card into an array and back.
    fn join(self, other: ChargeSlip) -> ChargeSlip
        ensures answer { result ≡ joined_slips self other }
        ensures either_mark { result.charged ≡ (self.charged || other.charged) }
    {
        let a = self.charges;
        let b = other.charges;
        ChargeSlip {
            charges: Charges {
                transmission: a.transmission.saturating_add(b.transmission),
                distribution: a.distribution.saturating_add(b.distribution),
                ancillary_service: a.ancillary_service.saturating_add(b.ancillary_service),
                dispatch: a.dispatch.saturating_add(b.dispatch),
            },
            charged: self.charged || other.charged,
        }
    }
}
