// A card with an amount for each tariff period.
ghost use Rattle.crosstab.specs.Amounts.{AllFit};

use crate::Card;

/// An amount for each tariff period.
// A type of its own beside the tariff's counts of quarters: those have no ghost field, are joined by no law, and no table needs a tariff.
#[derive(Clone, Copy, PartialEq, Eq, Debug)]
pub struct PeriodCard {
    pub peak: u64,
    pub half_peak: u64,
    pub saturday_half_peak: u64,
    pub off_peak: u64,
    // Each amount has 64 bits.
    ghost fits: { AllFit peak half_peak saturday_half_peak off_peak },
}

impl Card for PeriodCard {
    ghost use Rattle.crosstab.specs.Kinds.{empty_periods, joined_periods};
    ghost use Rattle.crosstab.specs.PeriodLaws.{period_laws};

    ghost blank = { empty_periods };

    ghost joined = { joined_periods };

    ghost laws = { period_laws };

    fn empty() -> PeriodCard {
        PeriodCard {
            peak: 0,
            half_peak: 0,
            saturday_half_peak: 0,
            off_peak: 0,
        }
    }

    // Period by period.
    fn join(self, other: PeriodCard) -> PeriodCard {
        PeriodCard {
            peak: self.peak.saturating_add(other.peak),
            half_peak: self.half_peak.saturating_add(other.half_peak),
            saturday_half_peak: self
                .saturday_half_peak
                .saturating_add(other.saturday_half_peak),
            off_peak: self.off_peak.saturating_add(other.off_peak),
        }
    }
}
