// How the quarters of a day fall into the periods.
ghost use Rattle.std.specs.Prelude.{◌≡◌, ◌<◌};
ghost use Rattle.tariff.specs.BillingPeriods.{period_on};
ghost use Rattle.tariff.specs.Counts.{one_more, counted, together, by_hours};

use crate::hours::{Calendar, Period};
use crate::terms::Day;

/// A number of quarters in each period.
#[derive(Clone, Copy, PartialEq, Eq, Debug, Default)]
pub struct QuartersByPeriod {
    pub peak: u32,
    pub half_peak: u32,
    pub saturday_half_peak: u32,
    pub off_peak: u32,
}

impl QuartersByPeriod {
    // Counts one quarter more in a period.
    fn add(&mut self, period: Period)
        requires { together self.old < 96 }
        ensures { self.new ≡ one_more period self.old }
    {
        match period {
            Period::Peak => self.peak += 1,
            Period::HalfPeak => self.half_peak += 1,
            Period::SaturdayHalfPeak => self.saturday_half_peak += 1,
            Period::OffPeak => self.off_peak += 1,
        }
    }
}

impl Calendar {
    // How many of a day's 96 quarters are in each period.
    #[tactic(auto, using(crate::proofs::Counting::counting))]
    pub(crate) fn quarters_by_period(self, day: Day) -> QuartersByPeriod
        ensures counted { result ≡ counted (period_on self day) 96 }
        ensures all_quarters { together result ≡ 96 }
        ensures by_hours { result ≡ by_hours self day.season day.kind }
    {
        let mut counts = QuartersByPeriod::default();
        // The quarters are numbers and no list, so a range is their plain form.
        for quarter in 0..96 {
            counts.add(self.period_on(day, quarter));
        }
        counts
    }
}
