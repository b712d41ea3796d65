// The days and quarters of a billing period.
ghost use Rattle.std.specs.Prelude.{◌≡◌, ◌*◌, ◌≤◌, IfSome, OnOk};
ghost use Rattle.std.specs.Option.{option_map as changed};
ghost use Rattle.std.specs.Result.{result_map_both};
ghost use Rattle.refusals.specs.First.{first_met};
ghost use Rattle.tariff.specs.BillingPeriods.{reasons, terms_of, day_at, quarters_of, period_on, period_at};
ghost use Rattle.tariff.specs.Counts.{counted, together, by_hours};
ghost use Rattle.tariff.specs.Dates.{days_after};
ghost use Rattle.tariff.specs.Laws.{DaysFollow};
ghost use Rattle.tariff.specs.Weekdays.{weekday_of};

use super::BillingPeriod;
use crate::counts::QuartersByPeriod;
use crate::dates::Date;
use crate::hours::{Calendar, DayKind, Period, Season};
use crate::terms::{Day, Terms};
use crate::weekdays::Weekday;
use refusals::Refusal;

impl BillingPeriod {
    /// The billing period of these numbers. The map of off-peak days has bit 0 for the first day.
    // The calendar is its number of stages here, since a narrower type would ask more of callers.
    pub fn new(
        first: Date,
        days: u32,
        stages: u32,
        off_peak_map: u32,
    ) -> Result<BillingPeriod, Refusal>
        ensures answer { result_map_both (λ period. period.terms) (λ refusal. refusal) result ≡ first_met (reasons first days stages off_peak_map) (terms_of first days stages off_peak_map) }
        ensures days_follow { OnOk result (DaysFollow first) }
    {
        if !first.exists() || !(2020..=2099).contains(&first.year) || !(1..=31).contains(&days) {
            return Err(Refusal::NoSuchBillingPeriod);
        }
        let calendar = Calendar::try_from(stages)?;
        if off_peak_map >> days != 0 {
            return Err(Refusal::NoSuchBillingPeriod);
        }
        Ok(BillingPeriod {
            terms: Terms {
                first,
                days,
                calendar,
                off_peak_map,
            },
            first_weekday: first.weekday(),
        })
    }

    /// How many quarters the period has.
    pub fn quarters(&self) -> u32
        ensures is { result ≡ quarters_of self.now.terms }
        ensures few { result ≤ 31 * 96 }
    {
        96 * self.terms.days
    }

    /// A day by its number from 0, where the period has it.
    pub fn day(&self, number: u32) -> Option<Day>
        ensures { result ≡ day_at self.now.terms number }
    {
        if number >= self.terms.days {
            return None;
        }
        let date = self.terms.first.after(number);
        let weekday = self.weekday_of(number);
        Some(Day {
            date,
            weekday,
            season: Season::in_month(date.month),
            kind: DayKind::of(weekday, self.terms.is_named(number)),
        })
    }

    // The weekday of a day by its number from 0.
    fn weekday_of(&self, number: u32) -> Weekday
        ensures { result ≡ weekday_of (days_after number self.now.terms.first) }
    {
        self.first_weekday.after(number)
    }

    /// How many of a day's 96 quarters are in each tariff period, where the billing period has the day.
    pub fn quarters_by_period(&self, number: u32) -> Option<QuartersByPeriod>
        ensures counted { result ≡ changed (λ day. counted (period_on self.now.terms.calendar day) 96) (day_at self.now.terms number) }
        ensures all_quarters { IfSome result (λ n. together n ≡ 96) }
        ensures by_hours { result ≡ changed (λ day. by_hours self.now.terms.calendar day.season day.kind) (day_at self.now.terms number) }
    {
        let day = self.day(number)?;
        Some(self.terms.calendar.quarters_by_period(day))
    }

    /// The period of a quarter by its number from 0 throughout, where the billing period has it.
    pub fn period_of(&self, quarter: u32) -> Option<Period>
        ensures { result ≡ period_at self.now.terms quarter }
    {
        let day = self.day(quarter / 96)?;
        Some(self.terms.calendar.period_on(day, quarter % 96))
    }
}
