// Tariff periods, run.
use refusals::Refusal;
use std::test::Fail;
use tariff::{BillingPeriod, Date, Day, Period, QuartersByPeriod, Weekday};

// First day, days from it to a day, that day's date and weekday.
const DAYS: [([u32; 3], u32, [u32; 3], Weekday); 7] = [
    ([2020, 1, 1], 0, [2020, 1, 1], Weekday::Wednesday),
    ([2024, 2, 28], 1, [2024, 2, 29], Weekday::Thursday),
    ([2024, 2, 28], 2, [2024, 3, 1], Weekday::Friday),
    ([2023, 2, 28], 1, [2023, 3, 1], Weekday::Wednesday),
    ([2023, 1, 31], 30, [2023, 3, 2], Weekday::Thursday),
    ([2099, 12, 31], 0, [2099, 12, 31], Weekday::Thursday),
    ([2099, 12, 31], 30, [2100, 1, 30], Weekday::Saturday),
];

// Date, stages, quarter of the day, period.
const QUARTERS: [(u32, u32, u32, u32, u32, Period); 14] = [
    (2024, 6, 3, 3, 63, Period::HalfPeak),
    (2024, 6, 3, 3, 64, Period::Peak),
    (2024, 6, 3, 3, 87, Period::Peak),
    (2024, 6, 3, 3, 88, Period::HalfPeak),
    (2024, 9, 30, 3, 64, Period::Peak),
    (2024, 10, 1, 3, 64, Period::HalfPeak),
    (2024, 6, 3, 2, 35, Period::OffPeak),
    (2024, 6, 3, 2, 36, Period::Peak),
    (2024, 12, 2, 2, 43, Period::Peak),
    (2024, 12, 2, 2, 44, Period::OffPeak),
    (2024, 12, 2, 2, 56, Period::Peak),
    (2024, 6, 8, 2, 95, Period::SaturdayHalfPeak),
    (2024, 6, 8, 3, 35, Period::OffPeak),
    (2024, 6, 9, 3, 64, Period::OffPeak),
];

fn date(numbers: [u32; 3]) -> Date {
    Date {
        year: numbers[0],
        month: numbers[1],
        day: numbers[2],
    }
}

fn day_after(first: Date, days: u32) -> Option<Day> {
    BillingPeriod::new(first, 31, 2, 0).ok()?.day(days)
}

fn period_in(date: Date, stages: u32, quarter: u32) -> Option<Period> {
    BillingPeriod::new(date, 1, stages, 0)
        .ok()?
        .period_of(quarter)
}

#[test]
fn days_have_their_dates_and_weekdays(rt: HostRuntime) -> Result<(), Fail> {
    for (first, days, then, weekday) in DAYS {
        let Some(day) = day_after(date(first), days) else {
            assert!(rt; false);
            return Ok(());
        };
        assert_eq!(rt; day.date, date(then));
        assert_eq!(rt; day.weekday, weekday);
    }
    Ok(())
}

#[test]
fn quarters_have_the_worked_periods(rt: HostRuntime) {
    for (year, month, day, stages, quarter, period) in QUARTERS {
        assert_eq!(rt;
            period_in(Date { year, month, day }, stages, quarter),
            Some(period)
        );
    }
    assert_eq!(rt;
        period_in(
            Date {
                year: 2024,
                month: 6,
                day: 3,
            },
            3,
            96,
        ),
        None
    );
}

// A Sunday, then a Monday that is named as off-peak, then a Tuesday.
#[test]
fn a_named_day_is_off_peak(rt: HostRuntime) -> Result<(), Fail> {
    let first = Date {
        year: 2024,
        month: 6,
        day: 9,
    };
    let Ok(period) = BillingPeriod::new(first, 3, 3, 2) else {
        assert!(rt; false);
        return Ok(());
    };
    assert_eq!(rt; period.quarters(), 288);
    assert_eq!(rt; period.period_of(160), Some(Period::OffPeak));
    assert_eq!(rt; period.period_of(256), Some(Period::Peak));
    let tuesday = QuartersByPeriod {
        peak: 24,
        half_peak: 36,
        saturday_half_peak: 0,
        off_peak: 36,
    };
    assert_eq!(rt; period.quarters_by_period(2), Some(tuesday));
    assert_eq!(rt; period.quarters_by_period(3), None);
    Ok(())
}

// Year, month, day, days, stages, map.
const NO_PERIODS: [(u32, u32, u32, u32, u32, u32); 11] = [
    (2019, 12, 31, 1, 2, 0),
    (2100, 1, 1, 1, 2, 0),
    (2023, 2, 29, 1, 2, 0),
    (2024, 6, 31, 1, 2, 0),
    (2024, 13, 1, 1, 2, 0),
    (2024, 0, 1, 1, 2, 0),
    (2024, 6, 0, 1, 2, 0),
    (2024, 6, 3, 0, 2, 0),
    (2024, 6, 3, 32, 2, 0),
    (2024, 6, 3, 1, 4, 0),
    (2024, 6, 3, 1, 2, 2),
];

#[test]
fn what_is_no_billing_period_is_refused(rt: HostRuntime) {
    for (year, month, day, days, stages, map) in NO_PERIODS {
        let answer = BillingPeriod::new(Date { year, month, day }, days, stages, map).err();
        assert_eq!(rt; answer, Some(Refusal::NoSuchBillingPeriod));
    }
}
