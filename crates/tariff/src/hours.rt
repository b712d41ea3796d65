// The tariff's hours: which period an hour of a day is in.
ghost use Rattle.std.specs.Prelude.{◌≡◌, ◌<◌};
ghost use Rattle.tariff.specs.BillingPeriods.{period_on};
ghost use Rattle.tariff.specs.Hours.{calendar_with, season_in, kind_of, in_two_stages, in_three_stages, number_of};

use crate::terms::Day;
use crate::weekdays::Weekday;
use refusals::Refusal;

/// A tariff's calendar of hours.
#[derive(Clone, Copy, PartialEq, Eq, Debug)]
pub enum Calendar {
    TwoStage,
    ThreeStage,
}

/// Summer is 1 June to 30 September.
#[derive(Clone, Copy, PartialEq, Eq, Debug)]
pub enum Season {
    Summer,
    NonSummer,
}

/// What a day counts as in the tariff.
#[derive(Clone, Copy, PartialEq, Eq, Debug)]
pub enum DayKind {
    /// Monday to Friday.
    WorkingDay,
    HalfPeakSaturday,
    /// A Sunday, or a day of any weekday that is named as off-peak.
    OffPeakDay,
}

/// A tariff period, with its number.
#[derive(Clone, Copy, PartialEq, Eq, Debug)]
pub enum Period {
    Peak = 0,
    HalfPeak = 1,
    SaturdayHalfPeak = 2,
    OffPeak = 3,
}

impl Season {
    // The season of a month, 1 to 12.
    pub(crate) fn in_month(month: u32) -> Season
        ensures { result ≡ season_in month }
    {
        match month {
            6..=9 => Season::Summer,
            _ => Season::NonSummer,
        }
    }
}

impl DayKind {
    // What a day of the weekday counts as, where `named` says whether it is named as off-peak. It takes two values, so it is no `From`.
    pub(crate) fn of(weekday: Weekday, named: bool) -> DayKind
        ensures { result ≡ kind_of weekday named }
    {
        match weekday {
            _ if named => DayKind::OffPeakDay,
            Weekday::Saturday => DayKind::HalfPeakSaturday,
            Weekday::Sunday => DayKind::OffPeakDay,
            _ => DayKind::WorkingDay,
        }
    }
}

impl Period {
    /// The number of the period, from 0.
    pub fn number(self) -> usize
        ensures is { result ≡ number_of self }
        ensures one_of_four { result < 4 }
    {
        self as usize
    }
}

/// The calendar with so many stages.
impl TryFrom<u32> for Calendar {
    type Error = Refusal;

    ghost try_from_gives = { λ stages found. found ≡ calendar_with stages };

    fn try_from(stages: u32) -> Result<Calendar, Refusal> {
        match stages {
            2 => Ok(Calendar::TwoStage),
            3 => Ok(Calendar::ThreeStage),
            _ => Err(Refusal::NoSuchBillingPeriod),
        }
    }
}

impl Calendar {
    // The period of a quarter of a day, the quarters numbered from 0 in the day.
    pub(crate) fn period_on(self, day: Day, quarter: u32) -> Period
        ensures { result ≡ period_on self day quarter }
    {
        let hour = quarter / 4;
        match (day.kind, self) {
            (DayKind::WorkingDay, Calendar::TwoStage) => {
                in_two_stages(day.season, hour, Period::Peak)
            }
            (DayKind::WorkingDay, Calendar::ThreeStage) => in_three_stages(day.season, hour),
            (DayKind::HalfPeakSaturday, _) => {
                in_two_stages(day.season, hour, Period::SaturdayHalfPeak)
            }
            (DayKind::OffPeakDay, _) => Period::OffPeak,
        }
    }
}

// `high` in the hours that are peak on a working day of the two-stage calendar, and off-peak in the others.
// The hours are tested by `contains`: as patterns of ranges they took three times the instructions.
fn in_two_stages(season: Season, hour: u32, high: Period) -> Period
    ensures { result ≡ in_two_stages season hour high }
{
    match season {
        Season::Summer if (9..24).contains(&hour) => high,
        Season::NonSummer if (6..11).contains(&hour) || (14..24).contains(&hour) => high,
        _ => Period::OffPeak,
    }
}

fn in_three_stages(season: Season, hour: u32) -> Period
    ensures { result ≡ in_three_stages season hour }
{
    match season {
        Season::Summer if (16..22).contains(&hour) => Period::Peak,
        Season::Summer if (9..16).contains(&hour) || (22..24).contains(&hour) => Period::HalfPeak,
        Season::NonSummer if (6..11).contains(&hour) || (14..24).contains(&hour) => {
            Period::HalfPeak
        }
        _ => Period::OffPeak,
    }
}
