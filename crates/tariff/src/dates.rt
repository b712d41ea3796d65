// Dates of the Gregorian calendar.
ghost use Rattle.std.specs.Prelude.{◌≡◌, ◌+◌, ◌<◌, ◌≤◌};
ghost use Rattle.tariff.specs.Dates.{leap, days_in_month, days_in_year, exists, day_after, days_after};

/// A date as it is written. It may be one that does not exist.
#[derive(Clone, Copy, PartialEq, Eq, Debug)]
pub struct Date {
    pub year: u32,
    pub month: u32,
    pub day: u32,
}

// Whether February has 29 days.
fn is_leap(year: u32) -> bool
    ensures { result ≡ leap year }
{
    year % 4 == 0 && (year % 100 != 0 || year % 400 == 0)
}

pub(crate) fn days_in_month(year: u32, month: u32) -> u32
    ensures { result ≡ days_in_month year month }
{
    match month {
        2 if is_leap(year) => 29,
        2 => 28,
        4 | 6 | 9 | 11 => 30,
        _ => 31,
    }
}

pub(crate) fn days_in_year(year: u32) -> u32
    ensures { result ≡ days_in_year year }
{
    if is_leap(year) { 366 } else { 365 }
}

impl Date {
    // Whether the month is one of twelve and has the day.
    pub(crate) fn exists(self) -> bool
        ensures { result ≡ exists self }
    {
        (1..=12).contains(&self.month)
            && (1..=days_in_month(self.year, self.month)).contains(&self.day)
    }

    // The date a day later.
    pub(crate) fn next(self) -> Date
        requires { self.year < 4000 }
        ensures { result ≡ day_after self }
    {
        if self.day < days_in_month(self.year, self.month) {
            Date {
                day: self.day + 1,
                ..self
            }
        } else if self.month < 12 {
            Date {
                month: self.month + 1,
                day: 1,
                ..self
            }
        } else {
            Date {
                year: self.year + 1,
                month: 1,
                day: 1,
            }
        }
    }

    // The date so many days later.
    pub(crate) fn after(self, days: u32) -> Date
        requires { self.year + days ≤ 4000 }
        ensures { result ≡ days_after days self }
    {
        (0..days).fold(self, |date, _| date.next())
    }
}
