// Weekdays, counted from the first day of 2020.
ghost use Rattle.std.specs.Prelude.{◌≡◌, ◌≤◌, true, Some};
ghost use Rattle.tariff.specs.Dates.{exists};
ghost use Rattle.tariff.specs.Weekdays.{name_of, weekday_after, weekdays_after, days_since_2020, weekday_of};

use crate::dates::{Date, days_in_month, days_in_year};
use std::fmt;

/// A day of the week.
#[derive(Clone, Copy, PartialEq, Eq, Debug)]
pub enum Weekday {
    Monday,
    Tuesday,
    Wednesday,
    Thursday,
    Friday,
    Saturday,
    Sunday,
}

impl fmt::Display for Weekday {
    ghost output = { λ weekday. Some (name_of weekday) };

    fn fmt<W: fmt::Write>(&self, f: &mut fmt::Formatter<W>) -> fmt::Result {
        f.write_str(match self {
            Weekday::Monday => "Monday",
            Weekday::Tuesday => "Tuesday",
            Weekday::Wednesday => "Wednesday",
            Weekday::Thursday => "Thursday",
            Weekday::Friday => "Friday",
            Weekday::Saturday => "Saturday",
            Weekday::Sunday => "Sunday",
        })
    }
}

impl Weekday {
    // The weekday of the next day.
    pub(crate) fn next(self) -> Weekday
        ensures { result ≡ weekday_after self }
    {
        match self {
            Weekday::Monday => Weekday::Tuesday,
            Weekday::Tuesday => Weekday::Wednesday,
            Weekday::Wednesday => Weekday::Thursday,
            Weekday::Thursday => Weekday::Friday,
            Weekday::Friday => Weekday::Saturday,
            Weekday::Saturday => Weekday::Sunday,
            Weekday::Sunday => Weekday::Monday,
        }
    }

    // The weekday so many days later.
    pub(crate) fn after(self, days: u32) -> Weekday
        ensures { result ≡ weekdays_after days self }
    {
        (0..days % 7).fold(self, |weekday, _| weekday.next())
    }
}

impl Date {
    // How many days the date lies after 1 January 2020.
    fn days_since_2020(self) -> u32
        requires from_2020 { 2020 ≤ self.year }
        requires to_2099 { self.year ≤ 2099 }
        requires exists { exists self ≡ true }
        ensures { result ≡ days_since_2020 self }
    {
        let years: u32 = (2020..self.year).map(days_in_year).sum();
        let months: u32 = (1..self.month)
            .map(|month| days_in_month(self.year, month))
            .sum();
        years + months + (self.day - 1)
    }

    // The weekday of a date; the first day of 2020 was a Wednesday.
    pub(crate) fn weekday(self) -> Weekday
        requires from_2020 { 2020 ≤ self.year }
        requires to_2099 { self.year ≤ 2099 }
        requires exists { exists self ≡ true }
        ensures { result ≡ weekday_of self }
    {
        Weekday::Wednesday.after(self.days_since_2020())
    }
}
