// The hours of a day, a letter each.
ghost use Rattle.std.specs.Prelude.{◌≡◌, ◌+◌, ◌*◌, ◌<◌, Some};
ghost use Rattle.tariff.specs.BillingPeriods.{period_at};
ghost use Rattle.day_list.specs.Listing.{letter_of, letter_at, hours_text};

use std::fmt;
use tariff::{BillingPeriod, Period};

// The letters are the list's own, so the tariff's `Display` is not the place for them.
fn letter_of(period: Period) -> &'static str
    ensures { result.now ≡ letter_of period }
{
    match period {
        Period::Peak => "P",
        Period::HalfPeak => "H",
        Period::SaturdayHalfPeak => "S",
        Period::OffPeak => "-",
    }
}

// The letter of a quarter's period, where the billing period has the quarter.
#[derive(Clone, Copy)]
struct Letter(Option<Period>);

impl fmt::Display for Letter {
    ghost output = { λ it. Some (letter_at it.0) };

    fn fmt<W: fmt::Write>(&self, f: &mut fmt::Formatter<W>) -> fmt::Result {
        match self.0 {
            Some(period) => f.write_str(letter_of(period)),
            None => Ok(()),
        }
    }
}

/// A day of a billing period by its number from 0. The billing period need not have it.
#[derive(Clone, Copy)]
pub(crate) struct NumberedDay<'a> {
    pub period: &'a BillingPeriod,
    pub number: u32,
    ghost few: { number < 31 },
}

impl NumberedDay<'_> {
    // The first quarter of an hour, four quarters to the hour and 24 hours to the day.
    fn first_quarter(&self, hour: u32) -> u32
        requires { hour < 24 }
        ensures { result ≡ 96 * self.now.number + 4 * hour }
    {
        4 * (24 * self.number + hour)
    }

    // The letter of an hour, by its first quarter.
    fn letter_at(&self, hour: u32) -> Letter
        requires { hour < 24 }
        ensures { result.0 ≡ period_at self.now.period.now.terms (96 * self.now.number + 4 * hour) }
    {
        Letter(self.period.period_of(self.first_quarter(hour)))
    }
}

/// The letters of a day's 24 hours.
#[derive(Clone, Copy)]
pub(crate) struct Hours<'a>(pub NumberedDay<'a>);

impl fmt::Display for Hours<'_> {
    ghost output = { λ hours. Some (hours_text hours.0.period.now.terms hours.0.number) };

    fn fmt<W: fmt::Write>(&self, f: &mut fmt::Formatter<W>) -> fmt::Result {
        // The hours are numbers and no list, so a range is their plain form.
        for hour in 0..24 {
            let letter = self.0.letter_at(hour);
            write!(f, "{letter}")?;
        }
        Ok(())
    }
}
