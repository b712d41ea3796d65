// The days of a billing period, one line each.
ghost use Rattle.std.specs.Prelude.{◌≡◌, ◌≤◌, Some, Ok};
ghost use Rattle.day_list.specs.Listing.{day_line, day_text, answer_text};

use crate::hours::{Hours, NumberedDay};
use std::fmt;
use tariff::{BillingPeriod, Date, Day, QuartersByPeriod};

// A day that the billing period has, and how many of its quarters are in each period.
#[derive(Clone, Copy)]
struct DayLine<'a> {
    numbered: NumberedDay<'a>,
    day: Day,
    counts: QuartersByPeriod,
}

impl fmt::Display for DayLine<'_> {
    ghost output = { λ line. Some (day_line line.numbered.period.now.terms line.numbered.number line.day line.counts) };

    fn fmt<W: fmt::Write>(&self, f: &mut fmt::Formatter<W>) -> fmt::Result {
        let number = self.numbered.number;
        let Date { year, month, day } = self.day.date;
        let weekday = self.day.weekday;
        let hours = Hours(self.numbered);
        let QuartersByPeriod {
            peak,
            half_peak,
            saturday_half_peak,
            off_peak,
        } = self.counts;
        write!(
            f,
            "{number} {year} {month} {day} {weekday} {hours} {peak} {half_peak} {saturday_half_peak} {off_peak}\n"
        )
    }
}

// The line of a day. It is empty where the billing period has no such day.
impl fmt::Display for NumberedDay<'_> {
    ghost output = { λ day. Some (day_text day.period.now.terms day.number) };

    fn fmt<W: fmt::Write>(&self, f: &mut fmt::Formatter<W>) -> fmt::Result {
        let NumberedDay { period, number } = *self;
        let (Some(day), Some(counts)) = (period.day(number), period.quarters_by_period(number))
        else {
            return Ok(());
        };
        let line = DayLine {
            numbered: *self,
            day,
            counts,
        };
        write!(f, "{line}")
    }
}

/// The days of a billing period, and how many days and quarters there are.
#[derive(Clone, Copy)]
pub(crate) struct DayList(pub BillingPeriod);

impl DayList {
    fn days(&self) -> u32
        ensures is { result ≡ self.now.0.terms.days }
        ensures few { result ≤ 31 }
    {
        self.0.quarters() / 96
    }
}

impl fmt::Display for DayList {
    ghost output = { λ list. Some (answer_text (Ok list.0.terms)) };

    fn fmt<W: fmt::Write>(&self, f: &mut fmt::Formatter<W>) -> fmt::Result {
        let period = &self.0;
        let days = self.days();
        // The days are found by their numbers and are no list, so a range is their plain form.
        for number in 0..days {
            let day = NumberedDay { period, number };
            write!(f, "{day}")?;
        }
        let quarters = period.quarters();
        write!(f, "days {days} quarters {quarters}\n")
    }
}
