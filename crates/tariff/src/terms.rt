// What a billing period is agreed by, and what one of its days is.
ghost use Rattle.std.specs.Prelude.{◌≡◌, ◌<◌};
ghost use Rattle.tariff.specs.BillingPeriods.{named};

use crate::dates::Date;
use crate::hours::{Calendar, DayKind, Season};
use crate::weekdays::Weekday;

/// The terms of a billing period.
#[derive(Clone, Copy, PartialEq, Eq, Debug)]
pub struct Terms {
    pub first: Date,
    pub days: u32,
    pub calendar: Calendar,
    /// The days that are named as off-peak, bit 0 for the first day.
    pub off_peak_map: u32,
}

/// A day of a billing period.
#[derive(Clone, Copy, PartialEq, Eq, Debug)]
pub struct Day {
    pub date: Date,
    pub weekday: Weekday,
    pub season: Season,
    pub kind: DayKind,
}

impl Terms {
    // Whether a day is named as off-peak, the days numbered from 0.
    pub(crate) fn is_named(&self, number: u32) -> bool
        requires { number < 32 }
        ensures { result ≡ named self.now number }
    {
        (self.off_peak_map >> number) % 2 == 1
    }
}
