// A billing period.
ghost use Rattle.std.specs.Prelude.{◌≡◌, true};
ghost use Rattle.tariff.specs.BillingPeriods.{lawful};
ghost use Rattle.tariff.specs.Weekdays.{weekday_of};

use crate::terms::Terms;
use crate::weekdays::Weekday;

mod days;

/// 1 to 31 days from a first day in the years 2020 to 2099 on, each of 96 quarters.
#[derive(Clone, Copy, PartialEq, Eq, Debug)]
pub struct BillingPeriod {
    terms: Terms,
    first_weekday: Weekday,
    ghost terms_lawful: { lawful terms ≡ true },
    ghost weekday: { first_weekday ≡ weekday_of terms.first },
}
