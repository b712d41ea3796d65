// Tariff periods: which period each quarter hour of a billing period is in.
#![tactic(auto)]

mod billing_period;
mod counts;
mod dates;
mod hours;
mod terms;
mod weekdays;

pub use billing_period::BillingPeriod;
pub use counts::QuartersByPeriod;
pub use dates::Date;
pub use hours::{Calendar, DayKind, Period, Season};
pub use terms::{Day, Terms};
pub use weekdays::Weekday;
