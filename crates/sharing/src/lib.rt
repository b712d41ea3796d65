// Sharing an amount over a list of weights in whole units, with nothing lost.
#![tactic(auto)]

mod division;
mod left_over;
mod rule;
mod running_total;

pub use left_over::LeftOver;
pub use rule::{SharingRule, divide};
pub use running_total::RunningTotal;
