// Cross-tables: the row totals, the column totals and the whole of a table of cards.
#![tactic(auto)]

mod card;
mod charge_slip;
mod charges;
mod cross;
mod joining;
mod period_card;
mod table;

pub use card::Card;
pub use charge_slip::ChargeSlip;
pub use charges::Charges;
pub use cross::{column_totals, cross_table, row_totals, whole};
pub use period_card::PeriodCard;
