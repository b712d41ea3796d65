// The list of a billing period's days with their hours, from one line of numbers.
#![tactic(auto)]

mod days;
mod hours;
mod list;
mod request;

pub use list::list_of;
