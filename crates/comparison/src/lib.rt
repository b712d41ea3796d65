// A report that compares the two sharing rules, line by line.
#![tactic(auto)]

mod division;
mod error;
mod input_lines;
mod report;

pub use report::report_on;
