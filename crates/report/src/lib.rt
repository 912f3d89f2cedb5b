// The figures of a failure line, and all lines of a report: every ordered pair of different nodes walked, each counted by its ending.
#![tactic(auto)]

mod counting;
mod totals;

pub use counting::{Line, failure_line};
pub use totals::{Lines, all_lines};
