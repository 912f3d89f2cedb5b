// The stored plan: numbers in seven-bit groups, the reader and the writer.
#![tactic(auto)]

mod cursor;
mod number;
mod reader;
mod writer;

use net::limit;
use number::GROUPS;
pub use reader::read_plan;
pub use writer::write_plan;

// No plan is longer: the two counts take one group each, and a link two groups for its ends and at most three for its weight.
// specs/Plan.antt says the same to the contracts.
pub const LONGEST: usize = 2 + (2 + GROUPS) * limit::LINKS;
