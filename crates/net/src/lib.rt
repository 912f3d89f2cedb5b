// The network in memory: the three kinds of number, the failure, the limits, the refusal numbers, and the check that every entry
// on a network makes first. A network in memory is its node count and three lent rows: low ends, high ends, weights.
#![tactic(auto)]

mod check;
mod checked;
pub mod entry;
mod failure;
mod interface;
mod lent_rows;
pub mod limit;
mod link_set;
mod refusal;

pub use check::{
    ORIGIN, Span, bad_node_count, bad_weight, check_network, descends, end_at, lighter_twin,
};
pub use checked::CheckedRows;
pub use failure::{Failure, blocked, check_failure, fails};
pub use interface::{Interface, Link, Node, link_of, reverse_of};
pub use lent_rows::{LentRows, Network};
pub use link_set::LinkSet;
pub use refusal::{PlacedRefusal, Refusal, Verdict, unplaced};
