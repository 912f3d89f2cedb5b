// Best paths: columns of costs, filled by rounds over the links, squares of them, and the best path between two nodes.
#![tactic(auto)]

mod best;
mod column;
mod cost;
pub mod inner;
mod square;

pub use best::{BestPath, best_path};
