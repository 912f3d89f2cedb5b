// Key links, the builder of the three tables, and the look-up of an interface's row.
#![tactic(auto)]

mod backward;
mod build;
mod entry;
pub mod inner;
mod kept;
mod key;
mod lent;
mod row;

pub use build::build_tables;
pub use key::key_links;
pub use lent::Tables;
pub use row::{check_row, row_of};
