// What the crates above lend from here for their own work.
pub use crate::lent::tables_short;
