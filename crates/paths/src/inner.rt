// What the crates above lend from here for their own work: columns and squares of costs, and what their entries say.
pub use crate::column::{column_of, column_without};
pub use crate::cost::Cost;
pub use crate::square::{costs_of, square_of, square_without, turned};
