// What other crates of ours call after the checks, and the checks that they share: a report walks 64,480 times and checks its tables once.
pub use crate::checked::CheckedTables;
pub use crate::lent::{check_lent, lent_verdict};
pub use crate::moves::walk_from;
pub use crate::question::Question;
pub use crate::walked::{Ending, Walked};
