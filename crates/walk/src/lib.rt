// The step and the walk over three lent tables, whoever filled them.
#![tactic(auto)]

mod around;
mod checked;
pub mod inner;
mod lent;
mod moves;
mod question;
mod steps;
mod walked;
mod walks;

pub use steps::{Asked, Stepped, step};
pub use walked::{Ending, Walked};
pub use walks::walk;
