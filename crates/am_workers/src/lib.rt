//! Workers, each of which serves the links of a gate, one after the other, on a desk of its own; and a manager that is
//! shared by the desks of many workers.
#![tactic(auto)]

mod serving;
mod worker;
mod working;

pub use serving::serve;
pub use working::{Worked, work};
