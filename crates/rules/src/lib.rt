// Counting rules, the search for a task's bound, and the bounds of a whole task set.
#![tactic(auto)]

pub mod all_carry;
pub mod bounds;
mod carry;
pub mod deadline;
pub mod house;
pub mod passing;
pub mod response;
pub mod rule;
pub mod search;
pub mod standard;
pub mod standard_rule;
pub mod unbounded;
