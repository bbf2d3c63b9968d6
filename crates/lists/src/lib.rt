// The ordered list: a queue over memory that the caller gives.
#![tactic(auto)]

pub mod ascending;
pub mod list;
