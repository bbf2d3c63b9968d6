// A queue over memory that the caller gives, by how its items stand in the cells.
#![tactic(auto)]

pub mod layout;
pub mod store;
