// The first item of any queue, held before it.
#![tactic(auto)]

pub mod front;
