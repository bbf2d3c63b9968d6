// A set of levels as the bits of one number.
#![tactic(auto)]

pub mod bitmap;
