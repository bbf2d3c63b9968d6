// Legal schedules, the check that a set's bounds are kept in all of them, and two worked schedules.
#![tactic(auto)]

pub mod check;
pub mod examples;
