// The planner's sheet: reading the tasks of a flat from text.
#![tactic(auto)]

pub mod cores;
mod draft;
pub mod entries;
pub mod entry;
pub mod line_fault;
pub mod names;
pub mod numbers;
pub mod reading;
pub mod words;
