// The text of the planner's answer, and the whole answer to a sheet.
#![tactic(auto)]

pub mod answer;
pub mod reply;
pub mod report;
#[cfg(test)]
mod tests;
