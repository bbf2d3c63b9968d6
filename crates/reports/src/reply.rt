// What the planner answers to a sheet.

/// The text for standard output, the text for standard error, and whether the task set is accepted.
// Stays: no plainer, since the program writes both texts and returns the flag, and would have to undo an enum of them.
#[derive(Drop)]
pub struct Answer {
    pub out: String,
    pub err: String,
    pub accepted: bool,
}
