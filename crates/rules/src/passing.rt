// A window that passes.

/// A window of a task that passes, and the rule's total for it.
#[derive(Clone, Copy, PartialEq, Eq, Debug)]
pub struct Passing {
    pub window: u16,
    pub total: u32,
}
