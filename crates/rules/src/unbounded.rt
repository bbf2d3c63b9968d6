// A task for which no window passes.

/// The first task of a set that has no bound: its place in the set and its level.
#[derive(Clone, Copy, PartialEq, Eq, Debug)]
pub struct NoBound {
    pub place: usize,
    pub level: u16,
}
