// The ordered list as a queue.
use crate::ascending::Ascending;
use stores::store::Store;

/// A queue that holds its items in order in the first cells of the memory that it is given.
pub type OrderedList<'a, T> = Store<'a, T, Ascending>;
