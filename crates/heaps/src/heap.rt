// The heap as a queue.
use crate::tree::Tree;
use stores::store::Store;

/// A queue that holds its items as a binary heap in the first cells of the memory that it is given.
pub type Heap<'a, T> = Store<'a, T, Tree>;
