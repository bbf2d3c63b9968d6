// A binary heap: a queue over memory that the caller gives.
//
// The first `len` cells of the memory hold the items of the set, in an order of their own: the children of place k are
// places 2k + 1 and 2k + 2, so the parent of place k is (k - 1) / 2, and no item comes before its parent. The first
// item of the set is then at place 0, the root. Nothing is known of the cells behind the first `len`.
//
// An item enters behind the last one and moves up while it comes before its parent. Where an item leaves, the last one
// takes its place and moves up while it comes before its parent, or down while a child comes before it; of two children
// the one that comes first changes places with it. Either way is at most as long as the tree is high, log2 of `len`.
//
// An example with numbers of which the smaller comes first, in a memory of six cells (`-` is any value):
//
//     place         0  1  2  3  4  5
//     the heap      2  5  3  9  -  -      the set 2 3 5 9
//     put 1         2  5  3  9  1  -      behind the last
//                   2  1  3  9  5  -      before its parent 5 at place 1
//                   1  2  3  9  5  -      before its parent 2 at place 0
//     take          5  2  3  9  -  -      1 left, and the last is at its place
//                   2  5  3  9  -  -      its first child 2 came before it; its child 9 does not
//
// The contracts speak of the set. Two things are known of how the cells arrange it: sorting the cells in use gives the
// set, and no cell comes before its parent.
//
// Costs, with n items: `new`, `clear`, `capacity`, `count` and `first` take one step, `take` log2 n. `put` and `withdraw`
// first look for the item in each cell in use, n steps, since a set has no item twice; the rest is log2 n.
#![tactic(auto)]

pub mod heap;
pub mod ready;
mod sift;
pub mod tree;
