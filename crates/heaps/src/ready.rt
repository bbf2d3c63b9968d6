// The ready queue of the hub.
use crate::heap::Heap;
use fronts::front::Front;
use queues::level::Level;

/// The ready queue that the hub ships: a front on a heap of levels.
pub type ReadyQueue<'a> = Front<Heap<'a, Level>>;
