// The queue interfaces. A queue's meaning is a capacity and a set of items; the set is written as the strictly ascending
// list of its items, and is never larger than the capacity. What is promised is promised of a queue in good order, which
// `clear` establishes from any state.
ghost use Rattle.std.specs.Prelude.{◌≡◌, ℕ, ◌≤◌, min, List, [], length};
ghost use Rattle.queues.specs.Sets.{has, remove, Sorted, first_of, rest_of, put_answer, put_set};

use crate::order::Order;
use crate::put_error::PutError;

/// A queue over one kind of item, the first one at its head.
// Stays: a rule of the project, whose contract speaks of a queue in any state, and of `clear` that brings it into good order.
pub trait Queue {
    type Item: Order;

    ghost good: { Self → Type 0 };

    ghost room: { Self → ℕ };

    ghost items: { Self → List Self.Item };

    /// Empties the set, and leaves a queue in any state in good order.
    fn clear(&mut self)
        ensures good { good self.new }
        ensures room { room self.new ≡ room self.old }
        ensures items { items self.new ≡ [] };

    /// The capacity, or 65,535 where that is larger.
    fn capacity(&self) -> u16
        ensures { good self.now → result ≡ min (room self.now) 65535 };

    /// The size of the set, or 65,535 where that is larger.
    fn count(&self) -> u16
        ensures { good self.now → result ≡ min (length (items self.now)) 65535 };

    /// The item that comes first.
    fn first(&self) -> Option<Self::Item>
        ensures { good self.now → result ≡ first_of (items self.now) };

    /// Removes the item that comes first.
    fn take(&mut self) -> Option<Self::Item>
        ensures good { good self.old → good self.new }
        ensures room { room self.new ≡ room self.old }
        ensures answer { good self.old → result ≡ first_of (items self.old) }
        ensures items { good self.old → items self.new ≡ rest_of (items self.old) };

    /// Adds an item; held where it is in the set already, else full where the set is as large as the capacity.
    fn put(&mut self, item: Self::Item) -> Result<(), PutError>
        ensures good { good self.old → good self.new }
        ensures room { room self.new ≡ room self.old }
        ensures answer { good self.old → result ≡ put_answer Self.Item.Order.before (room self.old) item (items self.old) }
        ensures items { good self.old → items self.new ≡ put_set Self.Item.Order.before (room self.old) item (items self.old) };

    ghost rises: { (q : Self) → good q → Sorted Self.Item.Order.before (items q) };

    ghost within: { (q : Self) → good q → length (items q) ≤ room q };
}

/// A queue from which a named item can be withdrawn.
pub trait WithdrawingQueue: Queue {
    /// Removes the item and says yes, or says no where it is not in the set.
    fn withdraw(&mut self, item: Self::Item) -> bool
        ensures good { Self.Queue.good self.old → Self.Queue.good self.new }
        ensures room { Self.Queue.room self.new ≡ Self.Queue.room self.old }
        ensures answer { Self.Queue.good self.old → result ≡ has Self.Item.Order.before item (Self.Queue.items self.old) }
        ensures items { Self.Queue.good self.old → Self.Queue.items self.new ≡ remove Self.Item.Order.before item (Self.Queue.items self.old) };
}
