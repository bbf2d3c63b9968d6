// The front: the first item of a queue, held before the queue.
ghost use Rattle.std.specs.Prelude.{◌≡◌, suc, min, [], length};
ghost use Rattle.fronts.specs.Fronts.{FrontGood, front_items};
ghost use Rattle.fronts.specs.Laws.{front_rises, front_within};

use queues::order::Order;
use queues::put_error::PutError;
use queues::queue::{Queue, WithdrawingQueue};
use std::mem;

/// Any queue with its first item held in front, so that looking at it and taking it from a queue of one costs nothing below.
#[derive(Drop)]
pub struct Front<Q: Queue> {
    head: Option<Q::Item>,
    below: Q,
}

impl<Q: Queue> Front<Q> {
    /// An empty front on a queue, which is cleared. Its capacity is one more than the queue's.
    pub fn new(mut below: Q) -> Front<Q>
        ensures good { Q.Queue.good result.below × FrontGood Q.Item.Order.before result.head (Q.Queue.items result.below) }
        ensures room { Q.Queue.room result.below ≡ Q.Queue.room below }
        ensures items { front_items result.head (Q.Queue.items result.below) ≡ [] }
    {
        below.clear();
        Front { head: None, below }
    }
}

/// The front as a queue.
impl<Q: Queue> Queue for Front<Q>
where
    Q::Item: Copy,
{
    type Item = Q::Item;

    ghost good = { λ f. Q.Queue.good f.below × FrontGood Q.Item.Order.before f.head (Q.Queue.items f.below) };

    ghost room = { λ f. suc (Q.Queue.room f.below) };

    ghost items = { λ f. front_items f.head (Q.Queue.items f.below) };

    ghost rises = { λ f good. front_rises Q.Item.Order.before f.head (Q.Queue.items f.below) good.1 };

    ghost within = { λ f good. front_within Q.Item.Order.before f.head (Q.Queue.items f.below) (Q.Queue.room f.below) good.1 (Q.Queue.within f.below good.0) };

    fn clear(&mut self) {
        self.head = None;
        self.below.clear();
    }

    fn capacity(&self) -> u16 {
        self.below.capacity().saturating_add(1)
    }

    fn count(&self) -> u16 {
        let below = self.below.count();
        match self.head {
            Some(_) => below.saturating_add(1),
            None => 0,
        }
    }

    fn first(&self) -> Option<Q::Item> {
        self.head
    }

    fn take(&mut self) -> Option<Q::Item> {
        let next = self.below.take();
        mem::replace(&mut self.head, next)
    }

    fn put(&mut self, item: Q::Item) -> Result<(), PutError> {
        let Some(head) = self.head else {
            self.head = Some(item);
            return Ok(());
        };
        if head.comes_before(&item) {
            return self.below.put(item);
        }
        if !item.comes_before(&head) {
            return Err(PutError::Held);
        }
        self.below.put(head)?;
        self.head = Some(item);
        Ok(())
    }
}

/// The front withdraws if the queue below does.
impl<Q: WithdrawingQueue> WithdrawingQueue for Front<Q>
where
    Q::Item: Copy,
{
    fn withdraw(&mut self, item: Q::Item) -> bool {
        let Some(head) = self.head else {
            return false;
        };
        if head.comes_before(&item) {
            return self.below.withdraw(item);
        }
        if item.comes_before(&head) {
            return false;
        }
        self.head = self.below.take();
        true
    }
}
