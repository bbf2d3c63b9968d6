// A queue over memory that the caller gives.
ghost use Rattle.std.specs.Prelude.{◌≡◌, ◌+◌, ◌-◌, ◌<◌, ◌≤◌, min, [], length, take, List, false, true, slice_index_or};
ghost use Rattle.queues.specs.Sets.{has, insert, remove};
ghost use Rattle.stores.specs.Within.{set_within};

use crate::layout::Layout;
use queues::order::Order;
use queues::put_error::PutError;
use queues::queue::{Queue, WithdrawingQueue};
use queues::sizes::capped;
use std::marker::PhantomData;

/// A queue that holds its items in the first cells of the memory that it is given, as the layout has them stand.
// Stays: the memory is the caller's, and there is no heap to take a Vec from. A model in place of the two fields in clauses
// would have to show the room beside the items, and be no plainer.
#[derive(Drop)]
pub struct Store<'a, T, L> {
    cells: &'a mut [T],
    len: usize,
    layout: PhantomData<L>,
    ghost fits: { len ≤ length cells.now },
}

impl<'a, T: Order + Copy, L: Layout<T>> Store<'a, T, L> {
    /// An empty store. Its capacity is the number of the cells, at most 65,535; they may hold anything. One step.
    pub fn new(cells: &'a mut [T]) -> Store<'a, T, L>
        ensures good { L.Layout.good (take result.len result.cells.now) }
        ensures room { length result.cells.now ≡ min (length cells.old) 65535 }
        ensures items { L.Layout.set (take result.len result.cells.now) ≡ [] }
    {
        let room = usize::from(capped(cells.len()));
        Store {
            cells: &mut cells[..room],
            len: 0,
            layout: PhantomData,
        }
    }
}

impl<T: Order + Copy, L: Layout<T>> Store<'_, T, L> {
    // The cells in use.
    fn items(&self) -> &[T]
        ensures { result.now ≡ take self.now.len self.now.cells.now }
    {
        &self.cells[..self.len]
    }

    // Adds an item that is not held, where it may enter.
    fn enter(&mut self, at: usize, item: T)
        requires within { at ≤ self.old.len }
        requires room { self.old.len < length self.old.cells.now }
        ensures room { length self.new.cells.now ≡ length self.old.cells.now }
        ensures entered { L.Layout.good (take self.old.len self.old.cells.now) → has T.Order.before item (L.Layout.set (take self.old.len self.old.cells.now)) ≡ false → L.Layout.place item (take self.old.len self.old.cells.now) at → L.Layout.good (take self.new.len self.new.cells.now) × (L.Layout.set (take self.new.len self.new.cells.now) ≡ insert T.Order.before item (L.Layout.set (take self.old.len self.old.cells.now))) }
    {
        self.cells[self.len] = item;
        self.len += 1;
        L::enter(&mut self.cells[..self.len], at);
    }

    // Removes the item at a place.
    fn leave(&mut self, at: usize)
        requires within { at < self.old.len }
        ensures good { L.Layout.good (take self.old.len self.old.cells.now) → L.Layout.good (take self.new.len self.new.cells.now) }
        ensures room { length self.new.cells.now ≡ length self.old.cells.now }
        ensures items { L.Layout.good (take self.old.len self.old.cells.now) → (d : T) → L.Layout.set (take self.new.len self.new.cells.now) ≡ remove T.Order.before (slice_index_or (take self.old.len self.old.cells.now) at d) (L.Layout.set (take self.old.len self.old.cells.now)) }
    {
        L::leave(&mut self.cells[..self.len], at);
        self.len -= 1;
    }
}

/// The store as a queue.
impl<T: Order + Copy, L: Layout<T>> Queue for Store<'_, T, L> {
    type Item = T;

    ghost good = { λ q. L.Layout.good (take q.len q.cells.now) };

    ghost room = { λ q. length q.cells.now };

    ghost items = { λ q. L.Layout.set (take q.len q.cells.now) };

    ghost rises = { λ q good. L.Layout.laws.rises (take q.len q.cells.now) good };

    ghost within = { λ q good. set_within T.Order.before L.Layout.good L.Layout.set L.Layout.laws q.cells.now q.len q.fits };

    /// One step: the cells stay as they are.
    fn clear(&mut self) {
        self.len = 0;
    }

    /// One step.
    fn capacity(&self) -> u16 {
        capped(self.cells.len())
    }

    /// One step.
    fn count(&self) -> u16 {
        capped(self.len)
    }

    /// One step: the first cell.
    fn first(&self) -> Option<T> {
        self.items().first().copied()
    }

    /// As many steps as it takes the layout to let the item in the first cell go.
    fn take(&mut self) -> Option<T> {
        let first = self.first()?;
        self.leave(0);
        Some(first)
    }

    /// As many steps as it takes the layout to find the item and to let it in.
    fn put(&mut self, item: T) -> Result<(), PutError> {
        match L::find(self.items(), &item) {
            Ok(_) => Err(PutError::Held),
            Err(_) if self.len == self.cells.len() => Err(PutError::Full),
            Err(at) => {
                self.enter(at, item);
                Ok(())
            }
        }
    }
}

/// The store as a queue from which any item can be withdrawn.
impl<T: Order + Copy, L: Layout<T>> WithdrawingQueue for Store<'_, T, L> {
    /// As many steps as it takes the layout to find the item and to let it go.
    fn withdraw(&mut self, item: T) -> bool {
        match L::find(self.items(), &item) {
            Ok(at) => {
                self.leave(at);
                true
            }
            Err(_) => false,
        }
    }
}
