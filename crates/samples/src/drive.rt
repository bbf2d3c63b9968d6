// Queues, each beside a sorted set of the standard library.
use crate::call::Call;
use crate::item::Sample;
use crate::rng::Rng;
use crate::tally::Tally;
use anyhow::ensure;
use fronts::front::Front;
use queues::put_error::PutError;
use queues::queue::WithdrawingQueue;
use std::alloc::{AllocError, Global};
use std::collections::BTreeSet;

const STEPS: u32 = 8_000;

// A queue whose capacity is to be `room`, and the model of its set.
#[derive(Drop)]
struct Pair<'a, W> {
    queue: &'a mut W,
    model: BTreeSet<u64>,
    room: usize,
}

impl<W: WithdrawingQueue> Pair<'_, W>
where
    W::Item: Sample + Copy,
{
    // Puts the item into both, and says whether they agree.
    fn put(&mut self, item: W::Item) -> Result<bool, AllocError> {
        let code = item.code();
        let held = self.model.contains(&code);
        let full = self.model.len() >= self.room;
        match self.queue.put(item) {
            Err(PutError::Held) => Ok(held),
            Err(PutError::Full) => Ok(!held && full),
            Ok(()) => Ok(self.model.insert(code)? && !full),
        }
    }

    // Makes a call on both, and says whether they agree.
    fn make(&mut self, call: Call, item: W::Item) -> Result<bool, AllocError> {
        let model = &mut self.model;
        // Stays: no plainer; a table of closures would repeat each arm and add a look-up, and the match is checked to be whole.
        match call {
            Call::Clear => {
                self.queue.clear();
                model.clear();
                Ok(true)
            }
            Call::Capacity => Ok(usize::from(self.queue.capacity()) == self.room),
            Call::Count => Ok(usize::from(self.queue.count()) == model.len()),
            Call::First => {
                Ok(self.queue.first().map(|item| item.code()) == model.first().copied())
            }
            Call::Take => Ok(self.queue.take().map(|item| item.code()) == model.pop_first()),
            Call::Put => self.put(item),
            Call::Withdraw => Ok(self.queue.withdraw(item) == model.remove(&item.code())),
        }
    }
}

/// Drives queues, and counts the calls.
#[derive(Clone, Copy)]
pub(crate) struct Driver {
    pub(crate) heap: Global,
    pub(crate) tally: Tally,
}

impl Driver {
    // Makes a call with the item for a number.
    fn call<W: WithdrawingQueue>(
        &mut self,
        pair: &mut Pair<'_, W>,
        call: Call,
        number: u64,
    ) -> anyhow::Result<()>
    where
        W::Item: Sample + Copy,
    {
        self.tally.add(call);
        let item = <W::Item as Sample>::of(number);
        ensure!(pair.make(call, item)?, "a queue and the model disagree");
        Ok(())
    }

    /// Clears the queue, and makes a long row of calls on it and on the model; its capacity is to be `room`.
    pub(crate) fn drive<W: WithdrawingQueue>(
        &mut self,
        queue: &mut W,
        room: usize,
    ) -> anyhow::Result<()>
    where
        W::Item: Sample + Copy,
    {
        let mut rng = Rng::new(20_261_117);
        let model = BTreeSet::new(self.heap);
        let mut pair = Pair { queue, model, room };
        self.tally.stacks = self.tally.stacks.saturating_add(1);
        for n in 0..STEPS {
            if n % 1_000 == 0 {
                self.call(&mut pair, Call::Clear, 0)?;
            }
            let roll = rng.roll();
            self.call(&mut pair, Call::from(roll), roll / 16)?;
        }
        Ok(())
    }

    /// Drives the queue, and then a front on it.
    pub(crate) fn drive_with_front<W: WithdrawingQueue + Drop>(
        &mut self,
        mut queue: W,
        room: usize,
    ) -> anyhow::Result<()>
    where
        W::Item: Sample + Copy,
    {
        self.drive(&mut queue, room)?;
        let mut front = Front::new(queue);
        self.drive(&mut front, room.saturating_add(1))
    }
}
