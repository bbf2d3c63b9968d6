// How many calls of each kind were made.
use crate::call::Call;
use std::fmt;

/// The stacks of queues that were driven, and the calls of each kind.
#[derive(Clone, Copy, Default)]
pub struct Tally {
    pub stacks: u64,
    clear: u64,
    capacity: u64,
    count: u64,
    first: u64,
    take: u64,
    put: u64,
    withdraw: u64,
}

impl Tally {
    /// One more call of this kind.
    pub(crate) fn add(&mut self, call: Call) {
        let calls = match call {
            Call::Clear => &mut self.clear,
            Call::Capacity => &mut self.capacity,
            Call::Count => &mut self.count,
            Call::First => &mut self.first,
            Call::Take => &mut self.take,
            Call::Put => &mut self.put,
            Call::Withdraw => &mut self.withdraw,
        };
        *calls = calls.saturating_add(1);
    }
}

impl fmt::Display for Tally {
    fn fmt<W: fmt::Write>(&self, f: &mut fmt::Formatter<W>) -> fmt::Result {
        let Tally {
            stacks,
            clear,
            capacity,
            count,
            first,
            take,
            put,
            withdraw,
        } = *self;
        let calls = [clear, capacity, count, first, take, put, withdraw]
            .iter()
            .fold(0u64, |sum, calls| sum.saturating_add(*calls));
        write!(
            f,
            "{stacks} stacks, {calls} calls: clear {clear}, capacity {capacity}, count {count}, first {first}, take {take}, put {put}, withdraw {withdraw}"
        )
    }
}
