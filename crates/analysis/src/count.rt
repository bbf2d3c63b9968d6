// Counting the work that keeps a task waiting in a window.
ghost use Rattle.std.specs.Prelude.{◌≡◌, ◌^◌, ◌<◌, ◌≤◌, [], length, take, sum_by};
ghost use Rattle.queues.specs.Items.{extra_at, extra_before};
ghost use Rattle.queues.specs.Sets.{sort, put_set};
ghost use Rattle.analysis.specs.Counting.{Countable, extras, amounts};
ghost use Rattle.analysis.specs.Interference.{total, passes};
ghost use Rattle.analysis.specs.Laws.{InterferenceLaws};
ghost use Rattle.analysis.specs.Work.{plain};

use crate::case::Case;
use heaps::heap::Heap;
use queues::extra::Extra;
use queues::level::Level;
use queues::queue::Queue;

// Puts the extra of a task at this level into the queue.
fn put_extra<Q: Queue<Item = Extra>>(queue: &mut Q, amount: u32, level: u16)
    ensures good { Q.Queue.good queue.old → Q.Queue.good queue.new }
    ensures room { Q.Queue.room queue.new ≡ Q.Queue.room queue.old }
    ensures items { Q.Queue.good queue.old → level ≤ 63 → Q.Queue.items queue.new ≡ put_set extra_before (Q.Queue.room queue.old) (extra_at amount level) (Q.Queue.items queue.old) }
{
    if let Some(extra) = Extra::new(amount, level) {
        let _ = queue.put(extra);
    }
}

// Takes so many of the largest extras off the queue, all where there are fewer, and adds them up.
fn take_largest<Q: Queue<Item = Extra>>(queue: &mut Q, most: u8) -> u32
    requires good { Q.Queue.good queue.old }
    requires fits { amounts (Q.Queue.items queue.old) < 2 ^ 32 }
    ensures { result ≡ amounts (take most (Q.Queue.items queue.old)) }
{
    // Stays: no plainer as a chain, whose closure would change the queue that the promise is about.
    let mut sum = 0;
    for _ in 0..most {
        let Some(extra) = queue.take() else {
            return sum;
        };
        sum += extra.amount;
    }
    sum
}

impl Case<'_> {
    // Sums the plain amounts of the tasks above, and puts their extras into the queue, which is empty before.
    fn count_plain<Q: Queue<Item = Extra>>(&self, queue: &mut Q, window: u16) -> u32
        requires fits { Countable self.now.task.now window self.now.above.now }
        requires good { Q.Queue.good queue.old }
        requires room { length self.now.above.now ≤ Q.Queue.room queue.old }
        requires empty { Q.Queue.items queue.old ≡ [] }
        ensures sum { result ≡ sum_by (plain self.now.task.now window) self.now.above.now }
        ensures good { Q.Queue.good queue.new }
        ensures items { Q.Queue.items queue.new ≡ sort extra_before (extras self.now.task.now window self.now.above.now) }
    {
        let mut sum = 0;
        for other in self.above {
            let plain = self.task.plain(window, other);
            let carried = self.task.carried(window, other);
            sum += plain;
            put_extra(queue, carried.saturating_sub(plain), other.task.level);
        }
        sum
    }

    /// The rule's total for a window of the task: the interference of the tasks above, or 4,294,967,295 where the case is not
    /// lawful.
    pub fn total(&self, window: u16) -> u32
        ensures equation { result ≡ total self.now.task.now self.now.above.now self.now.cores window }
        ensures laws { InterferenceLaws self.now.task.now self.now.above.now self.now.cores window }
    {
        if !self.is_lawful(window) {
            // Stays: a rule of the project, which publishes this total, and a function that cannot fail stays one.
            return u32::MAX;
        }
        // Stays: the queue stands on an array of this call, since there is no heap to take memory from.
        let free = Extra {
            amount: 0,
            level: Level { number: 0 },
        };
        let mut cells = [free; 32];
        let mut queue = Heap::new(&mut cells);
        let plain = self.count_plain(&mut queue, window);
        plain + take_largest(&mut queue, self.cores - 1)
    }

    /// Whether a window passes with a total: floor(total / cores) + C ≤ window.
    pub fn passes(&self, window: u16, total: u32) -> bool
        ensures { result ≡ passes self.now.task.now self.now.cores window total }
    {
        let run = u64::from(self.task.run);
        let window = u64::from(window);
        if self.cores == 0 {
            return run <= window;
        }
        u64::from(total) / u64::from(self.cores) + run <= window
    }
}
