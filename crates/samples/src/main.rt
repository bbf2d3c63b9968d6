// Drives every stack of queues with the same calls beside an independent model, and compares every answer.
#![tactic(auto)]

mod call;
mod drive;
mod item;
mod rng;
mod tally;

use crate::drive::Driver;
use crate::item::Sample;
use crate::tally::Tally;
use bitmaps::bitmap::Bitmap;
use fronts::front::Front;
use heaps::heap::Heap;
use heaps::ready::ReadyQueue;
use lists::list::OrderedList;
use queues::extra::Extra;
use queues::level::Level;
use queues::order::Order;
use queues::wake_up::WakeUp;

// The ordered list and the heap, over memory of so many cells.
fn drive_over_memory<T: Sample + Order + Clone + Copy>(
    driver: &mut Driver,
    room: usize,
) -> anyhow::Result<()> {
    let mut cells = vec![in driver.heap; T::of(0); room]?;
    driver.drive_with_front(OrderedList::new(cells.as_mut_slice()), room)?;
    driver.drive_with_front(Heap::new(cells.as_mut_slice()), room)
}

// The ready queue of the hub.
fn drive_ready(driver: &mut Driver) -> anyhow::Result<()> {
    // Stays: the hub's own ready queue stands on an array, as it has no heap.
    let mut cells = [Level { number: 0 }; 32];
    let mut queue: ReadyQueue = Front::new(Heap::new(&mut cells));
    driver.drive(&mut queue, 33)
}

fn main(rt: HostRuntime) -> anyhow::Result<()> {
    let mut driver = Driver {
        heap: rt.alloc(),
        tally: Tally::default(),
    };
    for room in [0usize, 1, 5, 400] {
        drive_over_memory::<Level>(&mut driver, room)?;
        drive_over_memory::<WakeUp>(&mut driver, room)?;
        drive_over_memory::<Extra>(&mut driver, room)?;
    }
    driver.drive_with_front(Bitmap::new(), 64)?;
    drive_ready(&mut driver)?;
    let tally = driver.tally;
    println!(rt; "{tally}")?;
    println!(rt; "every answer is that of the model")?;
    Ok(())
}
