// Orders, the items that queues hold, and the queue interfaces.
#![tactic(auto)]

pub mod extra;
pub mod extras;
pub mod level;
pub mod levels;
pub mod order;
pub mod put_error;
pub mod queue;
pub mod sizes;
pub mod wake_up;
pub mod wake_ups;
