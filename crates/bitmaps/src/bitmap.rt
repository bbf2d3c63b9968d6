// A set of levels as the 64 bits of one number.
ghost use Rattle.std.specs.Prelude.{◌≡◌, ◌^◌, ◌<◌, true, false, [], length};
ghost use Rattle.bitmaps.specs.Bitmaps.{levels_in};
ghost use Rattle.bitmaps.specs.Levels.{levels_rise, levels_within};
ghost use Rattle.queues.specs.Items.{level_before};
ghost use Rattle.queues.specs.Sets.{has, insert, remove, first_of};

use queues::level::Level;
use queues::put_error::PutError;
use queues::queue::{Queue, WithdrawingQueue};

/// A queue of levels: bit n stands for level n. Each call costs the same, whatever the set.
#[derive(Clone, Copy)]
pub struct Bitmap {
    bits: u64,
    ghost fits: { bits < 2 ^ 64 },
}

impl Bitmap {
    /// The empty set.
    // Stays: a derived Default would promise nothing of the set.
    pub fn new() -> Bitmap
        ensures good { result.bits < 2 ^ 64 }
        ensures items { levels_in result.bits ≡ [] }
    {
        Bitmap { bits: 0 }
    }

    // The lowest level that is set.
    fn lowest(&self) -> Option<Level>
        ensures { result ≡ first_of (levels_in self.now.bits) }
    {
        if self.bits == 0 {
            return None;
        }
        // Stays: at most 64, so a conversion that is tested would add an arm that never runs.
        Level::new(self.bits.trailing_zeros() as u16)
    }

    // Whether the level is set.
    fn is_set(&self, level: Level) -> bool
        ensures { result ≡ has level_before level (levels_in self.now.bits) }
    {
        (self.bits >> level.number) & 1 == 1
    }

    // Stays: `set` and `unset` differ in the operation, and to pass that in is no plainer than `|=` and `^=`.
    // Sets a level that is not set.
    fn set(&mut self, level: Level)
        requires { has level_before level (levels_in self.old.bits) ≡ false }
        ensures { levels_in self.new.bits ≡ insert level_before level (levels_in self.old.bits) }
    {
        self.bits |= 1 << level.number;
    }

    // Clears a level that is set.
    fn unset(&mut self, level: Level)
        requires { has level_before level (levels_in self.old.bits) ≡ true }
        ensures { levels_in self.new.bits ≡ remove level_before level (levels_in self.old.bits) }
    {
        self.bits ^= 1 << level.number;
    }
}

/// The bitmap as a queue of capacity 64.
impl Queue for Bitmap {
    type Item = Level;

    ghost good = { λ q. q.bits < 2 ^ 64 };

    ghost room = { λ _. 64 };

    ghost items = { λ q. levels_in q.bits };

    ghost rises = { λ q good. levels_rise q.bits };

    ghost within = { λ q good. levels_within q.bits good };

    fn clear(&mut self) {
        self.bits = 0;
    }

    fn capacity(&self) -> u16 {
        64
    }

    fn count(&self) -> u16 {
        // Stays: at most 64, so a conversion that is tested would add an arm that never runs.
        self.bits.count_ones() as u16
    }

    fn first(&self) -> Option<Level> {
        self.lowest()
    }

    fn take(&mut self) -> Option<Level> {
        let level = self.lowest()?;
        self.unset(level);
        Some(level)
    }

    fn put(&mut self, item: Level) -> Result<(), PutError> {
        if self.is_set(item) {
            return Err(PutError::Held);
        }
        self.set(item);
        Ok(())
    }
}

/// The bitmap as a queue from which any level can be withdrawn.
impl WithdrawingQueue for Bitmap {
    fn withdraw(&mut self, item: Level) -> bool {
        if !self.is_set(item) {
            return false;
        }
        self.unset(item);
        true
    }
}
