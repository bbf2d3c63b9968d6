// Which of two items comes first.
ghost use Rattle.std.specs.Prelude.{◌≡◌, Bool};
ghost use Rattle.queues.specs.Sets.{Lawful};

/// A strict total order: the item that comes before all others is the first one of a queue.
pub trait Order {
    ghost before: { Self → Self → Bool };

    /// Whether this item comes before the other one.
    fn comes_before(&self, other: &Self) -> bool
        ensures { result ≡ before self.now other.now };

    ghost laws: { Lawful before };
}
