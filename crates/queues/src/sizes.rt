// Numbers of items as the queues tell them.
ghost use Rattle.std.specs.Prelude.{◌≡◌, min};

/// The number, or 65,535 where that is smaller.
pub fn capped(n: usize) -> u16
    ensures { result ≡ min n 65535 }
{
    u16::try_from(n).unwrap_or(u16::MAX)
}
