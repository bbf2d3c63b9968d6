// Why a queue did not take an item in.

/// Why `put` changed nothing.
#[derive(Clone, Copy, PartialEq, Eq, Debug)]
pub enum PutError {
    /// The item was in the set already.
    Held,
    /// The set is as large as the capacity.
    Full,
}
