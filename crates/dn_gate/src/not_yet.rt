// Why nothing was collected.

/// Why nothing was collected.
#[derive(Clone, Copy, Debug, PartialEq, Eq)]
pub enum NotYet {
    /// So many clients are included whose values weren't found yet.
    Pending { missing: u32 },
    /// There was no memory for the values.
    NoMemory,
}
