// Why a close made no closing.

/// The gate was closed before. Seen is the control word as it was found: 2^32 and the number of draws before.
#[derive(Clone, Copy, Debug, PartialEq, Eq)]
pub struct AlreadyClosed {
    pub seen: u64,
}
