/// The entries of a list are at most so many: as many as the notary's key has leaves.
pub const MAX_ENTRIES: usize = 1_024;

/// The bytes of an entry are at most so many.
pub const MAX_ENTRY: usize = 1_024;
