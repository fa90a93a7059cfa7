use dn_memory::NoMemory;
use std::alloc::{AllocError, AllocFailed};
use std::fmt;

/// Why a round can't be played.
#[derive(Clone, Copy, Debug, PartialEq, Eq)]
pub enum PlayFault {
    NoMemory,
    /// A number that the group or the round hasn't, or an envelope that doesn't unseal.
    Unfit,
}

impl fmt::Display for PlayFault {
    fn fmt<W: fmt::Write>(&self, f: &mut fmt::Formatter<W>) -> fmt::Result {
        match self {
            PlayFault::NoMemory => f.write_str("no memory"),
            PlayFault::Unfit => f.write_str("nothing that can be played"),
        }
    }
}

impl std::error::Error for PlayFault {}

impl From<NoMemory> for PlayFault {
    fn from(_: NoMemory) -> Self {
        PlayFault::NoMemory
    }
}

impl From<AllocError> for PlayFault {
    fn from(_: AllocError) -> Self {
        PlayFault::NoMemory
    }
}

impl<T: Drop> From<AllocFailed<T>> for PlayFault {
    fn from(_: AllocFailed<T>) -> Self {
        PlayFault::NoMemory
    }
}
