use crate::sequence::{Listable, Sequence};
use dn_memory::NoMemory;
use dn_wire::Bytes;
use std::alloc::Global;

/// A list of byte strings.
pub type ByteLists = Sequence<Bytes>;

impl Listable for Bytes {
    fn copied(&self, alloc: Global) -> Result<Self, NoMemory> {
        self.copy(alloc)
    }

    fn is_same(&self, other: &Self) -> bool {
        self.equals(other)
    }
}
