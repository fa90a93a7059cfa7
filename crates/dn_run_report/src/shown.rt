use dn_report::IgnoredWord;
use dn_wire::ServerId;

/// What is shown of a run, in order.
#[derive(Clone, Copy, Debug, PartialEq, Eq)]
pub enum Shown {
    /// The event with this number, counted from 0, and what came of it.
    Event(u64),
    /// The events of a race of so many workers begin.
    Race { server: ServerId, workers: u32 },
    /// A post of the server's worker in a live run, which had read so many entries.
    Board { server: ServerId, read: u64 },
    /// Nothing was done, for this reason.
    Ignored(IgnoredWord),
}
