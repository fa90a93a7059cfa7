// The limits of a group, of what its members send, and of scripts, reports and runs. Contracts cite them as they stand here.

/// A group has at most so many clients.
pub const MAX_CLIENTS: u32 = 512;

/// A group has at most so many servers.
pub const MAX_SERVERS: u32 = 16;

/// A round has at most so many bits.
pub const MAX_BITS: u32 = 65536;

/// The last round's number.
pub const MAX_ROUND: u64 = 64;

/// A message has at most so many bytes.
pub const MAX_TEXT: u32 = 996;

/// An open slot has at least so many bytes.
pub const MIN_SLOT_BYTES: u32 = 64;

/// An open slot has at most so many bytes.
pub const MAX_SLOT_BYTES: u32 = 1024;

/// The bytes of a statement in an envelope are at most so many.
pub const MAX_STATEMENT_BYTES: u32 = 16_777_216;

/// The envelope in a rebuttal has at most so many bytes.
pub const MAX_CARRIED_BYTES: u32 = 65_535;

/// At most so many bytes of a script are read.
pub const MAX_SCRIPT_BYTES: u64 = 8_388_608;

/// A script has at most so many lines that count.
pub const MAX_SCRIPT_LINES: u64 = 65_536;

/// At most so many bytes of a report are read.
pub const MAX_REPORT_BYTES: u64 = 67_108_864;

/// At most so many messages are in flight.
pub const MAX_FLIGHT: u32 = 65_536;

/// A race has at most so many workers.
pub const MAX_RACE_WORKERS: u32 = 16;

/// A race has at most so many submissions.
pub const MAX_RACE_LIST: u32 = 512;

/// Each worker of a live line takes at most so many turns.
pub const MAX_LIVE_TURNS: u32 = 64;

/// A line counts at most so many ticks.
pub const MAX_TICKS: u32 = 100;

/// A line delivers all that is in flight at most so many times.
pub const MAX_FLOW: u32 = 16;
