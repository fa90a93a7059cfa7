use dn_wire::Bytes;

/// A line of a list of entries.
#[derive(Drop)]
pub enum ListLine {
    /// One entry more.
    Entry(Bytes),
    /// The last line.
    End,
}
