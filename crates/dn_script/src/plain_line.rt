use dn_bits::Bits;
use dn_wire::ClientId;

/// A line of a plain script between its first and its last.
#[derive(Drop)]
pub enum PlainLine {
    /// The bits that a client sends: as many as a round has.
    Say { client: ClientId, message: Bits },
    /// A client submits its ciphertext.
    Submit(ClientId),
    /// So many ticks pass, 1 to 100.
    Tick(u32),
    /// The window is closed.
    Close,
}
