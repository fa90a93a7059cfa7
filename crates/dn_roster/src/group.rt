/// Which version a group has, how large it is, which keys it has, and the seed that all of it is dealt from.
#[derive(Clone, Copy, Debug, PartialEq, Eq)]
pub struct GroupSpec {
    /// The version of the group's bodies and of its digest, 1 or 2. Nothing that is dealt goes by it.
    pub version: u8,
    /// The number of clients, 1 to 512. Slots are as many.
    pub clients: u32,
    /// The number of servers, 1 to 16.
    pub servers: u32,
    /// The LM-OTS typecode of all keys, 1 to 4 (RFC 8554, section 4.1).
    pub ots: u32,
    /// The LMS typecode of the keys of clients and slots, 5 or 6 (RFC 8554, section 5.1).
    pub client_lms: u32,
    /// The LMS typecode of the servers' keys, 5 to 7.
    pub server_lms: u32,
    pub seed: [u8; 32],
}
