/// Why a member is blamed. A member that has several faults is blamed for the first in this order. The faults from `Twice` to `Output` are
/// those of servers, and the others those of clients.
#[derive(Clone, Copy, Debug, PartialEq, Eq)]
pub enum Fault {
    /// It made two different statements for one place.
    Twice,
    /// Its inventory has an entry that doesn't verify.
    Entry,
    /// It revealed another ciphertext than it committed to.
    Commit,
    /// What it showed isn't what the body says.
    Shown,
    /// Its ciphertext isn't the sum of the pad bits that it signed and of its clients' ciphertexts.
    Sum,
    /// A good rebuttal shows that it signed a false pad bit.
    Pad,
    /// The output isn't the sum of the servers' ciphertexts, which is the fault of all of them.
    Output,
    /// It made two different submissions for the round.
    Double,
    /// It is challenged, and its rebuttal isn't good.
    Rebuttal,
    /// It is challenged, and concedes.
    Conceded,
}
