use crate::certificate::Certificate;
use dn_bits::Bits;
use dn_seal::{Challenge, Said};

/// What a payload carries, whose every signature verified.
#[derive(Drop)]
pub enum Opened {
    /// A client's ciphertext, and its submission.
    Submission { cipher: Bits, said: Said },
    /// Any statement.
    Plain { said: Said },
    Certificate { certificate: Certificate },
    Challenge { challenge: Challenge },
}
