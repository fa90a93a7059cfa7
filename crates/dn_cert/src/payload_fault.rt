use crate::fault::CertFault;
use dn_seal::Unopened;

/// Why a payload doesn't open: the first from the left that is so.
#[derive(Clone, Copy, Debug, PartialEq, Eq)]
pub enum PayloadFault {
    /// The bytes are no payload, or an envelope in it is none; or a submission's envelope carries another statement; or signatures of a
    /// certificate are missing, or its body isn't one of the group.
    Form,
    /// The signer of an envelope isn't in the roster.
    Stranger,
    /// A signature doesn't verify.
    Signature,
    NoMemory,
}

impl From<Unopened> for PayloadFault {
    ghost use Rattle.std.specs.Prelude.{◌≡◌};
    ghost use Rattle.dn_cert.specs.Opening.{envelope_fault};

    ghost from_gives = { λ f e. e ≡ envelope_fault f };

    fn from(fault: Unopened) -> Self {
        match fault {
            Unopened::Form(_) => PayloadFault::Form,
            Unopened::Stranger { .. } => PayloadFault::Stranger,
            Unopened::Signature => PayloadFault::Signature,
            Unopened::NoMemory => PayloadFault::NoMemory,
        }
    }
}

impl From<CertFault> for PayloadFault {
    ghost use Rattle.std.specs.Prelude.{◌≡◌};
    ghost use Rattle.dn_cert.specs.Opening.{certificate_fault};

    ghost from_gives = { λ f e. e ≡ certificate_fault f };

    fn from(fault: CertFault) -> Self {
        match fault {
            CertFault::Form(_) => PayloadFault::Form,
            CertFault::Missing { .. } => PayloadFault::Form,
            CertFault::Body { .. } => PayloadFault::Form,
            CertFault::Signature { .. } => PayloadFault::Signature,
            CertFault::NoMemory => PayloadFault::NoMemory,
        }
    }
}
