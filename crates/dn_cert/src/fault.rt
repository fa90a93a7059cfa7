ghost use Rattle.std.specs.Prelude.{◌≡◌};
ghost use Rattle.dn_cert.specs.declared.fault.CertFault.TheVariants.{NoMemory as Refused};

use dn_memory::NoMemory;
use dn_records::RecordFault;
use dn_wire::ServerId;
use std::alloc::AllocError;

/// Why bytes are no certificate under a roster: the first of these that is so.
#[derive(Clone, Copy, Debug, PartialEq, Eq)]
pub enum CertFault {
    /// The bytes aren't a certificate's payload. The fault is never `NoMemory`.
    Form(RecordFault),
    /// The signatures aren't as many as the servers: the first server without one, or the number of servers where there are more.
    Missing { server: ServerId },
    /// The body isn't one of this group: its version isn't the roster's, its digests aren't as many as the servers, or none where it is
    /// thin, a listed client or server isn't in the roster, or its prev isn't below its round. The server is 0.
    Body { server: ServerId },
    /// The first server whose signature doesn't verify.
    Signature { server: ServerId },
    NoMemory,
}

impl From<NoMemory> for CertFault {
    ghost from_gives = { λ _ e. e ≡ Refused };

    fn from(_: NoMemory) -> Self {
        CertFault::NoMemory
    }
}

impl From<AllocError> for CertFault {
    ghost from_gives = { λ _ e. e ≡ Refused };

    fn from(_: AllocError) -> Self {
        CertFault::NoMemory
    }
}

impl From<RecordFault> for CertFault {
    ghost use Rattle.std.specs.Prelude.{◌≡◌};
    ghost use Rattle.dn_cert.specs.Certificate.{refusal_of};

    ghost from_gives = { λ f e. e ≡ refusal_of f };

    fn from(fault: RecordFault) -> Self {
        match fault {
            RecordFault::NoMemory => CertFault::NoMemory,
            _ => CertFault::Form(fault),
        }
    }
}
