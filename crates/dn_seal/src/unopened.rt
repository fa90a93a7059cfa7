ghost use Rattle.std.specs.Prelude.{◌≡◌};
ghost use Rattle.dn_seal.specs.declared.unopened.Unopened.TheVariants.{NoMemory as Refused};

use dn_records::RecordFault;
use dn_wire::SignerId;
use std::alloc::AllocFailed;

/// Why an envelope doesn't unseal: the first of these that is so.
#[derive(Clone, Copy, Debug, PartialEq, Eq)]
pub enum Unopened {
    /// The bytes are no envelope. The fault is never `NoMemory`.
    Form(RecordFault),
    /// The signer isn't in the roster.
    Stranger { who: SignerId },
    /// The signature doesn't verify.
    Signature,
    NoMemory,
}

impl<T: Drop> From<AllocFailed<T>> for Unopened {
    ghost from_gives = { λ _ e. e ≡ Refused };

    fn from(_: AllocFailed<T>) -> Self {
        Unopened::NoMemory
    }
}
