ghost use Rattle.std.specs.Prelude.{IfOk};
ghost use Rattle.dn_payloads.specs.Payloads.{IsContent};

use dn_cert::{Opened, PayloadFault, open_payload};
use dn_memory::NoMemory;
use dn_roster::Roster;
use std::alloc::Global;

/// What the bytes of a payload open to.
#[derive(Drop)]
pub enum Content {
    /// All that it carries; every signature in it verified.
    Opened(Opened),
    /// The bytes are no payload, or carry what no member of the group could have sent.
    Form,
    /// The signer of an envelope isn't in the roster.
    Stranger,
    /// A signature doesn't verify.
    Signature,
}

/// What the bytes open to under the roster.
pub fn content_of(alloc: Global, roster: &Roster, bytes: &[u8]) -> Result<Content, NoMemory>
    ensures { IfOk result (IsContent roster.now bytes.now) }
{
    match open_payload(alloc, roster, bytes) {
        Ok(opened) => Ok(Content::Opened(opened)),
        Err(PayloadFault::Form) => Ok(Content::Form),
        Err(PayloadFault::Stranger) => Ok(Content::Stranger),
        Err(PayloadFault::Signature) => Ok(Content::Signature),
        Err(PayloadFault::NoMemory) => Err(NoMemory),
    }
}
