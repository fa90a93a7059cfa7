// What servers are made to sign beside the rules.
ghost use Rattle.dn_seal.specs.Dealt.{server};
ghost use Rattle.dn_seal.specs.Signer.{CanSign};

use crate::delivering::plain_payload;
use dn_exchange::ServerCore;
use dn_records::Statement;
use dn_wire::{Bytes, Round};
use played_rounds::PlayFault;
use std::alloc::Global;

/// The commitment of a server to a ciphertext with this digest.
fn commit(_own: u32, r: u64, digest: [u8; 32]) -> Statement
    ensures { CanSign (server _own) result }
{
    Statement::Commit {
        r: Round(r),
        digest,
    }
}

/// The payload of a commitment that a server is made to sign.
pub fn signed_commit(
    alloc: Global,
    core: &mut ServerCore,
    r: u64,
    digest: [u8; 32],
) -> Result<Bytes, PlayFault> {
    let statement = commit(core.number().0, r, digest);
    match core.sign(&statement) {
        Ok(envelope) => plain_payload(alloc, envelope),
        Err(_) => Err(PlayFault::Unfit),
    }
}
