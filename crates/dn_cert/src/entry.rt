ghost use Rattle.std.specs.Prelude.{◌≡◌, ◌↔◌, IfOk, IsTrue};
ghost use Rattle.dn_records.specs.Records.{IsStatement};
ghost use Rattle.dn_cert.specs.Signed.{EntryVerifies};

use dn_lms::verify;
use dn_memory::NoMemory;
use dn_records::{Entry, Statement, encode};
use dn_roster::Roster;
use dn_wire::{ClientId, Round, SignerId};
use std::alloc::Global;

/// The submission with these fields, which keeps the limits of its format.
fn submission(r: u64, prev: u64, client: u32, digest: [u8; 32]) -> Statement
    ensures value { result ≡ Statement.Submission record { 0 = r } record { 0 = prev } record { 0 = client } digest }
    ensures fits { IsStatement result }
{
    Statement::Submission {
        r: Round(r),
        prev: Round(prev),
        client: ClientId(client),
        digest,
    }
}

/// Whether the client of an inventory's entry is in the roster, and signed a submission of round `r` after round `prev` with
/// the entry's digest.
pub fn entry_verifies(
    alloc: Global,
    roster: &Roster,
    r: Round,
    prev: Round,
    e: &Entry,
) -> Result<bool, NoMemory>
    ensures { IfOk result (λ b. IsTrue b ↔ EntryVerifies roster.now r prev e.now) }
{
    let signer = SignerId::Client(e.client);
    let Some(key) = roster.key(signer) else {
        return Ok(false);
    };
    let submission = submission(r.0, prev.0, e.client.0, e.digest);
    let statement = encode(alloc, &submission)?;
    let signed = roster.signed_bytes(alloc, signer, &statement)?;
    Ok(verify(key, &signed, e.signature.get()))
}
