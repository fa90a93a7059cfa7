ghost use Rattle.std.specs.Prelude.{◌≡◌, ◌⊎◌, ◌↔◌, Ok, IfOk, IfErr, IsTrue, MatchResult, ⊤};
ghost use Rattle.dn_records.specs.Records.{payload_bytes, payload_of, IsPayload};
ghost use Rattle.dn_record_types.specs.declared.payload.Payload.{Payload};
ghost use Rattle.dn_record_types.specs.declared.payload.Payload.TheVariants as payloads;
ghost use Rattle.dn_seal.specs.Challenge.{IsChallenge};
ghost use Rattle.dn_cert.specs.declared.opened.Opened.{Opened};
ghost use Rattle.dn_cert.specs.Opening.{IsSubmission, IsOpened, IsClosed, IsNoPayload, IsUnopenedPayload};

use crate::checking::certified;
use crate::opened::Opened;
use crate::payload_fault::PayloadFault;
use dn_bits::Bits;
use dn_records::{Payload, RecordFault, Statement, decode_payload};
use dn_roster::Roster;
use dn_seal::{Challenge, unseal};
use std::alloc::Global;

/// Whether a statement is a submission.
fn is_submission(statement: &Statement) -> bool
    ensures { IsTrue result ↔ IsSubmission statement.now }
{
    matches!(statement, Statement::Submission { .. })
}

/// Opens a ciphertext and the envelope of its submission.
fn open_submission(
    alloc: Global,
    roster: &Roster,
    cipher: Bits,
    envelope: &[u8],
) -> Result<Opened, PayloadFault>
    requires { IsPayload (payloads.Submission cipher envelope.now) }
    ensures opened { IfOk result (IsOpened roster.now (payloads.Submission cipher envelope.now)) }
    ensures closed { IfErr result (λ f. (f ≡ PayloadFault.NoMemory) ⊎ IsClosed roster.now (payloads.Submission cipher envelope.now) f) }
{
    let said = unseal(alloc, roster, envelope)?;
    if !is_submission(said.statement()) {
        return Err(PayloadFault::Form);
    }
    Ok(Opened::Submission { cipher, said })
}

/// Opens the one envelope of a payload.
fn open_plain(alloc: Global, roster: &Roster, envelope: &[u8]) -> Result<Opened, PayloadFault>
    ensures opened { IfOk result (IsOpened roster.now (payloads.Plain envelope.now)) }
    ensures closed { IfErr result (λ f. (f ≡ PayloadFault.NoMemory) ⊎ IsClosed roster.now (payloads.Plain envelope.now) f) }
{
    let said = unseal(alloc, roster, envelope)?;
    Ok(Opened::Plain { said })
}

/// Opens the envelopes of a challenge.
fn open_challenge(alloc: Global, roster: &Roster, payload: &Payload) -> Result<Opened, PayloadFault>
    requires { IsChallenge payload.now }
    ensures opened { IfOk result (IsOpened roster.now payload.now) }
    ensures closed { IfErr result (λ f. (f ≡ PayloadFault.NoMemory) ⊎ IsClosed roster.now payload.now f) }
{
    let challenge = Challenge::open(alloc, roster, payload)?;
    Ok(Opened::Challenge { challenge })
}

/// The payload that the bytes are.
fn read_payload(alloc: Global, bytes: &[u8]) -> Result<Payload, PayloadFault>
    ensures found { IfOk result (λ p. IsPayload p × (bytes.now ≡ payload_bytes p) × (payload_of bytes.now ≡ Ok p)) }
    ensures none { IfErr result (λ f. (f ≡ PayloadFault.NoMemory) ⊎ (IsNoPayload bytes.now × (f ≡ PayloadFault.Form))) }
{
    match decode_payload(alloc, bytes) {
        Ok(payload) => Ok(payload),
        Err(fault) => match fault {
            RecordFault::NoMemory => Err(PayloadFault::NoMemory),
            _ => Err(PayloadFault::Form),
        },
    }
}

/// Opens a payload that the bytes are.
fn open_parts(
    alloc: Global,
    roster: &Roster,
    bytes: &[u8],
    payload: Payload,
) -> Result<Opened, PayloadFault>
    requires { IsPayload payload × (bytes.now ≡ payload_bytes payload) }
    ensures opened { IfOk result (IsOpened roster.now payload) }
    ensures closed { IfErr result (λ f. (f ≡ PayloadFault.NoMemory) ⊎ IsClosed roster.now payload f) }
{
    match payload {
        Payload::Submission { cipher, envelope } => {
            open_submission(alloc, roster, cipher, envelope.get())
        }
        Payload::Plain { envelope } => open_plain(alloc, roster, envelope.get()),
        Payload::Certificate { body, signatures } => {
            let certificate = certified(alloc, roster, bytes, body, signatures.get())?;
            Ok(Opened::Certificate { certificate })
        }
        Payload::Challenge { r, k, envelopes } => {
            open_challenge(alloc, roster, &Payload::Challenge { r, k, envelopes })
        }
    }
}

/// Opens the payload that the bytes are, or says why it doesn't open.
fn open_bytes(alloc: Global, roster: &Roster, bytes: &[u8]) -> Result<Opened, PayloadFault>
    ensures opened { IfOk result (λ x. (p : Payload) × IsPayload p × (bytes.now ≡ payload_bytes p) × IsOpened roster.now p x) }
    ensures unopened { IfErr result (IsUnopenedPayload roster.now bytes.now) }
{
    let payload = read_payload(alloc, bytes)?;
    open_parts(alloc, roster, bytes, payload)
}

/// Opens all that a payload carries. A certificate is one that `check` accepts, and a ciphertext comes with its submission. The refusal
/// is that of the first envelope that doesn't unseal.
pub fn open_payload(alloc: Global, roster: &Roster, bytes: &[u8]) -> Result<Opened, PayloadFault>
    ensures opened { IfOk result (λ x. (p : Payload) × IsPayload p × (bytes.now ≡ payload_bytes p) × IsOpened roster.now p x) }
    ensures unopened { IfErr result (IsUnopenedPayload roster.now bytes.now) }
    // What can be opened opens, but for want of memory.
    ensures opens { (p : Payload) → (x : Opened) → IsPayload p → bytes.now ≡ payload_bytes p → IsOpened roster.now p x
        → MatchResult result (λ _. ⊤) (λ f. f ≡ PayloadFault.NoMemory) }
{
    open_bytes(alloc, roster, bytes)
}
