ghost use Rattle.std.specs.Prelude.{◌≡◌, ℕ, List, length, IfOk};
ghost use Rattle.dn_records.specs.Records.{IsPayload, payload_bytes};
ghost use Rattle.dn_record_types.specs.declared.body.Body.{Body as BodyOf};
ghost use Rattle.dn_record_types.specs.declared.payload.Payload.TheVariants as payloads;
ghost use Rattle.dn_roster.specs.Roster.{digest_of};
ghost use Rattle.dn_cert.specs.Certificate.{IsCertificate, IsCertificateUnder, IsSigned};

use crate::certificate::Certificate;
use crate::checking::server_keys;
use dn_memory::NoMemory;
use dn_records::{Body, ByteLists, Payload, encode_payload};
use dn_roster::Roster;
use std::alloc::Global;

/// The body of a certificate's payload.
fn body_of(payload: Payload) -> Body
    requires { (b : BodyOf) × (signatures : List (List ℕ)) × (payload ≡ payloads.Certificate b signatures) }
    ensures { (b : BodyOf) (signatures : List (List ℕ)) → payload ≡ payloads.Certificate b signatures → result ≡ b }
{
    match payload {
        Payload::Certificate {
            body,
            signatures: _signatures,
        } => body,
        _ => unreachable!(),
    }
}

/// The bytes of a certificate's payload, and its body.
fn spelled(alloc: Global, body: Body, signatures: ByteLists) -> Result<(Body, Vec<u8>), NoMemory>
    requires { IsPayload (payloads.Certificate body signatures) }
    ensures { IfOk result (λ x. (x.0 ≡ body) × (x.1.items ≡ payload_bytes (payloads.Certificate body signatures))) }
{
    let payload = Payload::Certificate { body, signatures };
    let bytes = encode_payload(alloc, &payload)?;
    Ok((body_of(payload), bytes))
}

/// The certificate of a body that every server of the roster signed, from their signatures by server. They are known to verify, and
/// aren't verified again.
pub fn certify(
    alloc: Global,
    roster: &Roster,
    body: Body,
    signatures: ByteLists,
) -> Result<Certificate, NoMemory>
    requires { IsSigned (digest_of roster.now) roster.now.version (length roster.now.clients) roster.now.servers body signatures }
    ensures certificate { IfOk result (λ c. IsCertificate c × IsCertificateUnder roster.now c) }
    ensures parts { IfOk result (λ c. (c.body ≡ body) × (c.bytes ≡ payload_bytes (payloads.Certificate body signatures))) }
{
    let keys = server_keys(alloc, roster)?;
    let (body, bytes) = spelled(alloc, body, signatures)?;
    Ok(Certificate::of(roster.digest(), roster.clients(), keys, body, bytes))
}
