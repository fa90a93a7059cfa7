ghost use Rattle.std.specs.Prelude.{◌≡◌, ◌↔◌, ◌⊎◌, ◌<◌, ◌≤◌, ◌∷◌, ℕ, List, [], length, take, drop, slice_index_or, IfOk, IfErr, IsTrue, MatchResult};
ghost use Rattle.std.specs.Int.{w32, from_be_bytes};
ghost use Rattle.dn_records.specs.Part.{Gives};
ghost use Rattle.dn_records.specs.Records.{IsPayload, body_bytes, payload_bytes, statement_bytes};
ghost use Rattle.dn_record_types.specs.declared.body.Body.{Body};
ghost use Rattle.dn_record_types.specs.declared.payload.Payload.TheVariants as payloads;
ghost use Rattle.dn_roster.specs.Roster.{digest_of};
ghost use Rattle.dn_cert.specs.Certificate.{IsCertificate, IsCertificateUnder, IsOfRoster, digests_due, IsSigned, ArePartsRefused, IsRefused, FirstUnsigned, certificate_of};

use crate::certificate::Certificate;
use crate::fault::CertFault;
use dn_lms::verify;
use dn_memory::NoMemory;
use dn_records::{Body, ByteLists, Payload, RecordFault, Statement, decode_payload};
use dn_roster::Roster;
use dn_wire::{Bytes, ServerId, SignerId};
use std::alloc::Global;

/// The tag of a certificate's payload.
const TAG: u8 = 3;

/// The kind of a statement that signs a body.
const SIGN: u8 = 6;

/// The body and the signatures of a certificate's payload.
fn parts(alloc: Global, bytes: &[u8]) -> Result<(Body, ByteLists), RecordFault>
    ensures found { IfOk result (λ x. IsPayload (payloads.Certificate x.0 x.1)
        × (bytes.now ≡ payload_bytes (payloads.Certificate x.0 x.1))) }
    ensures exact { Gives result (certificate_of bytes.now) }
{
    let Some(tag) = bytes.first() else {
        return Err(RecordFault::Cut { at: 0 });
    };
    if *tag != TAG {
        return Err(RecordFault::Kind { byte: *tag });
    }
    let payload = match decode_payload(alloc, bytes) {
        Ok(payload) => payload,
        Err(fault) => return Err(fault),
    };
    match payload {
        Payload::Certificate { body, signatures } => Ok((body, signatures)),
        _ => unreachable!(),
    }
}

/// How many digests a body has in a group of so many servers.
fn digests_due(servers: u32, body: &Body) -> usize
    ensures { result ≡ digests_due servers body.now }
{
    if body.thin { 0 } else { servers as usize }
}

/// Whether a body is one that the roster's group may have.
fn is_in_group(roster: &Roster, body: &Body) -> bool
    ensures { IsTrue result ↔ IsOfRoster roster.now body.now }
{
    let clients = roster.clients();
    let servers = roster.servers();
    body.version == roster.version()
        && body.digests.get().len() == digests_due(servers, body)
        && body.prev < body.r
        && body
            .listed
            .get()
            .iter()
            .all(|l| l.client.0 < clients && l.server.0 < servers)
}

/// The public key of server `j`.
fn server_key(roster: &Roster, j: u32) -> &[u8]
    requires { j < length roster.now.servers }
    ensures key { result.now ≡ slice_index_or roster.now.servers j [] }
    ensures long { length result.now ≡ 56 }
{
    let Some(key) = roster.key(SignerId::Server(ServerId(j))) else {
        unreachable!()
    };
    key
}

/// The public keys of the servers.
pub(crate) fn server_keys(alloc: Global, roster: &Roster) -> Result<Vec<[u8; 56]>, NoMemory>
    ensures { IfOk result (λ keys. keys.items ≡ roster.now.servers) }
{
    let mut keys = Vec::new(alloc);
    for j in 0..roster.servers() {
        let mut key = [0; 56];
        key.copy_from_slice(server_key(roster, j));
        keys.push(key)?;
    }
    Ok(keys)
}

/// How many bytes a body has that stands in a certificate's payload.
fn body_length(bytes: &[u8]) -> u32
    requires { 5 ≤ length bytes.now }
    ensures { result ≡ from_be_bytes w32 (take 4 (drop 1 bytes.now)) }
{
    let mut number = [0; 4];
    number.copy_from_slice(&bytes[1..5]);
    u32::from_be_bytes(number)
}

/// The bytes of the body in a certificate's payload, which stand behind the tag and their number.
fn body_part<'a>(bytes: &'a [u8], body: &Body, signatures: &[Bytes]) -> &'a [u8]
    requires fits { IsPayload (payloads.Certificate body.now signatures.now) }
    requires spelled { bytes.now ≡ payload_bytes (payloads.Certificate body.now signatures.now) }
    ensures { result.now ≡ body_bytes body.now }
{
    let end = 5 + body_length(bytes) as usize;
    &bytes[5..end]
}

/// The kind of a statement that signs a body, and behind it the body's bytes.
fn behind_kind(alloc: Global, body: &[u8]) -> Result<Vec<u8>, NoMemory>
    ensures { IfOk result (λ v. v.items ≡ SIGN ∷ body.now) }
{
    let mut statement = Vec::with_capacity(alloc, body.len().saturating_add(1))?;
    statement.push(SIGN)?;
    statement.extend_from_slice(body)?;
    Ok(statement)
}

/// The bytes of a server's statement that signs the body in a certificate's payload.
fn sign_bytes(
    alloc: Global,
    bytes: &[u8],
    body: &Body,
    signatures: &[Bytes],
) -> Result<Vec<u8>, NoMemory>
    requires fits { IsPayload (payloads.Certificate body.now signatures.now) }
    requires spelled { bytes.now ≡ payload_bytes (payloads.Certificate body.now signatures.now) }
    ensures { IfOk result (λ v. v.items ≡ statement_bytes (Statement.Sign body.now)) }
{
    behind_kind(alloc, body_part(bytes, body, signatures))
}

/// The first server whose signature of the body doesn't verify.
fn first_unsigned(
    alloc: Global,
    roster: &Roster,
    bytes: &[u8],
    body: &Body,
    signatures: &[Bytes],
) -> Result<Option<ServerId>, NoMemory>
    requires fits { IsPayload (payloads.Certificate body.now signatures.now) }
    requires spelled { bytes.now ≡ payload_bytes (payloads.Certificate body.now signatures.now) }
    requires each { length signatures.now ≡ length roster.now.servers }
    ensures { IfOk result (FirstUnsigned roster.now body.now signatures.now) }
{
    let statement = sign_bytes(alloc, bytes, body, signatures)?;
    for j in 0..roster.servers() {
        let server = ServerId(j);
        let signed = roster.signed_bytes(alloc, SignerId::Server(server), &statement)?;
        if !verify(server_key(roster, j), &signed, signatures[j as usize].get()) {
            return Ok(Some(server));
        }
    }
    Ok(None)
}

/// The certificate of a body and signatures that the bytes of a payload carry. The refusals come in the order of `CertFault`.
pub(crate) fn certified(
    alloc: Global,
    roster: &Roster,
    bytes: &[u8],
    body: Body,
    signatures: &[Bytes],
) -> Result<Certificate, CertFault>
    requires fits { IsPayload (payloads.Certificate body signatures.now) }
    requires spelled { bytes.now ≡ payload_bytes (payloads.Certificate body signatures.now) }
    ensures certificate { IfOk result (λ c. IsCertificate c × IsCertificateUnder roster.now c × (c.bytes ≡ bytes.now) × (c.body ≡ body)) }
    ensures refused { IfErr result (λ f. (f ≡ CertFault.NoMemory) ⊎ ArePartsRefused roster.now body signatures.now f) }
{
    let count = signatures.len();
    let servers = roster.servers();
    if count != servers as usize {
        let server = ServerId(count.min(servers as usize) as u32);
        return Err(CertFault::Missing { server });
    }
    if !is_in_group(roster, &body) {
        return Err(CertFault::Body {
            server: ServerId(0),
        });
    }
    if let Some(server) = first_unsigned(alloc, roster, bytes, &body, signatures)? {
        return Err(CertFault::Signature { server });
    }
    let keys = server_keys(alloc, roster)?;
    let kept = Vec::from_slice(alloc, bytes)?;
    Ok(Certificate::of(roster.digest(), roster.clients(), keys, body, kept))
}

/// The certificate that the bytes of a payload are: its body, with one signature from each server of the roster, which
/// verifies on the server's `Sign` of the body. The refusals come in the order of `CertFault`.
pub fn check(alloc: Global, roster: &Roster, bytes: &[u8]) -> Result<Certificate, CertFault>
    ensures certificate { IfOk result (λ c. IsCertificate c × IsCertificateUnder roster.now c × (c.bytes ≡ bytes.now)) }
    ensures refused { IfErr result (IsRefused roster.now bytes.now) }
    // What every server signed is accepted, but for want of memory.
    ensures signed { (body : Body) → (signatures : List (List ℕ)) → IsSigned (digest_of roster.now) roster.now.version (length roster.now.clients) roster.now.servers body signatures
        → bytes.now ≡ payload_bytes (payloads.Certificate body signatures)
        → MatchResult result (λ c. c.body ≡ body) (λ f. f ≡ CertFault.NoMemory) }
{
    let (body, signatures) = match parts(alloc, bytes) {
        Ok(parts) => parts,
        Err(fault) => return Err(CertFault::from(fault)),
    };
    certified(alloc, roster, bytes, body, signatures.get())
}
