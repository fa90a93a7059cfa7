// How a server certifies its round.
ghost use Rattle.std.specs.Prelude.{◌≡◌, ◌<◌, ◌≤◌, ◌==◌, ◌++◌, ◌∷◌, [], ℕ, List, not, map, filter, length, All, IfOk, OnOk, Some, IsSome};
ghost use Rattle.dn_bits.specs.Bits.{below};
ghost use Rattle.dn_records.specs.Records.{IsPayload};
ghost use Rattle.dn_record_types.specs.declared.payload.Payload.TheVariants as payloads;
ghost use Rattle.dn_cert.specs.Certificate.{IsOfRoster};
ghost use Rattle.dn_cert.specs.Chain.{CanFollow, with_held};
ghost use Rattle.dn_rounds.specs.Going.{IsCertificateOf, certified};
ghost use Rattle.dn_server.specs.Parts.{live};
ghost use Rattle.dn_rounds.specs.Sound.{AreSound, Stepped};
ghost use Rattle.dn_record_types.specs.declared.body.Body.{Body as BodyOf};
ghost use Rattle.dn_record_types.specs.declared.statement.Statement.TheVariants as kinds;
ghost use Rattle.dn_roster.specs.Roster.{RosterView};
ghost use Rattle.dn_seal.specs.Said.{IsSaid, IsUnder};
ghost use Rattle.dn_server.specs.Server.{kept_of, statement_of, servers_in, everyone_of, client_member, server_member};
ghost use Rattle.dn_rounds.specs.Certifying.{IsSignatureBy, AreSignatures, IsCertifiable};

use crate::gathering::body_by;
use dn_cert::{Certificate, HoldFault, certify};
use dn_memory::NoMemory;
use dn_records::{Body, ByteLists};
use dn_roster::Roster;
use dn_server::{Act, Kept, Parts, RoundKind, Stage, end_run, other_servers};
use dn_wire::{Bytes, ClientId, Member, MemberList, ServerId};
use std::alloc::Global;

/// The signature of server `j` on the body.
fn signature_by(
    alloc: Global,
    _roster: &Roster,
    kept: &Kept,
    _b: &Body,
    j: ServerId,
) -> Result<Bytes, NoMemory>
    requires signs { statement_of kept.now 6 j.0 ≡ Some (kinds.Sign _b.now) }
    requires under { All (IsUnder _roster.now) kept.now }
    ensures { IfOk result (IsSignatureBy _roster.now kept.now _b.now j.0) }
{
    let Some(said) = kept.of(RoundKind::Sign, j) else {
        unreachable!()
    };
    Ok(Bytes::of(Vec::from_slice(alloc, said.signature())?))
}

/// The signatures of `n` servers on the body.
fn signatures(
    alloc: Global,
    roster: &Roster,
    kept: &Kept,
    b: &Body,
    n: u32,
) -> Result<Vec<Bytes>, NoMemory>
    requires signs { (j : ℕ) → j < n → statement_of kept.now 6 j ≡ Some (kinds.Sign b.now) }
    requires under { All (IsUnder roster.now) kept.now }
    ensures { IfOk result (λ v. AreSignatures roster.now kept.now b.now n v.items) }
{
    let mut all = Vec::new(alloc);
    for j in 0..n {
        let signature = signature_by(alloc, roster, kept, b, ServerId(j))?;
        all.push(signature)?;
    }
    Ok(all)
}

/// The certificate of a body that all servers signed.
fn certificate(parts: &Parts, b: &Body) -> Result<Certificate, NoMemory>
    requires signs { (j : ℕ) → j < servers_in (live parts.now) → statement_of parts.now.run.kept 6 j ≡ Some (kinds.Sign b.now) }
    requires sound { AreSound (live parts.now) parts.now.run.kept }
    requires group { IsOfRoster parts.now.identity.roster b.now }
    requires fits { (signatures : List (List ℕ)) → AreSignatures parts.now.identity.roster parts.now.run.kept b.now (servers_in (live parts.now)) signatures
        → IsPayload (payloads.Certificate b.now signatures) }
    ensures { IfOk result (IsCertificateOf (live parts.now) b.now) }
{
    let alloc = parts.alloc;
    let roster = parts.identity.roster();
    let signatures = signatures(alloc, roster, &parts.run.kept, b, roster.servers())?;
    certify(alloc, roster, b.copy(alloc)?, ByteLists::of(signatures))
}

/// All clients and the other servers, each by number.
fn everyone(
    alloc: Global,
    clients: u32,
    own: ServerId,
    servers: u32,
) -> Result<MemberList, NoMemory>
    ensures { IfOk result (λ l. l ≡ map client_member (below clients) ++ map server_member (filter (λ j. not (j == own.0)) (below servers))) }
{
    let mut members = Vec::new(alloc);
    for i in 0..clients {
        members.push(Member::Client(ClientId(i)))?;
    }
    let others = other_servers(alloc, own, servers)?;
    members.extend_from_slice(others.get())?;
    Ok(MemberList::of(members))
}

/// The only reason why a certificate that can follow isn't held.
fn only_memory(_fault: HoldFault) -> NoMemory
    requires { _fault ≡ HoldFault.NoMemory }
{
    NoMemory
}

/// Holds a certificate that can follow.
fn hold(parts: &mut Parts, c: Certificate) -> Result<(), NoMemory>
    requires { CanFollow parts.old.chain c.body }
    ensures { OnOk result (parts.new ≡ record parts.old { chain = record parts.old.chain { held = with_held c.body parts.old.chain.held } }) }
{
    match parts.chain.hold(parts.alloc, c) {
        Ok(()) => Ok(()),
        Err(fault) => Err(only_memory(fault)),
    }
}

/// The round is certified: the certificate is held and put to everyone, and the run ends.
fn announce(parts: &mut Parts, acts: &mut Vec<Act>, c: Certificate) -> Result<(), NoMemory>
    requires { CanFollow parts.old.chain c.body }
    ensures after { OnOk result (live parts.new ≡ certified (live parts.old) c) }
    ensures told { OnOk result (acts.new.items ≡ acts.old.items ++ (Act.Certified c ∷ Act.Post (everyone_of (live parts.old).seat) c.bytes ∷ [])) }
{
    let alloc = parts.alloc;
    let roster = parts.identity.roster();
    let to = everyone(
        alloc,
        roster.clients(),
        parts.identity.number(),
        roster.servers(),
    )?;
    let payload = Bytes::of(Vec::from_slice(alloc, c.bytes())?);
    acts.push(Act::Certified(c.copy(alloc)?))?;
    acts.push(Act::Post { to, payload })?;
    hold(parts, c)?;
    end_run(parts);
    Ok(())
}

/// With all servers' signatures of the body that the server signed, the round is certified.
pub(crate) fn certify_round(parts: &mut Parts, acts: &mut Vec<Act>) -> Result<bool, NoMemory>
    requires stage { parts.old.run.stage ≡ Stage.Signed }
    requires sound { AreSound (live parts.old) parts.old.run.kept }
    requires own { IsSome (kept_of parts.old.run.kept 6 parts.old.identity.number) }
    requires ready { (b : BodyOf) → statement_of parts.old.run.kept 6 parts.old.identity.number ≡ Some (kinds.Sign b) → IsCertifiable parts.old b }
    ensures { IfOk result (Stepped parts.old parts.new acts.old.items acts.new.items) }
{
    let n = parts.identity.roster().servers();
    if !parts.run.kept.is_full(RoundKind::Sign, n) {
        return Ok(false);
    }
    let body = body_by(&parts.run.kept, parts.identity.number()).copy(parts.alloc)?;
    let certificate = certificate(parts, &body)?;
    announce(parts, acts, certificate)?;
    Ok(true)
}
