// What a server says, and how its run ends.
ghost use Rattle.std.specs.Prelude.{◌≡◌, ◌<◌, ◌==◌, not, map, filter, length, ◌++◌, ◌∷◌, [], OnOk, IfOk};
ghost use Rattle.dn_bits.specs.Bits.{below};
ghost use Rattle.dn_lms.specs.Key.{leaf_count};
ghost use Rattle.dn_records.specs.Records.{payload_bytes};
ghost use Rattle.dn_record_types.specs.declared.payload.Payload.TheVariants as payloads;
ghost use Rattle.dn_seal.specs.Dealt.{server};
ghost use Rattle.dn_seal.specs.Signer.{CanSign};
ghost use Rattle.dn_server.specs.Identity.{said_at, posted_at, with_said};
ghost use Rattle.dn_server.specs.Server.{server_member};
ghost use Rattle.dn_server.specs.Parts.{at_end};

use crate::act::{Act, SpoilReason};
use crate::identity::Identity;
use crate::parts::Parts;
use dn_memory::NoMemory;
use dn_records::{Payload, Statement, encode_payload};
use dn_seal::Said;
use dn_wire::{Bytes, Member, MemberList, ServerId};
use std::alloc::Global;

/// The run of the round ends: nothing is set aside any more, and the window is shut.
pub fn end_run(parts: &mut Parts)
    ensures { parts.new ≡ at_end parts.old }
{
    parts.run.is_running = false;
    parts.run.window.close();
    parts.aside = 0;
}

/// The run ends by what server `j` did.
pub fn spoil(
    parts: &mut Parts,
    acts: &mut Vec<Act>,
    j: ServerId,
    reason: SpoilReason,
    kept: Vec<u8>,
    came: Vec<u8>,
) -> Result<(), NoMemory>
    ensures after { OnOk result (parts.new ≡ at_end parts.old) }
    ensures told { OnOk result (acts.new.items ≡ acts.old.items ++ Act.Spoiled j reason kept.items came.items ∷ []) }
{
    acts.push(Act::Spoiled {
        server: j,
        reason,
        kept: Bytes::of(kept),
        came: Bytes::of(came),
    })?;
    end_run(parts);
    Ok(())
}

/// The payload of an envelope.
pub fn plain_payload(alloc: Global, envelope: Vec<u8>) -> Result<Bytes, NoMemory>
    ensures { IfOk result (λ b. b ≡ payload_bytes (payloads.Plain envelope.items)) }
{
    let envelope = Bytes::of(envelope);
    let bytes = encode_payload(alloc, &Payload::Plain { envelope })?;
    Ok(Bytes::of(bytes))
}

/// All of `n` servers but one, by number.
pub fn other_servers(alloc: Global, own: ServerId, n: u32) -> Result<MemberList, NoMemory>
    ensures { IfOk result (λ l. l ≡ map server_member (filter (λ j. not (j == own.0)) (below n))) }
{
    let mut members = Vec::new(alloc);
    for j in 0..n {
        if j != own.0 {
            members.push(Member::Server(ServerId(j)))?;
        }
    }
    Ok(MemberList::of(members))
}

/// Signs a statement at the next leaf, and posts it to these members.
pub fn post(
    alloc: Global,
    identity: &mut Identity,
    acts: &mut Vec<Act>,
    to: MemberList,
    s: Statement,
) -> Result<(), NoMemory>
    requires leaf { length identity.old.signed < leaf_count identity.old.key }
    requires fits { CanSign (server identity.old.number) s }
    ensures after { OnOk result (identity.new ≡ with_said identity.old s) }
    ensures posted { OnOk result (acts.new.items ≡ acts.old.items ++ posted_at identity.old to s ∷ []) }
{
    let envelope = identity.seal(alloc, s)?;
    let payload = plain_payload(alloc, envelope)?;
    acts.push(Act::Post { to, payload })?;
    Ok(())
}

/// Signs a statement at the next leaf, posts it to these members, and gives what was said.
pub fn say(
    alloc: Global,
    identity: &mut Identity,
    acts: &mut Vec<Act>,
    to: MemberList,
    s: Statement,
) -> Result<Said, NoMemory>
    requires leaf { length identity.old.signed < leaf_count identity.old.key }
    requires fits { CanSign (server identity.old.number) s }
    ensures said { IfOk result (λ said. said ≡ said_at identity.old s) }
    ensures after { OnOk result (identity.new ≡ with_said identity.old s) }
    ensures posted { OnOk result (acts.new.items ≡ acts.old.items ++ posted_at identity.old to s ∷ []) }
{
    let said = identity.say(alloc, s)?;
    let envelope = Vec::from_slice(alloc, said.bytes())?;
    let payload = plain_payload(alloc, envelope)?;
    acts.push(Act::Post { to, payload })?;
    Ok(said)
}
