// How a server takes submissions.
ghost use Rattle.std.specs.Prelude.{◌≡◌, ◌<◌, ◌+◌, ◌↔◌, IsTrue, IfOk, MatchOption, length, false};
ghost use Rattle.dn_bits.specs.Bits.{bytes_of};
ghost use Rattle.dn_hash.specs.Digests.{cipher_digest_of};
ghost use Rattle.dn_lms.specs.Key.{leaf_count};
ghost use Rattle.dn_record_types.specs.declared.statement.Statement.TheVariants as kinds;
ghost use Rattle.dn_wire.specs.declared.ids.SignerId.TheVariants as signers;
ghost use Rattle.dn_seal.specs.Dealt.{server};
ghost use Rattle.dn_seal.specs.Said.{IsSaid, IsUnder};
ghost use Rattle.dn_seal.specs.Signer.{CanSign};
ghost use Rattle.dn_window.specs.Window.{clients_of, has_of};
ghost use Rattle.dn_exchange.specs.Submitting.{Submitted, IsRefused, IsFitting, IsSubmission, HasClaimed, Submits, TakesSubmission, word_for, told_for};
ghost use Rattle.dn_server.specs.Parts.{live};

use dn_bits::Bits;
use dn_hash::cipher_digest;
use dn_memory::NoMemory;
use dn_records::{Statement, WordTold};
use dn_seal::Said;
use dn_server::{Act, Acts, Answer, Claim, Parts, Reason, Run, does_one, post};
use dn_told::WindowTold;
use dn_wire::{Bytes, ClientId, Member, MemberList, Round, SignerId};
use std::alloc::Global;

/// Whether the digest is that of the ciphertext, which client `i` gives to round `r`.
fn has_digest(
    alloc: Global,
    r: Round,
    i: ClientId,
    digest: &[u8; 32],
    cipher: &Bits,
) -> Result<bool, NoMemory>
    ensures { IfOk result (λ b. IsTrue b ↔ (digest.now ≡ cipher_digest_of r.0 i.0 (bytes_of cipher.now))) }
{
    let mut bytes = Vec::new(alloc);
    cipher.write_bytes(alloc, &mut bytes)?;
    Ok(*digest == cipher_digest(r.0, i.0, &bytes))
}

/// Why a submission isn't taken in the round that was opened last.
fn refusal(
    alloc: Global,
    run: &Run,
    who: SignerId,
    r: Round,
    prev: Round,
    client: ClientId,
    digest: &[u8; 32],
    _signature: &[u8],
    cipher: &Bits,
) -> Result<Option<Answer>, NoMemory>
    ensures { let s : Submitted = record { who = who; r = r; prev = prev; client = client; digest = digest.now; signature = _signature.now; cipher = cipher.now } in
        IfOk result (λ o. MatchOption o (IsFitting run.now s) (IsRefused run.now s)) }
{
    if run.r.0 < r.0 {
        return Ok(Some(Answer::Early));
    }
    let reason = if r.0 < run.r.0 || r.0 == 0 {
        Reason::Old
    } else if who != SignerId::Client(client) {
        Reason::Key
    } else if prev != run.prev {
        Reason::Prev
    } else if cipher.len() != run.bits {
        Reason::Length
    } else if !has_digest(alloc, r, client, digest, cipher)? {
        Reason::Digest
    } else {
        return Ok(None);
    };
    Ok(Some(Answer::Ignored(reason)))
}

/// What a receipt says, where the window is closed or not.
fn word(is_closed: bool) -> WordTold
    ensures { result ≡ word_for is_closed }
{
    if is_closed {
        WordTold::Late
    } else {
        WordTold::Included
    }
}

/// The same word, as the window's.
fn told(is_closed: bool) -> WindowTold
    ensures { result ≡ told_for is_closed }
{
    if is_closed {
        WindowTold::Late
    } else {
        WindowTold::Included
    }
}

/// The receipt of server `own` for client `i` in round `r`.
fn receipt(_own: u32, r: u64, i: u32, digest: [u8; 32], told: WordTold) -> Statement
    ensures value { result ≡ kinds.Receipt record { 0 = r } record { 0 = i } digest told }
    ensures fits { CanSign (server _own) result }
{
    Statement::Receipt {
        r: Round(r),
        client: ClientId(i),
        digest,
        told,
    }
}

/// Claims the client's place, and gives the client a signed receipt.
fn claim(
    parts: &mut Parts,
    client: ClientId,
    digest: [u8; 32],
    signature: &[u8],
    cipher: &Bits,
) -> Result<Answer, NoMemory>
    requires window { client.0 < clients_of parts.old.run.window }
    requires claims { client.0 < length parts.old.run.claims }
    requires leaf { length parts.old.identity.signed < leaf_count parts.old.identity.key }
    ensures { IfOk result (λ a. HasClaimed (live parts.old) client digest signature.now cipher.now a (live parts.new)) }
{
    let alloc = parts.alloc;
    let r = parts.run.r;
    let is_closed = parts.run.window.is_closed();
    let claim = Claim {
        told: word(is_closed),
        digest,
        signature: Bytes::of(Vec::from_slice(alloc, signature)?),
        cipher: cipher.copy(alloc)?,
    };
    parts.run.window.submit(client);
    parts.run.claims.set(client, claim);
    let mut acts = Vec::new(alloc);
    acts.push(Act::Told {
        client,
        r,
        told: told(is_closed),
    })?;
    let mut to = Vec::new(alloc);
    to.push(Member::Client(client))?;
    let receipt = receipt(
        parts.identity.number().0,
        r.0,
        client.0,
        digest,
        word(is_closed),
    );
    post(
        alloc,
        &mut parts.identity,
        &mut acts,
        MemberList::of(to),
        receipt,
    )?;
    Ok(Answer::Acts(Acts::of(acts)))
}

/// Takes a submission of these fields.
fn take(
    parts: &mut Parts,
    who: SignerId,
    r: Round,
    prev: Round,
    client: ClientId,
    digest: [u8; 32],
    signature: &[u8],
    cipher: &Bits,
) -> Result<Answer, NoMemory>
    requires window { who ≡ signers.Client client → client.0 < clients_of parts.old.run.window }
    requires claims { who ≡ signers.Client client → client.0 < length parts.old.run.claims }
    ensures { let s : Submitted = record { who = who; r = r; prev = prev; client = client; digest = digest; signature = signature.now; cipher = cipher.now } in
        IfOk result (λ a. Submits (live parts.old) s a (live parts.new)) }
{
    let alloc = parts.alloc;
    if let Some(answer) = refusal(
        alloc, &parts.run, who, r, prev, client, &digest, signature, cipher,
    )? {
        return Ok(answer);
    }
    if parts.run.window.has(client) {
        return does_one(
            alloc,
            Act::Told {
                client,
                r,
                told: WindowTold::Repeat,
            },
        );
    }
    if parts.identity.left() <= parts.aside {
        return Ok(Answer::Ignored(Reason::Spent));
    }
    claim(parts, client, digest, signature, cipher)
}

/// Takes a client's submission, with its ciphertext.
pub(crate) fn submitted(parts: &mut Parts, said: &Said, cipher: &Bits) -> Result<Answer, NoMemory>
    requires submission { IsSubmission said.now.statement }
    requires under { IsUnder parts.old.identity.roster said.now }
    requires window { clients_of parts.old.run.window ≡ length parts.old.identity.roster.clients }
    requires claims { length parts.old.run.claims ≡ length parts.old.identity.roster.clients }
    ensures takes { IfOk result (λ a. TakesSubmission (live parts.old) said.now cipher.now a (live parts.new)) }
    ensures said { IsSaid said.now }
{
    let Statement::Submission {
        r,
        prev,
        client,
        digest,
    } = said.statement()
    else {
        unreachable!()
    };
    take(
        parts,
        said.signer(),
        *r,
        *prev,
        *client,
        *digest,
        said.signature(),
        cipher,
    )
}
