// Copies and comparisons of statements.

ghost use Rattle.std.specs.Prelude.{◌≡◌, ◌↔◌, IfOk, IsTrue};
ghost use Rattle.dn_record_types.specs.declared.statement.Statement.TheVariants as kinds;

use crate::body::Body;
use crate::envelope::Envelope;
use crate::inventory::Inventory;
use crate::shown::Shows;
use crate::statement::{Statement, WordTold};
use dn_bits::Bits;
use dn_memory::NoMemory;
use dn_wire::{Bytes, ClientId, Round, ServerId, SlotId};
use std::alloc::Global;

fn is_submission(
    statement: &Statement,
    r: Round,
    prev: Round,
    client: ClientId,
    digest: &[u8; 32],
) -> bool
    ensures { IsTrue result ↔ (statement.now ≡ kinds.Submission r prev client digest.now) }
{
    match statement {
        Statement::Submission {
            r: its_r,
            prev: its_prev,
            client: its_client,
            digest: its_digest,
        } => *its_r == r && *its_prev == prev && *its_client == client && its_digest == digest,
        _ => false,
    }
}

fn is_receipt(
    statement: &Statement,
    r: Round,
    client: ClientId,
    digest: &[u8; 32],
    told: WordTold,
) -> bool
    ensures { IsTrue result ↔ (statement.now ≡ kinds.Receipt r client digest.now told) }
{
    match statement {
        Statement::Receipt {
            r: its_r,
            client: its_client,
            digest: its_digest,
            told: its_told,
        } => *its_r == r && *its_client == client && its_digest == digest && *its_told == told,
        _ => false,
    }
}

fn is_inventory(statement: &Statement, value: &Inventory) -> bool
    ensures { IsTrue result ↔ (statement.now ≡ kinds.Inventory value.now) }
{
    match statement {
        Statement::Inventory(other) => other.equals(value),
        _ => false,
    }
}

fn is_commit(statement: &Statement, r: Round, digest: &[u8; 32]) -> bool
    ensures { IsTrue result ↔ (statement.now ≡ kinds.Commit r digest.now) }
{
    match statement {
        Statement::Commit {
            r: its_r,
            digest: its_digest,
        } => *its_r == r && its_digest == digest,
        _ => false,
    }
}

fn is_reveal(statement: &Statement, r: Round, s: &Bits) -> bool
    ensures { IsTrue result ↔ (statement.now ≡ kinds.Reveal r s.now) }
{
    match statement {
        Statement::Reveal { r: its_r, s: its_s } => *its_r == r && its_s.equals(s),
        _ => false,
    }
}

fn is_sign(statement: &Statement, value: &Body) -> bool
    ensures { IsTrue result ↔ (statement.now ≡ kinds.Sign value.now) }
{
    match statement {
        Statement::Sign(other) => other.equals(value),
        _ => false,
    }
}

fn is_pad_bits(statement: &Statement, r: Round, k: u32, bits: &Bits) -> bool
    ensures { IsTrue result ↔ (statement.now ≡ kinds.PadBits r k bits.now) }
{
    match statement {
        Statement::PadBits {
            r: its_r,
            k: its_k,
            bits: its_bits,
        } => *its_r == r && *its_k == k && its_bits.equals(bits),
        _ => false,
    }
}

fn is_shown(statement: &Statement, r: Round, s: &Bits, shown: &Shows) -> bool
    ensures { IsTrue result ↔ (statement.now ≡ kinds.Shown r s.now shown.now) }
{
    match statement {
        Statement::Shown {
            r: its_r,
            s: its_s,
            shown: its_shown,
        } => *its_r == r && its_s.equals(s) && its_shown.equals(shown),
        _ => false,
    }
}

fn is_accusation(statement: &Statement, r: Round, slot: SlotId, k: u32) -> bool
    ensures { IsTrue result ↔ (statement.now ≡ kinds.Accusation r slot k) }
{
    match statement {
        Statement::Accusation {
            r: its_r,
            slot: its_slot,
            k: its_k,
        } => *its_r == r && *its_slot == slot && *its_k == k,
        _ => false,
    }
}

fn is_rebuttal(
    statement: &Statement,
    r: Round,
    k: u32,
    server: ServerId,
    seed: &[u8; 32],
    envelope: &Bytes,
) -> bool
    ensures { IsTrue result ↔ (statement.now ≡ kinds.Rebuttal r k server seed.now envelope.now) }
{
    match statement {
        Statement::Rebuttal {
            r: its_r,
            k: its_k,
            server: its_server,
            seed: its_seed,
            envelope: its_envelope,
        } => *its_r == r
            && *its_k == k
            && *its_server == server
            && its_seed == seed
            && its_envelope.equals(envelope),
        _ => false,
    }
}

fn is_concede(statement: &Statement, r: Round, k: u32) -> bool
    ensures { IsTrue result ↔ (statement.now ≡ kinds.Concede r k) }
{
    match statement {
        Statement::Concede { r: its_r, k: its_k } => *its_r == r && *its_k == k,
        _ => false,
    }
}

fn submission(r: Round, prev: Round, client: ClientId, digest: [u8; 32]) -> Statement
    ensures { result ≡ kinds.Submission r prev client digest }
{
    Statement::Submission {
        r,
        prev,
        client,
        digest,
    }
}

fn receipt(r: Round, client: ClientId, digest: [u8; 32], told: WordTold) -> Statement
    ensures { result ≡ kinds.Receipt r client digest told }
{
    Statement::Receipt {
        r,
        client,
        digest,
        told,
    }
}

fn accusation(r: Round, slot: SlotId, k: u32) -> Statement
    ensures { result ≡ kinds.Accusation r slot k }
{
    Statement::Accusation { r, slot, k }
}

fn rebuttal(r: Round, k: u32, server: ServerId, seed: [u8; 32], envelope: Bytes) -> Statement
    ensures { result ≡ kinds.Rebuttal r k server seed envelope }
{
    Statement::Rebuttal {
        r,
        k,
        server,
        seed,
        envelope,
    }
}

impl Statement {
    /// An equal statement.
    pub fn copy(&self, alloc: Global) -> Result<Statement, NoMemory>
        ensures { IfOk result (λ x. x ≡ self.now) }
    {
        match self {
            Statement::Submission {
                r,
                prev,
                client,
                digest,
            } => Ok(submission(*r, *prev, *client, *digest)),
            Statement::Receipt {
                r,
                client,
                digest,
                told,
            } => Ok(receipt(*r, *client, *digest, *told)),
            Statement::Inventory(value) => Ok(Statement::Inventory(value.copy(alloc)?)),
            Statement::Commit { r, digest } => Ok(Statement::Commit {
                r: *r,
                digest: *digest,
            }),
            Statement::Reveal { r, s } => Ok(Statement::Reveal {
                r: *r,
                s: s.copy(alloc)?,
            }),
            Statement::Sign(value) => Ok(Statement::Sign(value.copy(alloc)?)),
            Statement::PadBits { r, k, bits } => Ok(Statement::PadBits {
                r: *r,
                k: *k,
                bits: bits.copy(alloc)?,
            }),
            Statement::Shown { r, s, shown } => Ok(Statement::Shown {
                r: *r,
                s: s.copy(alloc)?,
                shown: shown.copy(alloc)?,
            }),
            Statement::Accusation { r, slot, k } => Ok(accusation(*r, *slot, *k)),
            Statement::Rebuttal {
                r,
                k,
                server,
                seed,
                envelope,
            } => Ok(rebuttal(*r, *k, *server, *seed, envelope.copy(alloc)?)),
            Statement::Concede { r, k } => Ok(Statement::Concede { r: *r, k: *k }),
        }
    }

    /// Whether the statements are one.
    pub fn equals(&self, other: &Statement) -> bool
        ensures { IsTrue result ↔ (self.now ≡ other.now) }
    {
        match self {
            Statement::Submission {
                r,
                prev,
                client,
                digest,
            } => is_submission(other, *r, *prev, *client, digest),
            Statement::Receipt {
                r,
                client,
                digest,
                told,
            } => is_receipt(other, *r, *client, digest, *told),
            Statement::Inventory(value) => is_inventory(other, value),
            Statement::Commit { r, digest } => is_commit(other, *r, digest),
            Statement::Reveal { r, s } => is_reveal(other, *r, s),
            Statement::Sign(value) => is_sign(other, value),
            Statement::PadBits { r, k, bits } => is_pad_bits(other, *r, *k, bits),
            Statement::Shown { r, s, shown } => is_shown(other, *r, s, shown),
            Statement::Accusation { r, slot, k } => is_accusation(other, *r, *slot, *k),
            Statement::Rebuttal {
                r,
                k,
                server,
                seed,
                envelope,
            } => is_rebuttal(other, *r, *k, *server, seed, envelope),
            Statement::Concede { r, k } => is_concede(other, *r, *k),
        }
    }
}

impl Envelope {
    /// An equal envelope.
    pub fn copy(&self, alloc: Global) -> Result<Envelope, NoMemory>
        ensures { IfOk result (λ x. x ≡ self.now) }
    {
        Ok(Envelope {
            signer: self.signer,
            statement: self.statement.copy(alloc)?,
            signature: self.signature.copy(alloc)?,
        })
    }

    /// Whether the envelopes are one.
    pub fn equals(&self, other: &Envelope) -> bool
        ensures { IsTrue result ↔ (self.now ≡ other.now) }
    {
        self.signer == other.signer
            && self.statement.equals(&other.statement)
            && self.signature.equals(&other.signature)
    }
}
