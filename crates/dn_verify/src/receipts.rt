// Statements that lines name.

ghost use Rattle.std.specs.Prelude.{◌≡◌, ◌↔◌, IsTrue, List, ℕ, MatchOption, None, Some, option_and_then, slice_get};
ghost use Rattle.std.specs.Option.{option_copied};
ghost use Rattle.dn_wire.specs.declared.ids.SlotId.{SlotId};
ghost use Rattle.dn_wire.specs.declared.ids.SignerId.TheVariants as signers;
ghost use Rattle.dn_record_types.specs.declared.statement.Statement.TheVariants as kinds;
ghost use Rattle.dn_wire.specs.declared.ids.Round.{Round};
ghost use Rattle.dn_cert.specs.Evidence.{IsAccusation};
ghost use Rattle.dn_verify.specs.Judged.{ContentSays, body_of, word_of};
ghost use Rattle.dn_verify.specs.Known.{of_round};
ghost use Rattle.dn_verify.specs.Payloads.{IsCertificateFor, IsOwn, IsOwnWord, IsReceiptOf, IsSubmissionOf, signer_of};
ghost use Rattle.dn_verify.specs.Rules.{named_by, posted_by};

use crate::content::Content;
use dn_cert::{Certificate, Opened};
use dn_records::{Statement, WordTold};
use dn_report::{Outcome, UnopenedWord};
use dn_seal::Said;
use dn_wire::{ClientId, Member, Round, ServerId, SignerId};

/// The payload and the receiver that a `sent` or a `full` line names.
pub fn named(outcome: &Outcome) -> Option<(u64, Member)>
    ensures { result ≡ named_by outcome.now }
{
    match outcome {
        Outcome::Sent { payload, to, .. } => Some((*payload, *to)),
        Outcome::Full { payload, to } => Some((*payload, *to)),
        _ => None,
    }
}

/// The payload that a `post` line posts.
pub fn post_number(outcome: &Outcome) -> Option<u64>
    ensures { result ≡ posted_by outcome.now }
{
    match outcome {
        Outcome::Post { payload, .. } => Some(*payload),
        _ => None,
    }
}

/// The payload at a place.
pub fn content_at(contents: &[Content], payload: usize) -> Option<&Content>
    ensures { option_copied result ≡ slice_get contents.now payload }
{
    contents.get(payload)
}

/// The digest of the ciphertext in a statement, where it is a submission of this client for this round.
fn digest_in(said: &Said, client: ClientId, r: Round) -> Option<[u8; 32]>
    ensures { MatchOption result
        ((prev : Round) (digest : List ℕ) → said.now.statement ≡ kinds.Submission r prev client digest → ⊥)
        (λ digest. (prev : Round) × (said.now.statement ≡ kinds.Submission r prev client digest)) }
{
    match said.statement() {
        Statement::Submission {
            r: round,
            client: of,
            digest,
            ..
        } if *round == r && *of == client => Some(*digest),
        _ => None,
    }
}

/// The digest of the submission that a payload carries, where it is one of this client for this round.
pub fn submitted(content: Option<&Content>, client: ClientId, r: Round) -> Option<[u8; 32]>
    ensures { MatchOption result
        ((digest : List ℕ) → ContentSays (IsSubmissionOf client r digest) (option_copied content.entry) → ⊥)
        (λ digest. ContentSays (IsSubmissionOf client r digest) (option_copied content.entry)) }
{
    match content {
        Some(Content::Open(Opened::Submission { said, .. })) => digest_in(said, client, r),
        _ => None,
    }
}

/// Whether the statement is this server's receipt.
fn is_receipt_said(
    said: &Said,
    server: ServerId,
    client: ClientId,
    r: Round,
    digest: &[u8; 32],
    word: WordTold,
) -> bool
    ensures { IsTrue result ↔ ((said.now.signer ≡ signers.Server server) × (said.now.statement ≡ kinds.Receipt r client digest.now word)) }
{
    if said.signer() != SignerId::Server(server) {
        return false;
    }
    match said.statement() {
        Statement::Receipt {
            r: round,
            client: to,
            digest: of,
            told,
        } => *round == r && *to == client && of == digest && *told == word,
        _ => false,
    }
}

/// Whether a payload carries this server's receipt of a submission.
pub fn is_receipt(
    content: Option<&Content>,
    server: ServerId,
    client: ClientId,
    r: Round,
    digest: &[u8; 32],
    word: WordTold,
) -> bool
    ensures { IsTrue result ↔ ContentSays (IsReceiptOf server client r digest.now word) (option_copied content.entry) }
{
    match content {
        Some(Content::Open(Opened::Plain { said })) => {
            is_receipt_said(said, server, client, r, digest, word)
        }
        _ => false,
    }
}

/// The certificate that a payload is, if it is one.
pub fn certificate_of(content: Option<&Content>) -> Option<&Certificate>
    ensures { MatchOption result (body_of (option_copied content.entry) ≡ None) (λ c. body_of (option_copied content.entry) ≡ Some c.now.body) }
{
    match content {
        Some(Content::Open(Opened::Certificate { certificate })) => Some(certificate),
        _ => None,
    }
}

/// The certificate of this round that a payload is, if it is one.
pub fn certificate_for(content: Option<&Content>, r: Round) -> Option<&Certificate>
    ensures says { MatchOption result
        (ContentSays (IsCertificateFor r) (option_copied content.entry) → ⊥)
        (λ _. ContentSays (IsCertificateFor r) (option_copied content.entry)) }
    ensures body { MatchOption result
        (option_and_then (of_round r) (body_of (option_copied content.entry)) ≡ None)
        (λ c. option_and_then (of_round r) (body_of (option_copied content.entry)) ≡ Some c.now.body) }
{
    match content {
        Some(Content::Open(Opened::Certificate { certificate })) => {
            if certificate.body().r == r {
                Some(certificate)
            } else {
                None
            }
        }
        _ => None,
    }
}

fn signer_of(member: Member) -> SignerId
    ensures { result ≡ signer_of member }
{
    match member {
        Member::Client(i) => SignerId::Client(i),
        Member::Server(j) => SignerId::Server(j),
    }
}

fn is_slot(who: SignerId) -> bool
    ensures { IsTrue result ↔ ((s : SlotId) × (who ≡ signers.Slot s)) }
{
    match who {
        SignerId::Slot(_) => true,
        _ => false,
    }
}

fn is_accusation_said(said: &Said) -> bool
    ensures { IsTrue result ↔ IsAccusation said.now.statement }
{
    match said.statement() {
        Statement::Accusation { .. } => true,
        _ => false,
    }
}

fn is_own(said: &Said, by: Member) -> bool
    ensures { IsTrue result ↔ IsOwnWord by said.now }
{
    said.signer() == signer_of(by) || is_accusation_said(said) && is_slot(said.signer())
}

/// Whether a payload opens and its outer signer, if it has one, is this member or, of an accusation, a slot.
pub fn is_own_post(content: Option<&Content>, by: Member) -> bool
    ensures { IsTrue result ↔ ContentSays (IsOwn by) (option_copied content.entry) }
{
    match content {
        Some(Content::Open(Opened::Submission { said, .. })) => is_own(said, by),
        Some(Content::Open(Opened::Plain { said })) => is_own(said, by),
        Some(Content::Open(_)) => true,
        _ => false,
    }
}

/// Why a payload doesn't open, where it doesn't.
pub fn closed_word(content: Option<&Content>) -> Option<UnopenedWord>
    ensures { result ≡ word_of (option_copied content.entry) }
{
    match content {
        Some(Content::Closed(word)) => Some(*word),
        _ => None,
    }
}
