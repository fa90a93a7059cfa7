// The calls of a corrupt client's core. It stays the same client.
ghost use Rattle.std.specs.Prelude.{◌≡◌, ◌≤◌, length, IfOk, IfSome};
ghost use Rattle.dn_wire.specs.declared.limits.TheConstants.{MAX_BITS};
ghost use Rattle.dn_puppets.specs.Clients.{IsNumbered};
ghost use Rattle.dn_puppets.specs.Statements.{IsSignable};

use dn_cert::Certificate;
use dn_client::{AnswerFault, Client, HoldFault, Submission, SubmitFault};
use dn_memory::NoMemory;
use dn_records::Statement;
use dn_seal::{Challenge, SealFault};
use dn_wire::Round;

/// The envelope of a statement by the key of the client, or of its slot; nothing where no leaf is left.
pub fn sign(
    core: &mut Client,
    as_slot: bool,
    statement: &Statement,
) -> Result<Option<Vec<u8>>, NoMemory>
    requires numbered { IsNumbered core.old.who }
    requires signable { IsSignable statement.now }
    ensures { core.new.who ≡ core.old.who }
{
    match core.sign(as_slot, statement) {
        Ok(envelope) => Ok(Some(envelope)),
        Err(SealFault::Exhausted { .. }) => Ok(None),
        Err(SealFault::NoMemory) => Err(NoMemory),
    }
}

/// Its submission of a round, if it makes one; for round 0 it makes none.
pub fn submission(core: &mut Client, r: Round) -> Result<Option<Submission>, NoMemory>
    ensures who { core.new.who ≡ core.old.who }
    ensures long { IfOk result (λ s. IfSome s (λ x. length x.cipher ≤ MAX_BITS)) }
{
    if r.0 == 0 {
        return Ok(None);
    }
    match core.submission(r) {
        Ok(submission) => Ok(Some(submission)),
        Err(SubmitFault::NoMemory) => Err(NoMemory),
        Err(_) => Ok(None),
    }
}

/// It takes a certificate, if it can.
pub fn hold(core: &mut Client, certificate: &Certificate) -> Result<(), NoMemory>
    ensures { core.new.who ≡ core.old.who }
{
    match core.hold(certificate) {
        Err(HoldFault::NoMemory) => Err(NoMemory),
        _ => Ok(()),
    }
}

/// What a client does where it is challenged.
#[derive(Drop)]
pub enum Reaction {
    /// It puts this rebuttal.
    Rebuts(Vec<u8>),
    /// It has none.
    Concedes,
    Nothing,
}

/// What it does where it is challenged.
pub fn answer(core: &mut Client, challenge: &Challenge) -> Result<Reaction, NoMemory>
    ensures { core.new.who ≡ core.old.who }
{
    match core.answer(challenge) {
        Ok(envelope) => Ok(Reaction::Rebuts(envelope)),
        Err(AnswerFault::NoMemory) => Err(NoMemory),
        Err(AnswerFault::NotChallenged | AnswerFault::AllTrue) => Ok(Reaction::Concedes),
        Err(_) => Ok(Reaction::Nothing),
    }
}
