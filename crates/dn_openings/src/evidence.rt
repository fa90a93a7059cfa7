ghost use Rattle.std.specs.Prelude.{◌≡◌, ◌↔◌, None, IfOk, OnOk, IsTrue};
ghost use Rattle.dn_seal.specs.Said.{IsUnder};
ghost use Rattle.dn_server.specs.Keeping.{round_of};
ghost use Rattle.dn_server.specs.Parts.{live};
ghost use Rattle.dn_openings.specs.Hearing.{HearsEvidence, IsByServer, IsByClient};
ghost use Rattle.dn_openings.specs.Open.{CanOpen};

use crate::accusing::hear_accusation;
use crate::hearing::{hear_answer, hear_opening};
use dn_cert::Rules;
use dn_memory::NoMemory;
use dn_records::Statement;
use dn_seal::Said;
use dn_server::{Answer, Parts, Reason};
use dn_wire::SignerId;

/// Whether the signer is a server.
fn is_by_server(who: SignerId) -> bool
    ensures { IsTrue result ↔ IsByServer who }
{
    matches!(who, SignerId::Server(_))
}

/// Whether the signer is a client, by its own key.
fn is_by_client(who: SignerId) -> bool
    ensures { IsTrue result ↔ IsByClient who }
{
    matches!(who, SignerId::Client(_))
}

/// What a server answers to such a statement.
fn heard<R: Rules>(rules: &R, parts: &mut Parts, said: &Said) -> Result<Answer, NoMemory>
    requires can { CanOpen (live parts.old) }
    requires under { IsUnder parts.old.identity.roster said.now }
    requires other { round_of said.now.statement ≡ None }
    ensures { IfOk result (λ answer. HearsEvidence (live parts.old) said.now answer (live parts.new)) }
{
    match said.statement() {
        Statement::PadBits { r, .. } if is_by_server(said.signer()) => {
            hear_opening(rules, parts, *r, said)
        }
        Statement::Shown { r, .. } if is_by_server(said.signer()) => {
            hear_opening(rules, parts, *r, said)
        }
        Statement::Accusation { r, .. } => hear_accusation(rules, parts, *r, said),
        Statement::Rebuttal { .. } if is_by_client(said.signer()) => hear_answer(parts, said),
        Statement::Concede { .. } if is_by_client(said.signer()) => hear_answer(parts, said),
        _ => Ok(Answer::Ignored(Reason::Kind)),
    }
}

/// What a server answers to a statement that is none of those that servers make to each other of a round that runs: an accusation, an
/// opening, or an answer to a challenge; others are of no use to it. After `NoMemory` nothing is said of the parts.
pub fn hear<R: Rules>(rules: &R, parts: &mut Parts, said: &Said) -> Result<Answer, NoMemory>
    requires can { CanOpen (live parts.old) }
    requires under { IsUnder parts.old.identity.roster said.now }
    requires other { round_of said.now.statement ≡ None }
    ensures heard { IfOk result (λ answer. HearsEvidence (live parts.old) said.now answer (live parts.new)) }
    ensures can { OnOk result (CanOpen (live parts.new)) }
{
    heard(rules, parts, said)
}
