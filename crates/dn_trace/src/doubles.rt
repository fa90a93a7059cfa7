// Two different submissions of one client.
ghost use Rattle.std.specs.Prelude.{IfOk};
ghost use Rattle.dn_trace.specs.Evidence.{Tells};
ghost use Rattle.dn_trace.specs.Tables.{AreEntered, IsNoted, IsSubmission, clients_of};
ghost use Rattle.dn_trace.specs.Verdict.{IsDouble};

use crate::case::Case;
use crate::entries::Submitted;
use dn_memory::NoMemory;
use dn_records::Statement;
use dn_wire::{ClientId, Round, SignerId};
use std::alloc::Global;

/// Of each client its first submission, and whether it made another one.
#[derive(Drop)]
struct Doubles {
    first: Vec<Option<Submitted>>,
    double: Vec<bool>,
}

impl Doubles {
    fn note(&mut self, i: ClientId, submitted: Submitted)
        ensures { IsNoted i.0 submitted self.old.first.items self.new.first.items self.old.double.items self.new.double.items }
    {
        let i = i.0 as usize;
        if i >= self.first.len() || i >= self.double.len() {
            return;
        }
        match self.first[i] {
            None => self.first[i] = Some(submitted),
            Some(first) => {
                if first != submitted {
                    self.double[i] = true;
                }
            }
        }
    }
}

/// The submission for this round that a statement is.
fn submission(r: Round, s: &Statement) -> Option<Submitted>
    ensures { IsSubmission r s.now result }
{
    match s {
        Statement::Submission {
            r: round,
            prev,
            client,
            digest,
        } if *round == r => {
            Some(Submitted {
                prev: *prev,
                client: *client,
                digest: *digest,
            })
        }
        _ => None,
    }
}

/// Of each client, whether it made two different submissions for the judged round: by its own envelopes, or by entries that verify.
pub fn double_submitters(
    alloc: Global,
    case: &Case,
    entered: &[Submitted],
) -> Result<Vec<bool>, NoMemory>
    requires { AreEntered case.now entered.now }
    ensures { IfOk result (λ v. Tells v.items (clients_of case.now) (IsDouble case.now)) }
{
    let n = case.clients() as usize;
    let mut doubles = Doubles {
        first: vec![in alloc; None; n]?,
        double: vec![in alloc; false; n]?,
    };
    for said in case.given() {
        if let SignerId::Client(i) = said.signer() {
            if let Some(submitted) = submission(case.round(), said.statement()) {
                doubles.note(i, submitted);
            }
        }
    }
    for submitted in entered {
        doubles.note(submitted.client, *submitted);
    }
    Ok(doubles.double)
}
