// What clients answer: rebuttals and concessions.
ghost use Rattle.std.specs.Prelude.{◌≡◌, ◌<◌, ℕ, false, true, slice_index_or, MatchOption, IfOk, IsTrue};
ghost use Rattle.dn_seal.specs.Dealt.{client};
ghost use Rattle.dn_trace.specs.Evidence.{Tells};
ghost use Rattle.dn_trace.specs.Reasons.{IsListed};
ghost use Rattle.dn_trace.specs.Tables.{AreAnswers, IsAnswer, IsNotedAnswer, clients_of};

use crate::case::Case;
use crate::flags::{mark, no_flags};
use dn_cert::Rules;
use dn_memory::NoMemory;
use dn_records::Statement;
use dn_wire::{ClientId, ServerId, SignerId};
use std::alloc::Global;

/// What a client answers for the judged round and place.
#[derive(Clone, Copy, Debug, PartialEq, Eq)]
pub enum Answer {
    /// A good rebuttal, which names this server.
    Rebuts(ServerId),
    /// A rebuttal that isn't good.
    RebutsBadly,
    /// A concession.
    Concedes,
}

/// What answers show: of each server whether a good rebuttal names it; of each client whether it made a rebuttal that isn't good, whether
/// it conceded, and whether it did one or the other at all.
#[derive(Drop)]
pub struct Answers {
    pub is_rebutted: Vec<bool>,
    pub rebuts_badly: Vec<bool>,
    pub concedes: Vec<bool>,
    pub answers: Vec<bool>,
}

/// Of each client, whether the body lists it.
fn listed(alloc: Global, case: &Case) -> Result<Vec<bool>, NoMemory>
    ensures { IfOk result (λ v. Tells v.items (clients_of case.now) (IsListed case.now)) }
{
    let mut flags = no_flags(alloc, case.clients())?;
    for row in case.body().listed.get() {
        mark(&mut flags, row.client.0);
    }
    Ok(flags)
}

impl Answers {
    /// Notes what client `i` answers.
    fn note(&mut self, i: ClientId, answer: Answer)
        ensures { IsNotedAnswer i.0 answer self.old self.new }
    {
        match answer {
            Answer::Rebuts(j) => mark(&mut self.is_rebutted, j.0),
            Answer::RebutsBadly => mark(&mut self.rebuts_badly, i.0),
            Answer::Concedes => mark(&mut self.concedes, i.0),
        }
        mark(&mut self.answers, i.0);
    }
}

/// The client that the signer is, where its flag is set.
fn flagged(flags: &[bool], who: SignerId) -> Option<ClientId>
    ensures { MatchOption result ((i : ℕ) → who ≡ client i → slice_index_or flags.now i false ≡ false) (λ i. (who ≡ client i.0) × (slice_index_or flags.now i.0 false ≡ true)) }
{
    let SignerId::Client(i) = who else {
        return None;
    };
    if (i.0 as usize) < flags.len() && flags[i.0 as usize] {
        Some(i)
    } else {
        None
    }
}

/// What a statement of client `i` answers for the judged round and place.
fn answer_in<R: Rules>(
    alloc: Global,
    rules: &R,
    case: &Case,
    i: ClientId,
    s: &Statement,
) -> Result<Option<Answer>, NoMemory>
    requires { i.0 < clients_of case.now }
    ensures { IfOk result (λ answer. IsAnswer case.now i.0 s.now answer) }
{
    match s {
        Statement::Rebuttal { r, k, server, .. } if *r == case.round() && *k == case.place() => {
            if rules.rebuttal_good(alloc, case.roster(), i, s)? {
                Ok(Some(Answer::Rebuts(*server)))
            } else {
                Ok(Some(Answer::RebutsBadly))
            }
        }
        Statement::Concede { r, k } if *r == case.round() && *k == case.place() => {
            Ok(Some(Answer::Concedes))
        }
        _ => Ok(None),
    }
}

/// What the clients that the body lists answer for the judged round and place.
pub fn heard_answers<R: Rules>(alloc: Global, rules: &R, case: &Case) -> Result<Answers, NoMemory>
    ensures { IfOk result (λ a. AreAnswers case.now a.is_rebutted.items a.rebuts_badly.items a.concedes.items a.answers.items) }
{
    let n = case.clients();
    let listed = listed(alloc, case)?;
    let mut answers = Answers {
        is_rebutted: no_flags(alloc, case.servers())?,
        rebuts_badly: no_flags(alloc, n)?,
        concedes: no_flags(alloc, n)?,
        answers: no_flags(alloc, n)?,
    };
    for said in case.given() {
        if let Some(i) = flagged(&listed, said.signer()) {
            if let Some(answer) = answer_in(alloc, rules, case, i, said.statement())? {
                answers.note(i, answer);
            }
        }
    }
    Ok(answers)
}
