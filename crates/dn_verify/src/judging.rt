// The verdict on a place of a round.

ghost use Rattle.std.specs.Prelude.{◌≡◌, ◌↔◌, ◌<◌, ◌++◌, List, All, Contains, IsTrue, IfOk, OnOk, MatchOption, map};
ghost use Rattle.dn_wire.specs.declared.ids.SlotId.{SlotId as SlotIdOf};
ghost use Rattle.dn_record_types.specs.declared.statement.Statement.TheVariants.{Accusation};
ghost use Rattle.dn_seal.specs.Said.{IsUnder, SaidView};
ghost use Rattle.dn_cert.specs.Evidence.{IsAccusation, IsValid};
ghost use Rattle.dn_trace.specs.Trial.{Trial};
ghost use Rattle.dn_trace.specs.Verdict.{IsVerdict};
ghost use Rattle.dn_report.specs.declared.outcome.Outcome.{Outcome as OutcomeOf};
ghost use Rattle.dn_verify.specs.Verdicts.{FitsGroup, IsAccused, IsTrialOn, IsTrialIn, blame_line, silent_line, verdict_lines, IsJudgedSo};

use crate::words::blame_word;
use dn_accuse::{Judging, valid};
use dn_cert::{Chain, Valid};
use dn_layout::Layout;
use dn_memory::NoMemory;
use dn_records::{Body, Listed, Statement};
use dn_report::{IgnoredWord, Outcome};
use dn_roster::Roster;
use dn_seal::Said;
use dn_trace::{Blames, Verdict, judge};
use dn_wire::{MemberList, Round};
use std::alloc::Global;
use std::collections::VecDeque;

/// The accusation that was heard at place `k` of a body's round, and holds.
fn accusation(
    roster: &Roster,
    layout: &Layout,
    body: &Body,
    k: u32,
    heard: &[Said],
) -> Option<Valid>
    requires { All (IsUnder roster.now) heard.now }
    ensures { MatchOption result (¬ IsAccused layout.now body.now k heard.now)
        (λ v. (said : SaidView) × Contains heard.now said × IsValid layout.now body.now said.signer said.statement v × (v.k ≡ k)) }
{
    for said in heard {
        if is_at(said, body.r, k) {
            if let Ok(v) = valid(roster, layout, body, said) {
                return Some(v);
            }
        }
    }
    None
}

/// Whether it is an accusation at place `k` of round `r`.
fn is_at(said: &Said, r: Round, k: u32) -> bool
    ensures accusation { IsTrue result → IsAccusation said.now.statement }
    ensures at { IsTrue result ↔ ((slot : SlotIdOf) × (said.now.statement ≡ Accusation r slot k)) }
{
    match said.statement() {
        Statement::Accusation {
            r: its,
            k: place,
            ..
        } => *its == r && *place == k,
        _ => false,
    }
}

fn are_within(rows: &[Listed], clients: u32, servers: u32) -> bool
    ensures { IsTrue result ↔ All (λ l. (l.client.0 < clients) × (l.server.0 < servers)) rows.now }
{
    rows.iter()
        .all(|row| row.client.0 < clients && row.server.0 < servers)
}

/// Whether a body has a digest of each server, and lists clients and servers of the group.
fn fits(roster: &Roster, body: &Body) -> bool
    ensures { IsTrue result ↔ FitsGroup roster.now body.now }
{
    body.digests.get().len() == roster.servers() as usize
        && are_within(body.listed.get(), roster.clients(), roster.servers())
}

/// The verdict on place `k` of a body's round, where an accusation that holds was heard.
fn verdict_on(
    alloc: Global,
    roster: &Roster,
    body: &Body,
    layout: &Layout,
    k: u32,
    heard: &[Said],
) -> Result<Option<Verdict>, NoMemory>
    requires { All (IsUnder roster.now) heard.now }
    ensures { IfOk result (λ found. MatchOption found ((trial : Trial) → ¬ IsTrialOn roster.now body.now layout.now k heard.now trial)
        (λ v. (trial : Trial) × IsTrialOn roster.now body.now layout.now k heard.now trial × IsVerdict trial v.blamed v.silent)) }
{
    let Some(v) = accusation(roster, layout, body, k, heard) else {
        return Ok(None);
    };
    if !fits(roster, body) {
        return Ok(None);
    }
    Ok(Some(judge(alloc, &Judging, roster, body, layout, &v, heard)?))
}

/// The verdict on place `k` of round `r`, on the run's certificate of it.
fn verdict_of(
    alloc: Global,
    roster: &Roster,
    chain: &Chain,
    r: Round,
    k: u32,
    heard: &[Said],
) -> Result<Option<Verdict>, NoMemory>
    requires { All (IsUnder roster.now) heard.now }
    ensures { IfOk result (λ found. MatchOption found ((trial : Trial) → ¬ IsTrialIn roster.now chain.now heard.now r k trial)
        (λ v. (trial : Trial) × IsTrialIn roster.now chain.now heard.now r k trial × IsVerdict trial v.blamed v.silent)) }
{
    let Some(body) = chain.body(r) else {
        return Ok(None);
    };
    match chain.layout(body.prev) {
        Some(layout) => verdict_on(alloc, roster, body, layout, k, heard),
        None => Ok(None),
    }
}

/// Tells who is blamed, with what.
fn tell_blamed(blamed: &Blames, due: &mut VecDeque<Outcome>) -> Result<(), NoMemory>
    ensures { OnOk result (due.new.items ≡ due.old.items ++ map blame_line blamed.now) }
{
    for (member, fault) in blamed.get() {
        due.push_back(Outcome::Blame {
            member: *member,
            reason: blame_word(*fault),
        })?;
    }
    Ok(())
}

/// Tells who is silent.
fn tell_silent(silent: &MemberList, due: &mut VecDeque<Outcome>) -> Result<(), NoMemory>
    ensures { OnOk result (due.new.items ≡ due.old.items ++ map silent_line silent.now) }
{
    for member in silent.get() {
        due.push_back(Outcome::Silent { member: *member })?;
    }
    Ok(())
}

/// Tells a verdict.
fn tell(verdict: &Verdict, due: &mut VecDeque<Outcome>) -> Result<(), NoMemory>
    ensures { OnOk result (due.new.items ≡ due.old.items ++ verdict_lines verdict.now.blamed verdict.now.silent) }
{
    tell_blamed(&verdict.blamed, due)?;
    tell_silent(&verdict.silent, due)
}

/// The lines of the verdict on place `k` of round `r` are due. Whether there is a verdict.
pub fn judge_place(
    alloc: Global,
    roster: &Roster,
    chain: &Chain,
    heard: &[Said],
    r: Round,
    k: u32,
    due: &mut VecDeque<Outcome>,
) -> Result<bool, NoMemory>
    requires { All (IsUnder roster.now) heard.now }
    ensures { OnOk result ((opened : List OutcomeOf) × IsJudgedSo roster.now chain.now heard.now r k opened × (due.new.items ≡ due.old.items ++ opened)) }
{
    match verdict_of(alloc, roster, chain, r, k, heard)? {
        Some(verdict) => {
            tell(&verdict, due)?;
            Ok(true)
        }
        None => {
            due.push_back(Outcome::Ignored(IgnoredWord::None))?;
            Ok(false)
        }
    }
}
