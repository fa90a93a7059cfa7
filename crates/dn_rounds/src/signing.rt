// How a server signs the body of its round.
ghost use Rattle.std.specs.Prelude.{◌≡◌, ◌≢◌, ◌≤◌, ◌<◌, ℕ, length, All, IfOk, IfSome, IfNone, Some, false, [], ◌++◌, ◌∷◌, OnOk};
ghost use Rattle.dn_bits.specs.Bits.{sum_bits};
ghost use Rattle.dn_records.specs.Records.{IsBody};
ghost use Rattle.dn_record_types.specs.declared.body.Body.{Body as BodyOf};
ghost use Rattle.dn_record_types.specs.declared.statement.Statement.TheVariants as kinds;
ghost use Rattle.dn_server.specs.declared.run.Sum.{Sum as SumOf};
ghost use Rattle.dn_server.specs.Server.{statement_of, servers_in};
ghost use Rattle.dn_server.specs.Keeping.{HasAll};
ghost use Rattle.dn_rounds.specs.Going.{IsBodyDue, IsFirstAgainst, IsUnopposed, past_with, thin_past};
ghost use Rattle.dn_server.specs.Parts.{live};
ghost use Rattle.dn_rounds.specs.Sound.{AreSound, StringsFit, HasSum, Stepped, IsSayable, BodiesFit, SignsOther, BecameSigned, with_past_if};

use crate::gathering::{body_by, digests, strings};
use crate::going::{Due, has_moved};
use crate::saying::say;
use dn_bits::Bits;
use dn_cert::make_body;
use dn_combine::combine;
use dn_memory::NoMemory;
use dn_records::{Body, Shows, Statement, encode_body};
use dn_server::{Act, Parts, Past, RoundKind, SpoilReason, Stage, spoil};
use dn_wire::ServerId;
use std::alloc::Global;

/// Whether server `j` signed another body.
fn signs_other(parts: &Parts, body: &Body, j: ServerId) -> bool
    ensures { SignsOther parts.now body.now j.0 result }
{
    match parts.run.kept.of(RoundKind::Sign, j) {
        None => false,
        Some(_) => !body_by(&parts.run.kept, j).equals(body),
    }
}

/// The least server that signed another body.
fn first_against(parts: &Parts, body: &Body) -> Option<ServerId>
    ensures some { IfSome result (λ j. (other : BodyOf) × IsFirstAgainst (live parts.now) body.now j.0 other) }
    ensures none { IfNone result (IsUnopposed (live parts.now) body.now) }
{
    for j in 0..parts.identity.roster().servers() {
        let server = ServerId(j);
        if signs_other(parts, body, server) {
            return Some(server);
        }
    }
    None
}

/// Signs a body that is due, unless a server signed another one.
pub(crate) fn sign_due(parts: &mut Parts, acts: &mut Vec<Act>, body: Body) -> Result<Due, NoMemory>
    requires { IsSayable parts.old (kinds.Sign body) }
    ensures { IfOk result (BecameSigned body parts.old parts.new acts.old.items acts.new.items) }
{
    if let Some(j) = first_against(parts, &body) {
        let own = encode_body(parts.alloc, &body)?;
        let other = encode_body(parts.alloc, body_by(&parts.run.kept, j))?;
        spoil(parts, acts, j, SpoilReason::Body, own, other)?;
        return Ok(Due::Opposed);
    }
    if parts.identity.left() == 0 {
        return Ok(Due::Stuck);
    }
    say(
        parts,
        acts,
        RoundKind::Sign,
        Statement::Sign(body),
        Stage::Signed,
    )?;
    Ok(Due::Said)
}

/// The body that is due, with a ciphertext of each server.
fn due_body(parts: &Parts) -> Result<Body, NoMemory>
    requires stage { parts.now.run.stage ≡ Stage.Revealed }
    requires sum { HasSum parts.now.run }
    requires sound { AreSound (live parts.now) parts.now.run.kept }
    requires strings { StringsFit (live parts.now) }
    requires commits { HasAll 4 parts.now.run.kept (servers_in (live parts.now)) }
    requires reveals { HasAll 5 parts.now.run.kept (servers_in (live parts.now)) }
    ensures { IfOk result (λ b. (sum : SumOf) × IsBodyDue (live parts.now) sum b) }
{
    let Some(sum) = &parts.run.sum else {
        unreachable!()
    };
    let run = &parts.run;
    let roster = parts.identity.roster();
    let n = roster.servers();
    let digests = digests(parts.alloc, &run.kept, run.r, n)?;
    let strings = strings(parts.alloc, &run.kept, run.r, n)?;
    let out = combine(parts.alloc, &strings, run.bits)?;
    make_body(
        parts.alloc,
        roster,
        run.r,
        run.prev,
        sum.listed.get(),
        &digests,
        &out,
        false,
    )
}

/// What is to be kept of a body.
fn past_with(parts: &Parts, body: &Body) -> Result<Past, NoMemory>
    requires { HasSum parts.now.run }
    ensures { (sum : SumOf) → parts.now.run.sum ≡ Some sum → IfOk result (λ past. past ≡ past_with sum body.now) }
{
    let Some(sum) = &parts.run.sum else {
        unreachable!()
    };
    Ok(Past {
        body: body.copy(parts.alloc)?,
        s: sum.s.copy(parts.alloc)?,
        own: sum.own.copy(parts.alloc)?,
    })
}

/// What is to be kept of a body without data.
pub(crate) fn thin_past(alloc: Global, body: &Body) -> Result<Past, NoMemory>
    ensures { IfOk result (λ past. past ≡ thin_past body.now) }
{
    Ok(Past {
        body: body.copy(alloc)?,
        s: Bits::zeros(alloc, 0)?,
        own: Shows::of(Vec::new(alloc)),
    })
}

/// Keeps what is to be kept of a body, where it was said.
pub(crate) fn keep_past(parts: &mut Parts, due: Due, past: Past) -> Result<(), NoMemory>
    ensures { OnOk result (parts.new ≡ with_past_if due parts.old past) }
{
    match due {
        Due::Said => parts.pasts.push(past),
        Due::Opposed | Due::Stuck => Ok(()),
    }
}

/// With a ciphertext of each server, the server signs the body with their sum.
pub(crate) fn sign(parts: &mut Parts, acts: &mut Vec<Act>) -> Result<bool, NoMemory>
    requires stage { parts.old.run.stage ≡ Stage.Revealed }
    requires sum { HasSum parts.old.run }
    requires sound { AreSound (live parts.old) parts.old.run.kept }
    requires strings { StringsFit (live parts.old) }
    requires commits { HasAll 4 parts.old.run.kept (servers_in (live parts.old)) }
    requires fit { BodiesFit parts.old }
    ensures { IfOk result (Stepped parts.old parts.new acts.old.items acts.new.items) }
{
    let n = parts.identity.roster().servers();
    if !parts.run.kept.is_full(RoundKind::Reveal, n) {
        return Ok(false);
    }
    let body = due_body(parts)?;
    let past = past_with(parts, &body)?;
    let due = sign_due(parts, acts, body)?;
    keep_past(parts, due, past)?;
    Ok(has_moved(due))
}
