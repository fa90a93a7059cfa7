// What a server answers to an accusation.
ghost use Rattle.std.specs.Prelude.{◌≡◌, ◌<◌, ◌≤◌, ◌-◌, ◌↔◌, ℕ, List, Some, None, Contains, IfOk, IfErr, IfSome, OnOk, ◌==◌};
ghost use Rattle.std.specs.List.{list_any};
ghost use Rattle.dn_record_types.specs.declared.body.Body.{Body};
ghost use Rattle.dn_record_types.specs.declared.statement.Statement.TheVariants as kinds;
ghost use Rattle.dn_wire.specs.declared.ids.SlotId.{SlotId};
ghost use Rattle.dn_cert.specs.Chain.{IsChain};
ghost use Rattle.dn_cert.specs.Evidence.{IsAccusation, IsValid, IsInvalid};
ghost use Rattle.dn_server.specs.declared.past.Past.{Past};
ghost use Rattle.dn_server.specs.Answers.{ignored};
ghost use Rattle.dn_server.specs.Parts.{live};
ghost use Rattle.dn_server.specs.Server.{left_of};
ghost use Rattle.dn_openings.specs.Accusing.{Accuses, HasSigned, IsAccused, has_opened, leaves_due, IsAccepted, place_of, reason_for};
ghost use Rattle.dn_openings.specs.Open.{CanOpen};

use crate::keeping::is_among;
use crate::opening::open_place;
use dn_cert::{Invalid, Rules, Valid};
use dn_layout::Layout;
use dn_memory::NoMemory;
use dn_records::Body;
use dn_seal::Said;
use dn_server::{Acts, Answer, Parts, Place, Places, Reason};
use dn_wire::Round;

/// The reason that is told.
fn reason_for(why: Invalid) -> Reason
    ensures { result ≡ reason_for why }
{
    match why {
        Invalid::Key => Reason::Key,
        Invalid::Place => Reason::Place,
        Invalid::Zero => Reason::Zero,
    }
}

/// Whether a place of round `r` is among these.
fn has_round(places: &Places, r: Round) -> bool
    ensures { result ≡ list_any (λ p. p.r.0 == r.0) places.now }
{
    places.get().iter().any(|place| place.r.0 == r.0)
}

/// Whether the server has opened a place of round `r`.
pub(crate) fn has_opened(parts: &Parts, r: Round) -> bool
    ensures { result ≡ has_opened (live parts.now) r }
{
    has_round(&parts.opened, r)
}

/// How many leaves it takes to open one more place of round `r`.
fn leaves_due(parts: &Parts, r: Round) -> u32
    ensures { result ≡ leaves_due (live parts.now) r }
{
    if has_opened(parts, r) { 1 } else { 2 }
}

/// The leaves that aren't set aside.
fn leaves_free(parts: &Parts) -> u32
    ensures { result ≡ left_of (live parts.now) - parts.now.aside }
{
    parts.identity.left().saturating_sub(parts.aside)
}

/// The body of round `r` that the server holds and signed; nothing where there is none.
fn signed_body(parts: &Parts, r: Round) -> Option<&Body>
    ensures none { result ≡ None → (b : Body) (past : Past) → ¬ HasSigned (live parts.now) r b past }
    ensures some { IfSome result (λ b. (past : Past) × HasSigned (live parts.now) r b.now past) }
    ensures chain { IsChain parts.now.chain }
{
    let body = parts.chain.body(r)?;
    let past = parts.pasts.of(r)?;
    if past.body.equals(body) {
        Some(body)
    } else {
        None
    }
}

/// Whether the server accepts an accusation of round `r`: the place that it opens, or the reason why it doesn't.
pub(crate) fn accepted<R: Rules>(
    rules: &R,
    parts: &Parts,
    r: Round,
    said: &Said,
) -> Result<Valid, Reason>
    requires { IsAccusation said.now.statement }
    ensures accepted { IfOk result (λ valid. (b : Body) × (past : Past) × IsAccepted (live parts.now) r said.now b past valid) }
    ensures refused { IfErr result (λ why. Accuses (live parts.now) r said.now (ignored why) (live parts.now)) }
{
    let Some(body) = signed_body(parts, r) else {
        return Err(Reason::Body);
    };
    let Some(layout) = parts.chain.layout(body.prev) else {
        unreachable!()
    };
    let roster = parts.identity.roster();
    let valid = match rules.valid(roster, layout, body, said.signer(), said.statement()) {
        Ok(valid) => valid,
        Err(why) => return Err(reason_for(why)),
    };
    let place = Place {
        r: valid.r,
        k: valid.k,
    };
    if is_among(parts.opened.get(), place) {
        return Err(Reason::Repeat);
    }
    if leaves_free(parts) < leaves_due(parts, r) {
        return Err(Reason::Spent);
    }
    Ok(valid)
}

/// Hears an accusation of round `r`.
pub(crate) fn hear_accusation<R: Rules>(
    rules: &R,
    parts: &mut Parts,
    r: Round,
    said: &Said,
) -> Result<Answer, NoMemory>
    requires can { CanOpen (live parts.old) }
    requires accusation { IsAccusation said.now.statement }
    ensures { IfOk result (λ answer. Accuses (live parts.old) r said.now answer (live parts.new)) }
{
    let valid = match accepted(rules, parts, r, said) {
        Ok(valid) => valid,
        Err(why) => return Ok(Answer::Ignored(why)),
    };
    let acts = open_place(rules, parts, r, valid.k)?;
    Ok(Answer::Acts(Acts::of(acts)))
}
