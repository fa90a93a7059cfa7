// How a server opens a place.
ghost use Rattle.std.specs.Prelude.{◌≡◌, ◌<◌, ◌≤◌, ◌+◌, ◌-◌, ◌++◌, ◌∷◌, ◌↔◌, ℕ, List, [], false, true, Some, None, Contains, length, IfOk, OnOk, MatchOption, IsTrue};
ghost use Rattle.dn_lms.specs.Key.{leaf_count};
ghost use Rattle.dn_record_types.specs.declared.body.Body.{Body};
ghost use Rattle.dn_record_types.specs.declared.statement.Statement.TheVariants as kinds;
ghost use Rattle.dn_seal.specs.Dealt.{server};
ghost use Rattle.dn_seal.specs.Said.{SaidView};
ghost use Rattle.dn_seal.specs.Signer.{CanSign};
ghost use Rattle.dn_cert.specs.declared.rules.Valid.{Valid};
ghost use Rattle.dn_trace.specs.Trial.{Says};
ghost use Rattle.dn_server.specs.declared.act.Act.{Act};
ghost use Rattle.dn_server.specs.declared.past.Past.{Past};
ghost use Rattle.dn_server.specs.Parts.{live};
ghost use Rattle.dn_server.specs.Server.{itself, others_of, past_of, post_next};
ghost use Rattle.dn_openings.specs.Accusing.{KeepsOnce, SignsAndKeeps, HasSigned, IsAccepted, Opens, Shows, has_opened, pads_at, shown_of, post_again};
ghost use Rattle.dn_openings.specs.Open.{CanOpen, CanPad, CanShow};

use crate::accusing::has_opened;
use crate::keeping::is_kept;
use crate::looking::look_at;
use crate::pads::opened_bits;
use dn_bits::Bits;
use dn_cert::Rules;
use dn_memory::NoMemory;
use dn_records::Statement;
use dn_seal::Said;
use dn_server::{Act, Parts, Past, Place, other_servers, plain_payload, say};
use dn_wire::{Round, ServerId, SignerId};

/// Keeps what was said, where the signer's same statement isn't kept.
fn keep_once(parts: &mut Parts, said: Said) -> Result<(), NoMemory>
    ensures { OnOk result (KeepsOnce (live parts.old) said (live parts.new)) }
{
    if is_kept(&parts.evidence, &said) {
        return Ok(());
    }
    parts.evidence.push(said)
}

/// Signs a statement, keeps it and posts it to the other servers.
fn sign(parts: &mut Parts, acts: &mut Vec<Act>, s: Statement) -> Result<(), NoMemory>
    requires leaf { length parts.old.identity.signed < leaf_count parts.old.identity.key }
    requires fits { CanSign (server parts.old.identity.number) s }
    ensures signed { OnOk result (SignsAndKeeps (live parts.old) s (live parts.new)) }
    ensures posted { OnOk result (acts.new.items ≡ acts.old.items ++ post_next (live parts.old) (others_of (live parts.old).seat) s ∷ []) }
{
    let alloc = parts.alloc;
    let servers = parts.identity.roster().servers();
    let to = other_servers(alloc, parts.identity.number(), servers)?;
    let said = say(alloc, &mut parts.identity, acts, to, s)?;
    keep_once(parts, said)
}

/// The pad bits of a place, as server `own` can sign them.
fn pads_of(own: u32, r: u64, k: u32, bits: Bits) -> Statement
    requires { length bits ≤ 512 }
    ensures is { result ≡ kinds.PadBits record { 0 = r } k bits }
    ensures fits { CanSign (server own) result }
{
    Statement::PadBits {
        r: Round(r),
        k,
        bits,
    }
}

/// Signs the pad bits of place `k` of round `r`, and posts them.
fn sign_pads(parts: &mut Parts, acts: &mut Vec<Act>, r: Round, k: u32) -> Result<(), NoMemory>
    requires leaf { length parts.old.identity.signed < leaf_count parts.old.identity.key }
    requires can { CanPad (live parts.old) r }
    ensures signed { OnOk result ((b : Body) → Contains parts.old.chain.held b → b.r ≡ r → SignsAndKeeps (live parts.old) (pads_at (live parts.old).seat b k) (live parts.new)) }
    ensures posted { OnOk result ((b : Body) → Contains parts.old.chain.held b → b.r ≡ r → acts.new.items ≡ acts.old.items ++ post_next (live parts.old) (others_of (live parts.old).seat) (pads_at (live parts.old).seat b k) ∷ []) }
{
    let alloc = parts.alloc;
    let Some(body) = parts.chain.body(r) else {
        unreachable!()
    };
    let clients = parts.identity.roster().clients();
    let bits = opened_bits(alloc, &parts.seeds, body, k, clients)?;
    let own = parts.identity.number().0;
    sign(parts, acts, pads_of(own, r.0, k, bits))
}

/// Whether it is what the server shows of a round.
fn is_own_shown(said: &Said, own: ServerId, past: &Past) -> bool
    ensures { IsTrue result ↔ ((said.now.signer ≡ server own.0) × (said.now.statement ≡ shown_of past.now)) }
{
    if said.signer() != SignerId::Server(own) {
        return false;
    }
    match said.statement() {
        Statement::Shown { r, s, shown } => {
            *r == past.body.r && s.equals(&past.s) && shown.equals(&past.own)
        }
        _ => false,
    }
}

/// What the server showed of a round.
fn own_shown<'a>(kept: &'a [Said], own: ServerId, past: &Past) -> Option<&'a Said>
    ensures { MatchOption result (¬ Says kept.now (server own.0) (shown_of past.now)) (λ x. Contains kept.now x.now × (x.now.signer ≡ server own.0) × (x.now.statement ≡ shown_of past.now)) }
{
    for said in kept {
        if is_own_shown(said, own, past) {
            return Some(said);
        }
    }
    None
}

/// Posts again what the server showed of a round.
fn post_shown(parts: &Parts, acts: &mut Vec<Act>, past: &Past) -> Result<(), NoMemory>
    requires { Says parts.now.evidence (server parts.now.identity.number) (shown_of past.now) }
    ensures { OnOk result ((said : SaidView) × Contains parts.now.evidence said × (said.signer ≡ itself (live parts.now)) × (said.statement ≡ shown_of past.now) × (acts.new.items ≡ acts.old.items ++ post_again (live parts.now) said ∷ [])) }
{
    let alloc = parts.alloc;
    let own = parts.identity.number();
    let Some(said) = own_shown(parts.evidence.get(), own, past) else {
        unreachable!()
    };
    let envelope = Vec::from_slice(alloc, said.bytes())?;
    let payload = plain_payload(alloc, envelope)?;
    let to = other_servers(alloc, own, parts.identity.roster().servers())?;
    acts.push(Act::Post { to, payload })?;
    Ok(())
}

/// Signs what the server shows of a round, and posts it.
fn sign_shown(parts: &mut Parts, acts: &mut Vec<Act>, r: Round) -> Result<(), NoMemory>
    requires leaf { length parts.old.identity.signed < leaf_count parts.old.identity.key }
    requires can { (past : Past) × (past_of parts.old.pasts r.0 ≡ Some past) × CanSign (server parts.old.identity.number) (shown_of past) × (past.body.r ≡ r) }
    ensures signed { OnOk result ((past : Past) → past_of parts.old.pasts r.0 ≡ Some past → SignsAndKeeps (live parts.old) (shown_of past) (live parts.new)) }
    ensures posted { OnOk result ((past : Past) → past_of parts.old.pasts r.0 ≡ Some past → acts.new.items ≡ acts.old.items ++ post_next (live parts.old) (others_of (live parts.old).seat) (shown_of past) ∷ []) }
{
    let alloc = parts.alloc;
    let Some(past) = parts.pasts.of(r) else {
        unreachable!()
    };
    let shown = Statement::Shown {
        r: past.body.r,
        s: past.s.copy(alloc)?,
        shown: past.own.copy(alloc)?,
    };
    sign(parts, acts, shown)
}

/// Shows the server's ciphertexts of round `r` to the other servers: signs them, or posts again what it signed before.
fn show(parts: &mut Parts, acts: &mut Vec<Act>, r: Round) -> Result<(), NoMemory>
    requires { CanShow (live parts.old) r }
    ensures { OnOk result ((past : Past) → past_of parts.old.pasts r.0 ≡ Some past → (did : List Act) × (acts.new.items ≡ acts.old.items ++ did) × Shows (live parts.old) past did (live parts.new)) }
{
    if !has_opened(parts, r) {
        return sign_shown(parts, acts, r);
    }
    let Some(past) = parts.pasts.of(r) else {
        unreachable!()
    };
    post_shown(parts, acts, past)
}

/// Opens place `k` of round `r`: what is done.
pub(crate) fn open_place<R: Rules>(
    rules: &R,
    parts: &mut Parts,
    r: Round,
    k: u32,
) -> Result<Vec<Act>, NoMemory>
    requires can { CanOpen (live parts.old) }
    requires accepted { (b : Body) × (past : Past) × (said : SaidView) × (valid : Valid) × IsAccepted (live parts.old) r said b past valid × (valid.k ≡ k) }
    ensures { IfOk result (λ acts. (b : Body) → (past : Past) → HasSigned (live parts.old) r b past → Opens (live parts.old) b past k acts.items (live parts.new)) }
{
    let mut acts = Vec::new(parts.alloc);
    let place = Place { r, k };
    sign_pads(parts, &mut acts, r, k)?;
    show(parts, &mut acts, r)?;
    parts.opened.push(place)?;
    look_at(rules, parts, &mut acts, place)?;
    Ok(acts)
}
