// What a server says to the other servers in its round.
ghost use Rattle.std.specs.Prelude.{◌≡◌, ◌<◌, length, ◌++◌, ◌∷◌, [], OnOk};
ghost use Rattle.dn_lms.specs.Key.{leaf_count};
ghost use Rattle.dn_records.specs.Records.{kind_byte};
ghost use Rattle.dn_seal.specs.Dealt.{server};
ghost use Rattle.dn_seal.specs.Signer.{CanSign};
ghost use Rattle.dn_server.specs.Server.{kept_of, others_of, post_next};
ghost use Rattle.dn_server.specs.Keeping.{byte_for};
ghost use Rattle.dn_server.specs.Parts.{live};
ghost use Rattle.dn_rounds.specs.Going.{with_own};
ghost use Rattle.dn_rounds.specs.Spoken.{spoken};

use dn_memory::NoMemory;
use dn_records::Statement;
use dn_seal::Said;
use dn_server::{Act, Kept, Parts, RoundKind, Stage, other_servers};
use dn_wire::ServerId;

/// Keeps what the server itself said, where nothing of the kind is kept under its number.
fn keep_own(kept: &mut Kept, kind: RoundKind, own: ServerId, said: Said) -> Result<(), NoMemory>
    ensures { OnOk result (kept.new ≡ with_own (kept_of kept.old (byte_for kind) own.0) kept.old said) }
{
    match kept.of(kind, own) {
        Some(_) => Ok(()),
        None => kept.push(said),
    }
}

/// Signs a statement of the round, keeps it and posts it to the other servers.
pub(crate) fn say(
    parts: &mut Parts,
    acts: &mut Vec<Act>,
    kind: RoundKind,
    s: Statement,
    stage: Stage,
) -> Result<(), NoMemory>
    requires leaf { length parts.old.identity.signed < leaf_count parts.old.identity.key }
    requires fits { CanSign (server parts.old.identity.number) s }
    requires kind { kind_byte s ≡ byte_for kind }
    ensures after { OnOk result (parts.new ≡ spoken parts.old s stage) }
    ensures posted { OnOk result (acts.new.items ≡ acts.old.items ++ post_next (live parts.old) (others_of (live parts.old).seat) s ∷ []) }
{
    let alloc = parts.alloc;
    let own = parts.identity.number();
    let to = other_servers(alloc, own, parts.identity.roster().servers())?;
    let said = dn_server::say(alloc, &mut parts.identity, acts, to, s)?;
    keep_own(&mut parts.run.kept, kind, own, said)?;
    parts.run.stage = stage;
    parts.aside = parts.aside.saturating_sub(1);
    Ok(())
}
