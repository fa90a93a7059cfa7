// How a server's key signs for its caller, beside the rules.
ghost use Rattle.std.specs.Prelude.{IfOk, IfErr};
ghost use Rattle.dn_seal.specs.Dealt.{server};
ghost use Rattle.dn_seal.specs.Signer.{CanSign};
ghost use Rattle.dn_server.specs.Parts.{live};
ghost use Rattle.dn_exchange.specs.Signing.{SignsNext, SignsNothing};

use dn_records::Statement;
use dn_seal::SealFault;
use dn_server::Parts;

/// The envelope of a statement, signed at the next leaf.
pub(crate) fn sign(parts: &mut Parts, s: &Statement) -> Result<Vec<u8>, SealFault>
    requires { CanSign (server parts.old.identity.number) s.now }
    ensures signed { IfOk result (λ v. SignsNext (live parts.old) s.now v.items (live parts.new)) }
    ensures refused { IfErr result (λ f. SignsNothing (live parts.old) f (live parts.new)) }
{
    let alloc = parts.alloc;
    parts.bent = true;
    if parts.identity.left() == 0 {
        let seen = u64::from(parts.identity.leaves());
        return Err(SealFault::Exhausted { seen });
    }
    let copy = s.copy(alloc)?;
    Ok(parts.identity.seal(alloc, copy)?)
}
