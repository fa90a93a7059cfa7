// How a server abandons its round, and takes certificates.
ghost use Rattle.std.specs.Prelude.{◌≡◌, IfOk};
ghost use Rattle.dn_cert.specs.Certificate.{CertificateView, IsCertificate};
ghost use Rattle.dn_cert.specs.Chain.{IsChain, CanFollow, IsHoldRefused};
ghost use Rattle.dn_exchange.specs.Ending.{Abandons, HoldsOn};
ghost use Rattle.dn_server.specs.Parts.{live};
ghost use Rattle.dn_server.specs.Server.{ServerView};

use dn_cert::{Certificate, HoldFault};
use dn_memory::NoMemory;
use dn_server::{Act, Answer, Parts, Reason, does_one, end_run};

/// Ends the run of the round.
pub(crate) fn abandon(parts: &mut Parts) -> Result<Answer, NoMemory>
    ensures { IfOk result (λ a. Abandons (live parts.old) a (live parts.new)) }
{
    if !parts.run.is_running {
        return Ok(Answer::Ignored(Reason::Idle));
    }
    end_run(parts);
    does_one(parts.alloc, Act::Abandoned)
}

/// What a server answers where its chain refuses a certificate.
fn refused(fault: HoldFault) -> Result<Answer, NoMemory>
    ensures { IfOk result (λ a. (v : ServerView) (c : CertificateView) → IsHoldRefused v.chain c.body fault → HoldsOn v c a v) }
{
    match fault {
        HoldFault::Known { .. } => Ok(Answer::Ignored(Reason::Known)),
        HoldFault::NoPrev { .. } => Ok(Answer::Ignored(Reason::Prev)),
        HoldFault::Floor { .. } => Ok(Answer::Ignored(Reason::Floor)),
        HoldFault::Length { .. } => Ok(Answer::Ignored(Reason::Length)),
        HoldFault::NoMemory => Err(NoMemory),
    }
}

/// Holds a certificate that can follow, which ends the run of its round.
fn hold_it(parts: &mut Parts, c: Certificate) -> Result<Answer, NoMemory>
    requires { CanFollow parts.old.chain c.body }
    ensures { IfOk result (λ a. HoldsOn (live parts.old) c a (live parts.new)) }
{
    let r = c.body().r;
    let is_of_running = parts.run.is_running && r.0 == parts.run.r.0;
    match parts.chain.hold(parts.alloc, c) {
        Ok(()) => {}
        Err(fault) => return refused(fault),
    }
    if is_of_running {
        end_run(parts);
    }
    does_one(parts.alloc, Act::Held { r })
}

/// Takes a certificate, which ends the run of its round.
pub(crate) fn hold(parts: &mut Parts, c: &Certificate) -> Result<Answer, NoMemory>
    ensures holds { IfOk result (λ a. HoldsOn (live parts.old) c.now a (live parts.new)) }
    ensures chain { IsChain parts.old.chain }
    ensures certificate { IsCertificate c.now }
{
    match parts.chain.refusal(c.body()) {
        Some(fault) => refused(fault),
        None => {
            let c = c.copy(parts.alloc)?;
            hold_it(parts, c)
        }
    }
}
