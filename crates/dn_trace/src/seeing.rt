// What a statement is, and who made it.
ghost use Rattle.std.specs.Prelude.{◌≡◌, ℕ, None, Some};
ghost use Rattle.dn_trace.specs.Reasons.{is_server, is_shown};
ghost use Rattle.dn_trace.specs.Evidence.{place_number};

use dn_records::Statement;
use dn_wire::{Round, ServerId, SignerId};

/// Whether the signer is this server.
pub fn is_server(j: ServerId, who: SignerId) -> bool
    ensures { result ≡ is_server j.0 who }
{
    match who {
        SignerId::Server(x) => x.0 == j.0,
        _ => false,
    }
}

/// Whether the statement is a Shown of this round.
pub fn is_shown(r: Round, s: &Statement) -> bool
    ensures { result ≡ is_shown r s.now }
{
    match s {
        Statement::Shown { r: round, .. } => round.0 == r.0,
        _ => false,
    }
}

/// A number for each judged place, by which no two places are taken for one.
pub fn place_number(r: Round, k: u32, s: &Statement) -> Option<u64>
    ensures { result ≡ place_number r k s.now }
{
    match s {
        Statement::Inventory(v) if v.r.0 == r.0 => Some(0),
        Statement::Commit { r: round, .. } if round.0 == r.0 => Some(1),
        Statement::Reveal { r: round, .. } if round.0 == r.0 => Some(2),
        Statement::Sign(body) if body.r.0 == r.0 => Some(3),
        Statement::PadBits {
            r: round,
            k: at,
            ..
        } if round.0 == r.0 && *at == k => Some(4),
        Statement::Shown { r: round, .. } if round.0 == r.0 => Some(5),
        Statement::Receipt {
            r: round,
            client,
            ..
        } if round.0 == r.0 => Some(6 + u64::from(client.0)),
        _ => None,
    }
}
