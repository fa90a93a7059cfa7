// Where a corrupt client accuses.
ghost use Rattle.std.specs.Prelude.{◌≡◌};
ghost use Rattle.dn_client.specs.Accusing.{IsFirstDiffering, text_bit};

use crate::client_puppet::ClientPuppet;
use dn_bits::Bits;
use dn_wire::Round;
use dn_world::World;

/// Whether a plain text has 1 at a place.
fn has(plain: Option<&Bits>, k: u32) -> bool
    ensures { result ≡ text_bit plain.entry k }
{
    match plain {
        Some(plain) => plain.get_or_zero(k),
        None => false,
    }
}

/// The first place from one to below another at which an output has 1 and a plain text hasn't.
fn first_raised(plain: Option<&Bits>, out: &Bits, first: u32, past: u32) -> Option<u32>
    ensures { IsFirstDiffering plain.entry out.now first past result }
{
    for k in first..past {
        if out.get_or_zero(k) && !has(plain, k) {
            return Some(k);
        }
    }
    None
}

/// The least place of a client's slot at which the output of round `r` in the run's certificate has 1 and its plain text hasn't.
pub fn first_place(puppet: &ClientPuppet, world: &World, r: Round) -> Option<u32> {
    let body = world.chain().body(r)?;
    let (first, past) = world.chain().layout(body.prev)?.range(puppet.slot)?;
    first_raised(puppet.core.plain(r), &body.out, first, past)
}
