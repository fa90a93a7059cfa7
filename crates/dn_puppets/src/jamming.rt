// Where a client's slot is jammed.
ghost use Rattle.dn_puppets.specs.Aims.{IsFirstZero};

use dn_bits::Bits;
use dn_client::Client;
use dn_wire::Round;

/// The first place from one to below another at which a string has 0.
fn first_zero_in(bits: &Bits, first: u32, past: u32) -> Option<u32>
    ensures { IsFirstZero bits.now first past result }
{
    for k in first..past {
        if !bits.get_or_zero(k) {
            return Some(k);
        }
    }
    None
}

/// The first place of the slot of a client's last submission of round `r` at which its plain text has 0.
pub fn first_zero(client: &Client, r: Round) -> Option<u32> {
    let (first, past) = client.slot_range(r)?;
    first_zero_in(client.plain(r)?, first, past)
}
