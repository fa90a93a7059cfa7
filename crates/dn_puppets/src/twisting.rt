// What a twist makes of a server's statement.
ghost use Rattle.std.specs.Prelude.{◌≤◌, length, IfOk, IfSome};
ghost use Rattle.dn_wire.specs.declared.limits.TheConstants.{MAX_BITS};
ghost use Rattle.dn_puppets.specs.Statements.{IsSignable};

use crate::statements::{pad_bits, plainly_stated, reveal, turned};
use crate::waiting::{TwistKind, Waiting};
use dn_bits::Bits;
use dn_memory::NoMemory;
use dn_records::Statement;
use dn_script::Twist;
use dn_wire::Round;
use std::alloc::Global;

/// A ciphertext as a twist that waits for a server's Reveal changes it, which is spent; nothing where it changes nothing.
fn twisted_reveal(
    alloc: Global,
    waiting: &mut Waiting,
    r: Round,
    s: &Bits,
) -> Result<Option<Statement>, NoMemory>
    requires { length s.now ≤ MAX_BITS }
    ensures { IfOk result (λ o. IfSome o IsSignable) }
{
    match waiting.spend(TwistKind::Reveal) {
        Some(Twist::Reveal { k }) if k < s.len() => {
            let s = turned(alloc, s, k)?;
            Ok(Some(reveal(r.0, s)))
        }
        _ => Ok(None),
    }
}

/// Pad bits as a twist that waits for them changes them, which is spent; nothing where it changes nothing.
fn twisted_bits(
    alloc: Global,
    waiting: &mut Waiting,
    r: Round,
    k: u32,
    bits: &Bits,
) -> Result<Option<Statement>, NoMemory>
    requires { length bits.now ≤ MAX_BITS }
    ensures { IfOk result (λ o. IfSome o IsSignable) }
{
    match waiting.spend(TwistKind::PadBits) {
        Some(Twist::Frame { client }) if client.0 < bits.len() => {
            let bits = turned(alloc, bits, client.0)?;
            Ok(Some(pad_bits(r.0, k, bits)))
        }
        _ => Ok(None),
    }
}

/// The statement that is put in place of that in a server's post, by the first twist that waits for it, which is spent; nothing where the post
/// stays as it is.
pub fn twisted(
    alloc: Global,
    waiting: &mut Waiting,
    payload: &[u8],
) -> Result<Option<Statement>, NoMemory>
    ensures { IfOk result (λ o. IfSome o IsSignable) }
{
    if waiting.first(TwistKind::Reveal).is_none() && waiting.first(TwistKind::PadBits).is_none() {
        return Ok(None);
    }
    match plainly_stated(alloc, payload)? {
        Some(Statement::Reveal { r, s }) => twisted_reveal(alloc, waiting, r, &s),
        Some(Statement::PadBits { r, k, bits }) => twisted_bits(alloc, waiting, r, k, &bits),
        _ => Ok(None),
    }
}
