ghost use Rattle.std.specs.Prelude.{◌≡◌, [], IfOk, IsTrue};

use dn_bits::Bits;
use dn_memory::NoMemory;
use dn_records::{Body, Digests, Listed, Rows};
use dn_roster::Roster;
use dn_wire::Round;
use std::alloc::Global;

/// The body of round `r` after round `prev`, of the roster's version. `digests` are those of the servers' ciphertexts, by server, and
/// `out` is the output; a thin body has neither, and none of version 1 is thin.
pub fn make_body(
    alloc: Global,
    roster: &Roster,
    r: Round,
    prev: Round,
    listed: &[Listed],
    digests: &[[u8; 32]],
    out: &Bits,
    thin: bool,
) -> Result<Body, NoMemory>
    requires empty { IsTrue thin → (digests.now ≡ []) × (out.now ≡ []) }
    requires version { IsTrue thin → roster.now.version ≡ 2 }
    ensures { IfOk result (λ b. b ≡ record { version = roster.now.version; r = r; prev = prev; thin = thin; listed = listed.now; digests = digests.now; out = out.now }) }
{
    Ok(Body {
        version: roster.version(),
        r,
        prev,
        thin,
        listed: Rows::of(Vec::from_slice(alloc, listed)?),
        digests: Digests::of(Vec::from_slice(alloc, digests)?),
        out: out.copy(alloc)?,
    })
}
