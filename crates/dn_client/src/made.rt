ghost use Rattle.std.specs.Prelude.{◌≡◌, ◌≢◌, ◌<◌, ◌≤◌, map, length, All, Contains, IfSome, IfNone};
ghost use Rattle.std.specs.List.{AllWithin};
ghost use Rattle.std.specs.List.Sorted.{IsStrictlyIncreasing};

use dn_bits::Bits;
use dn_wire::{Bytes, Round};

/// What a client made for a round.
#[derive(Drop)]
pub struct Made {
    pub r: Round,
    /// The round after which it was made.
    pub prev: Round,
    /// The first place of the client's slot and the place past its last, where the slot was open.
    pub range: Option<(u32, u32)>,
    /// The place in the queue of the text that the block carries.
    pub carried: Option<usize>,
    pub plain: Bits,
    pub cipher: Bits,
    /// The digest of the ciphertext.
    pub digest: [u8; 32],
    /// The envelope of the submission.
    pub envelope: Bytes,
}

/// How many of them are for rounds below `r`.
fn count_below(made: &[Made], r: Round) -> usize
    requires { IsStrictlyIncreasing (map (λ m. m.r.0) made.now) }
    ensures bound { result ≤ length made.now }
    ensures below { AllWithin (λ m. m.r.0 < r.0) made.now 0 result }
    ensures above { AllWithin (λ m. r.0 ≤ m.r.0) made.now result (length made.now) }
{
    made.partition_point(|m| m.r < r)
}

/// The one for round `r`.
pub fn find(made: &[Made], r: Round) -> Option<&Made>
    requires { IsStrictlyIncreasing (map (λ m. m.r.0) made.now) }
    ensures found { IfSome result (λ m. Contains made.now m.now × (m.now.r ≡ r)) }
    ensures missing { IfNone result (All (λ m. m.r.0 ≢ r.0) made.now) }
{
    let at = count_below(made, r);
    if at < made.len() && made[at].r == r {
        Some(&made[at])
    } else {
        None
    }
}
